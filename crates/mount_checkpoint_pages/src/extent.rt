// How far the checkpoint reaches: from the newest page that has the tariff to the newest of all.
ghost use Rattle.std.specs.Prelude.{◌≡◌, ◌*◌, ◌≤◌, length};
ghost use Rattle.flash_blocks.specs.Pages.{pages_of};
ghost use Rattle.mount_checkpoint_pages.specs.Extent as def;
ghost use Rattle.mount_checkpoint_pages.specs.Extent.{Reach};
ghost use Rattle.layout.specs.Layout.{page_bytes};

use flash_blocks::page::page_part;
use layout::{FIELDS_AT, TARIFF_BYTES};
use page_read::seal::sequence;
use wire::field::payload;

// The greatest sequence number, the greatest of a page with the tariff, and where that page lies.
#[derive(Clone, Copy, Debug, PartialEq, Eq)]
pub struct Extent {
    pub newest: u32,
    pub since: u32,
    pub place: usize,
}

// The extent with one page more.
fn extended(bytes: &[u8], page: usize, e: Extent) -> Extent
    ensures { result ≡ def.extended page bytes.now e }
{
    let number = sequence(bytes);
    let newest = e.newest.max(number);
    let later = e.since < number;
    if later && payload(bytes, FIELDS_AT, 0x13).len() == TARIFF_BYTES {
        return Extent {
            newest,
            since: number,
            place: page,
        };
    }
    Extent { newest, ..e }
}

// The extent over all pages.
pub fn extent_of(pool: &[u8], pages: usize) -> Extent
    requires { (1 ≤ pages) × (page_bytes * pages ≤ length pool.now) }
    ensures { Reach (pages_of pool.now) pages result }
{
    let mut e = Extent {
        newest: 0,
        since: 0,
        place: 0,
    };
    for page in 0..pages {
        e = extended(page_part(pool, page), page, e);
    }
    e
}
