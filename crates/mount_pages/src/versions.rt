// The versions of log entries, held against the sequence numbers of all pages.
ghost use Rattle.std.specs.Prelude.{◌≡◌, ◌+◌, ◌*◌, ◌≤◌, length};
ghost use Rattle.flash_blocks.specs.Pages.{pages_of};
ghost use Rattle.mount_sequences.specs.Row.{row};
ghost use Rattle.mount_sequences.specs.Find.{Ascending, has};
ghost use Rattle.mount_filter.specs.Marks.{Marked};
ghost use Rattle.mount_pages.specs.Versions.{apart_on, pages_apart};
ghost use Rattle.layout.specs.Layout.{page_bytes};

use flash_blocks::page::page_part;
use layout::{ENTRY_BYTES, FIELDS_AT, MOST_ENTRIES};
use mount_filter::has_marked;
use wire::number::read32;

// The tag of a field with an entry, and how long such a field is.
const ENTRY: u8 = 0x12;

const ENTRY_FIELD: usize = 3 + ENTRY_BYTES;

// Whether no entry of a page has a version that is a number of the row.
fn is_new_version(page: &[u8], table: &[u8], n: usize, blocks: usize) -> bool
    requires { (length page.now ≡ page_bytes) × (Ascending table.now n) × (Marked table.now n blocks) }
    ensures { result ≡ apart_on (has (row n 0 table.now)) page.now }
{
    for i in 0..MOST_ENTRIES {
        let at = FIELDS_AT + ENTRY_FIELD * i;
        if page[at] != ENTRY {
            return true;
        }
        if has_marked(table, n, blocks, read32(page, at + 5)) {
            return false;
        }
    }
    true
}

// Whether no entry of the first pages has a version that is a number of the row.
pub fn versions_are_new(pool: &[u8], table: &[u8], n: usize, blocks: usize, pages: usize) -> bool
    requires { (page_bytes * pages ≤ length pool.now) × (Ascending table.now n) × (Marked table.now n blocks) }
    ensures { result ≡ pages_apart (row n 0 table.now) pages (pages_of pool.now) }
{
    (0..pages).all(|page| is_new_version(page_part(pool, page), table, n, blocks))
}
