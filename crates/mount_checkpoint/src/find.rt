// The newest checkpoint, where it is complete.
ghost use Rattle.std.specs.Prelude.{◌≡◌, ◌+◌, ◌*◌, ◌≤◌, ◌<◌, length};
ghost use Rattle.layout.specs.Layout.{block_bytes, most_blocks, page_bytes};
ghost use Rattle.flash_blocks.specs.Pages.{pages_of};
ghost use Rattle.mount_checkpoint.specs.Find.{tariff_at, Found};

use super::marks::covers;
use account::{Costs, Tariff};
use flash_blocks::page::page_part;
use layout::{FIELDS_AT, PAGES_IN_BLOCK, TARIFF_BYTES};
use mount_checkpoint_pages::extent::extent_of;
use mount_checkpoint_pages::totals::sum_pages;
use page_read::value::tariff_of;
use wire::field::payload;

// A complete checkpoint: the tariff, the node count and the number of its first page.
#[derive(Clone, Copy, Debug, PartialEq, Eq)]
pub struct Checkpoint {
    pub tariff: Tariff,
    pub nodes: usize,
    pub since: u32,
}

// The tariff on a page; zeros where there is none.
fn tariff_at(pool: &[u8], page: usize) -> Tariff
    requires { page_bytes * page + page_bytes ≤ length pool.now }
    ensures { result ≡ tariff_at (pages_of pool.now) page }
{
    let p = payload(page_part(pool, page), FIELDS_AT, 0x13);
    if p.len() != TARIFF_BYTES {
        let none = Costs {
            read: 0,
            edit: 0,
            rewrite: 0,
            enter: 0,
        };
        return Tariff {
            log: none,
            disk: none,
        };
    }
    tariff_of(p)
}

// Question 6: the pages of greatest sequence number, back to the newest with the tariff, where they are a complete checkpoint. The work table
// serves as scratch.
pub fn find_checkpoint(pool: &[u8], scratch: &mut [u8], blocks: usize) -> Option<Checkpoint>
    requires { (1 ≤ blocks) × (blocks ≤ most_blocks) × (block_bytes * blocks ≤ length pool.now) }
    ensures { Found (pages_of pool.now) blocks scratch.old scratch.new result }
{
    let pages = PAGES_IN_BLOCK * blocks;
    let e = extent_of(pool, pages);
    if e.since < 1 {
        return None;
    }
    let t = sum_pages(pool, pages, e.since, e.newest);
    if t.misfits != 0 {
        return None;
    }
    let nodes = t.nodes as usize;
    if t.scores != nodes {
        return None;
    }
    if !covers(pool, scratch, pages, e.since, nodes) {
        return None;
    }
    Some(Checkpoint {
        tariff: tariff_at(pool, e.place),
        nodes,
        since: e.since,
    })
}
