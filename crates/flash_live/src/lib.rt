// Which pages are live, and the written block that has fewest of them.
#![tactic(auto)]

ghost use Rattle.std.specs.Prelude.{◌≡◌, ◌+◌, ◌*◌, ◌≤◌, ◌<◌, length};
ghost use Rattle.flash_rows.specs.Row.{rows_of, row_bytes};
ghost use Rattle.flash_blocks.specs.Pages.{pages_of};
ghost use Rattle.flash_live.specs.Live.{mark_slot, mark_row, live_map, live_in};
ghost use Rattle.flash_live.specs.Bits.{marks_in};
ghost use Rattle.flash_live.specs.Choose as def;
ghost use Rattle.layout.specs.Layout.{block_bytes, most_blocks, pages_in_block};

use flash_rows::Row;
use layout::{LIVE_BYTES, MOST_PAGES, PAGES_IN_BLOCK};
use wire::record::read;

pub mod bits;

// A block, and how many live pages it has.
#[derive(Clone, Copy, Debug, PartialEq, Eq)]
pub struct Choice {
    pub block: usize,
    pub live: usize,
}

// Marks the page of slot k, where the slot is in use.
#[tactic(auto, unfolding(crate::specs::Live::mark_slot))]
fn mark_slot(live: &mut [u8; LIVE_BYTES], k: u8, pages: u8, slot: u16)
    ensures { marks_in live.new ≡ mark_slot k pages slot (marks_in live.old) }
{
    let page = usize::from(slot);
    if k < pages && page < MOST_PAGES {
        bits::set_live(live, page);
    }
}

// Marks the pages of a row.
#[tactic(auto, unfolding(crate::specs::Live::mark_row))]
fn mark_row(live: &mut [u8; LIVE_BYTES], r: Row)
    ensures { marks_in live.new ≡ mark_row r (marks_in live.old) }
{
    mark_slot(live, 0, r.pages, r.first);
    mark_slot(live, 1, r.pages, r.second);
    mark_slot(live, 2, r.pages, r.third);
}

// The live pages, by the rows in use.
pub fn live_map(table: &[u8], used: usize) -> [u8; LIVE_BYTES]
    requires { row_bytes * used ≤ length table.now }
    ensures { marks_in result ≡ live_map used (rows_of table.now) }
{
    let mut live = [0u8; LIVE_BYTES];
    for n in 0..used {
        mark_row(&mut live, read(table, n));
    }
    live
}

// How many pages of a block are live.
pub fn count_live(live: &[u8; LIVE_BYTES], block: usize) -> usize
    requires { block < most_blocks }
    ensures { (result ≡ live_in (marks_in live.now) block) × (result ≤ pages_in_block) }
{
    let mut n = 0;
    for k in 0..PAGES_IN_BLOCK {
        n += usize::from(bits::is_live(live, PAGES_IN_BLOCK * block + k));
    }
    n
}

// The block with fewer live pages: this one, or the best before it; a blank block is none.
#[tactic(auto, unfolding(crate::specs::Choose::weigh))]
fn weigh(pool: &[u8], live: &[u8; LIVE_BYTES], block: usize, best: Choice) -> Choice
    requires { (block < most_blocks) × (block_bytes * block + block_bytes ≤ length pool.now) }
    ensures { def.Weighed (def.weigh (pages_of pool.now) (marks_in live.now) block best)
        block best result }
{
    if flash_blocks::blank::is_blank_block(pool, block) {
        return best;
    }
    let n = count_live(live, block);
    if n < best.live {
        Choice { block, live: n }
    } else {
        best
    }
}

// The written block with fewest live pages, the lowest on a tie.
pub fn victim(pool: &[u8], live: &[u8; LIVE_BYTES], blocks: usize) -> usize
    requires { (0 < blocks) × (blocks ≤ most_blocks) × (block_bytes * blocks ≤ length pool.now) }
    ensures { (result ≡ def.victim blocks (pages_of pool.now) (marks_in live.now)) × (result < blocks) }
{
    let mut best = Choice { block: 0, live: 33 };
    for block in 0..blocks {
        best = weigh(pool, live, block, best);
    }
    best.block
}
