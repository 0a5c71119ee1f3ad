// Compaction: a block is chosen, and moved to a blank one: its live pages copied by place, the rows renamed in one pass, the block erased last.
ghost use Rattle.std.specs.Prelude.{◌≡◌, ◌+◌, ◌*◌, ◌≤◌, ◌<◌, length};
ghost use Rattle.flash_rows.specs.Row.{rows_of, row_bytes};
ghost use Rattle.flash_blocks.specs.Pages.{pages_of};
ghost use Rattle.flash_live.specs.Bits.{marks_in};
ghost use Rattle.flash_allocate.specs.Compact.{copying, copy_live, copy_block, rename_rows, compacted, move_block};
ghost use Rattle.flash_allocate.specs.Compact as def;
ghost use Rattle.layout.specs.Layout.{block_bytes, most_blocks, most_pages, page_bytes, pages_in_block};

use flash_live::bits::is_live;
use flash_rows::Row;
use layout::{LIVE_BYTES, PAGES_IN_BLOCK};
use wire::record::{read, write};

// Page k of the block at `base`, where it is live, copied to the block at `first` behind the pages that went before.
fn copy_live(
    pool: &mut [u8],
    places: &mut [u16; PAGES_IN_BLOCK],
    live: &[u8; LIVE_BYTES],
    base: usize,
    first: usize,
    k: usize,
    fill: usize,
) -> usize
    requires { (k < pages_in_block) × (fill < pages_in_block) × (base + k < most_pages) × (first < most_pages)
        × (page_bytes * (base + k) + page_bytes ≤ length pool.old) × (page_bytes * (first + fill) + page_bytes ≤ length pool.old) }
    ensures { (copying (pages_of pool.new) places.new result
        ≡ copy_live (marks_in live.now) base first k (copying (pages_of pool.old) places.old fill))
        × (result ≤ fill + 1) }
{
    let from = base + k;
    if !is_live(live, from) {
        return fill;
    }
    let to = first + fill;
    flash_blocks::page::copy_page(pool, from, to);
    places[k] = to as u16;
    fill + 1
}

// The live pages of the block at `base`, copied to the block at `first`: how many went, and where each went.
fn copy_block(
    pool: &mut [u8],
    places: &mut [u16; PAGES_IN_BLOCK],
    live: &[u8; LIVE_BYTES],
    base: usize,
    first: usize,
) -> usize
    requires { (base + pages_in_block ≤ most_pages) × (first + pages_in_block ≤ most_pages) × (page_bytes * base + block_bytes ≤ length pool.old)
        × (page_bytes * first + block_bytes ≤ length pool.old) }
    ensures { (copying (pages_of pool.new) places.new result
        ≡ copy_block (marks_in live.now) base first (copying (pages_of pool.old) places.old 0))
        × (result ≤ pages_in_block) }
{
    let mut fill = 0;
    for k in 0..PAGES_IN_BLOCK {
        fill = copy_live(pool, places, live, base, first, k, fill);
    }
    fill
}

// Every row in use with the new places of its pages.
fn rename_rows(table: &mut [u8], used: usize, base: usize, places: &[u16; PAGES_IN_BLOCK])
    requires { row_bytes * used ≤ length table.old }
    ensures { rows_of table.new ≡ rename_rows used base places.now
        (rows_of table.old) }
{
    for n in 0..used {
        let r: Row = read(table, n);
        write(table, n, r.moved(base, places));
    }
}

// The live pages of a block moved to the blank block `to`, and the block erased last: how many pages went. Every store of a compaction is here.
fn move_block(
    pool: &mut [u8],
    table: &mut [u8],
    live: &[u8; LIVE_BYTES],
    used: usize,
    block: usize,
    to: usize,
) -> usize
    requires { (row_bytes * used ≤ length table.old) × (block < most_blocks) × (to < most_blocks)
        × (block_bytes * block + block_bytes ≤ length pool.old) × (block_bytes * to + block_bytes ≤ length pool.old) }
    ensures { (compacted (pages_of pool.new) (rows_of table.new) result
        ≡ move_block (marks_in live.now) used block to (pages_of pool.old) (rows_of table.old))
        × (result ≤ pages_in_block) }
{
    let mut places = [0u16; PAGES_IN_BLOCK];
    let fill = copy_block(
        pool,
        &mut places,
        live,
        PAGES_IN_BLOCK * block,
        PAGES_IN_BLOCK * to,
    );
    rename_rows(table, used, PAGES_IN_BLOCK * block, &places);
    flash_blocks::page::erase_block(pool, block);
    fill
}

// The block with fewest live pages moved to the blank block `to`: how many pages are there then.
pub fn compact(pool: &mut [u8], table: &mut [u8], used: usize, blocks: usize, to: usize) -> usize
    requires { (row_bytes * used ≤ length table.old) × (to < blocks) × (blocks ≤ most_blocks)
        × (block_bytes * blocks ≤ length pool.old) }
    ensures { (compacted (pages_of pool.new) (rows_of table.new) result
        ≡ def.compact used blocks to (pages_of pool.old) (rows_of table.old))
        × (result ≤ pages_in_block) }
{
    let live = flash_live::live_map(table, used);
    let block = flash_live::victim(pool, &live, blocks);
    move_block(pool, table, &live, used, block, to)
}
