// All pages of a pool, in order of place, and whether a node lies on too many.
ghost use Rattle.std.specs.Prelude.{◌≡◌, ◌+◌, ◌*◌, ◌≤◌, ◌<◌, length};
ghost use Rattle.layout.specs.Layout.{block_bytes, most_blocks, most_pages, page_bytes};
ghost use Rattle.flash_rows.specs.Row.{rows_of, row_bytes};
ghost use Rattle.flash_blocks.specs.Pages.{pages_of};
ghost use Rattle.mount_rows.specs.Fill.{seen_page, filled, within_three, Filled};

use super::pieces::{see_entries, see_node};
use flash_blocks::page::page_part;
use layout::PAGES_IN_BLOCK;

// The pieces on one page of the pool.
fn see_page(pool: &[u8], table: &mut [u8], nodes: usize, page: usize)
    requires { (page < most_pages) × (page_bytes * page + page_bytes ≤ length pool.now) × (row_bytes * nodes ≤ length table.old) }
    ensures { rows_of table.new ≡ seen_page nodes (pages_of pool.now) page
        (rows_of table.old) }
{
    let bytes = page_part(pool, page);
    let number = page as u16;
    see_entries(bytes, table, nodes, number);
    see_node(bytes, table, nodes, number);
}

// The pieces on all pages.
fn see_pages(pool: &[u8], table: &mut [u8], blocks: usize, nodes: usize)
    requires { (blocks ≤ most_blocks) × (length pool.now ≡ block_bytes * blocks)
        × (row_bytes * nodes ≤ length table.old) }
    ensures { rows_of table.new ≡ filled blocks nodes (pages_of pool.now)
        (rows_of table.old) }
{
    for page in 0..PAGES_IN_BLOCK * blocks {
        see_page(pool, table, nodes, page);
    }
}

// Whether each of the first rows has at most three pages.
fn within_three(table: &[u8], nodes: usize) -> bool
    requires { row_bytes * nodes ≤ length table.now }
    ensures { result ≡ within_three nodes (rows_of table.now) }
{
    (0..nodes).all(|id| flash_rows::read_row(table, id).pages <= 3)
}

// Fills the rows from the pages; whether no node lies on more than three of them.
pub fn fill_rows(pool: &[u8], table: &mut [u8], blocks: usize, nodes: usize) -> bool
    requires { (blocks ≤ most_blocks) × (length pool.now ≡ block_bytes * blocks)
        × (row_bytes * nodes ≤ length table.old) }
    ensures { Filled blocks nodes (pages_of pool.now) (rows_of table.old)
        (rows_of table.new) result }
{
    see_pages(pool, table, blocks, nodes);
    within_three(table, nodes)
}
