// The scores of a complete checkpoint in the rows of the work table.
ghost use Rattle.std.specs.Prelude.{◌≡◌, ◌+◌, ◌*◌, ◌≤◌, ◌<◌, length};
ghost use Rattle.layout.specs.Layout.{block_bytes, pages_in_block};
ghost use Rattle.flash_rows.specs.Row.{rows_of, row_bytes};
ghost use Rattle.flash_blocks.specs.Pages.{pages_of};
ghost use Rattle.mount_checkpoint.specs.Scores.{score_taken, take_page, take_pages};

use flash_blocks::page::page_part;
use layout::PAGES_IN_BLOCK;
use mount_checkpoint_pages::checkpoint_page::scores_of;
use page_read::seal::sequence;
use page_read::value::score_at;

// The score of a node in its row.
fn take_score(table: &mut [u8], nodes: usize, id: usize, score: u32)
    requires { row_bytes * nodes ≤ length table.old }
    ensures { rows_of table.new ≡ score_taken nodes id score (rows_of table.old) }
{
    if id < nodes {
        let row = flash_rows::read_row(table, id);
        flash_rows::write_row(table, id, row.scored(score));
    }
}

// The scores on a page, where its number is not below the first.
fn take_page(page: &[u8], table: &mut [u8], since: u32, nodes: usize)
    requires { row_bytes * nodes ≤ length table.old }
    ensures { rows_of table.new ≡ take_page since nodes page.now
        (rows_of table.old) }
{
    if sequence(page) < since {
        return;
    }
    let s = scores_of(page);
    for i in 0..s.count {
        let v = score_at(page, s.from, i);
        take_score(table, nodes, v.id as usize, v.score);
    }
}

// The scores of all pages from a number on, each in its node's row.
pub fn take_scores(pool: &[u8], table: &mut [u8], blocks: usize, since: u32, nodes: usize)
    requires { (block_bytes * blocks ≤ length pool.now) × (row_bytes * nodes ≤ length table.old) }
    ensures { rows_of table.new ≡ take_pages (pages_of pool.now) (pages_in_block * blocks) since
        nodes (rows_of table.old) }
{
    for page in 0..PAGES_IN_BLOCK * blocks {
        take_page(page_part(pool, page), table, since, nodes);
    }
}
