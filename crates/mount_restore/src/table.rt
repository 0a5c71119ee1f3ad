// The rows of the work table as a pool says them.
ghost use Rattle.std.specs.Prelude.{◌≡◌, ◌*◌, ◌≤◌, length};
ghost use Rattle.layout.specs.Layout.{block_bytes, fewest_blocks, most_blocks, node_limit, table_bytes};
ghost use Rattle.flash_rows.specs.Worktable.{table_from};
ghost use Rattle.flash_blocks.specs.Pages.{pages_of};
ghost use Rattle.mount_restore.specs.Table.{Restored};

use flash_rows::table::ROWS_AT;
use mount_checkpoint::scores::take_scores;
use mount_rows::fill::fill_rows;
use wire::bytes::fill;

// Restores the rows of all nodes, the buffer empty; whether no node lies on more than three pages.
pub fn restore_rows(pool: &[u8], table: &mut [u8], blocks: usize, nodes: usize, since: u32) -> bool
    requires { (fewest_blocks ≤ blocks) × (blocks ≤ most_blocks) × (length pool.now ≡ block_bytes * blocks)
        × (length table.old ≡ table_bytes blocks) × (nodes ≤ node_limit blocks) }
    ensures { Restored blocks nodes since (pages_of pool.now) (table_from table.new) result }
{
    fill(table, 0);
    take_scores(pool, &mut table[ROWS_AT..], blocks, since, nodes);
    fill_rows(pool, &mut table[ROWS_AT..], blocks, nodes)
}
