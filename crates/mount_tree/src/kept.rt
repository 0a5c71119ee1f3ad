// A node of the tree, by the kept bytes of the work table.
ghost use Rattle.std.specs.Prelude.{◌≤◌, length, take};
ghost use Rattle.flash_blocks.specs.Pages.{pages_of};
ghost use Rattle.flash_rows.specs.Worktable.{table_from};
ghost use Rattle.node.specs.Value.{Becomes};
ghost use Rattle.flash_read.specs.NodeTable.{table_of, Readable};

use flash_allocate::state::State;
use flash_read::by_id::node_at;
use node::NodeValue;

// The node of an id.
pub fn node_of(pool: &[u8], table: &[u8], kept: usize, state: State, id: u32) -> NodeValue
    requires { (Readable state (take kept table.now)) × (kept ≤ length table.now) }
    ensures { Becomes result (table_of (pages_of pool.now) (table_from (take kept table.now)) state id) }
{
    node_at(pool, &table[..kept], state, id as usize)
}
