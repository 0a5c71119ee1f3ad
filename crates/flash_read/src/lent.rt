// A node of the table of lent buffers.
ghost use Rattle.std.specs.Prelude.{◌≤◌};
ghost use Rattle.layout.specs.Layout.{node_limit, most_blocks};
ghost use Rattle.node.specs.Value.{Becomes};
ghost use Rattle.flash_blocks.specs.Pages.{pages_of};
ghost use Rattle.flash_rows.specs.Worktable.{table_from};
ghost use Rattle.flash_read.specs.NodeTable.{table_of};

use super::by_id::node_at;
use flash_allocate::flash::Flash;
use node::NodeValue;

// Node n of the table; behind the count there is none.
pub fn read_node(flash: &Flash, n: usize) -> NodeValue
    requires { flash.now.state.nodes ≤ node_limit most_blocks }
    ensures { Becomes result
        (table_of (pages_of flash.now.pool.now) (table_from flash.now.table.now) flash.now.state n) }
{
    node_at(flash.pool(), flash.table(), flash.state, n)
}
