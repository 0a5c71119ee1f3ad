// The content of a node as a request finds it, and as an edit leaves it.
ghost use Rattle.std.specs.Prelude.{◌+◌, ◌*◌, ◌≤◌, length};
ghost use Rattle.layout.specs.Layout.{most_entries};
ghost use Rattle.node.specs.Value.{node_of, Held, Becomes};
ghost use Rattle.node.specs.Drafts.{change_of};
ghost use Rattle.flash_rows.specs.Row.{row_bytes};
ghost use Rattle.flash_rows.specs.Worktable.{rows_at};
ghost use Rattle.flash_allocate.specs.World.{world_in};
ghost use Rattle.run_serve.specs.Content.{content_of, edited_of};

use flash_allocate::state::State;
use flash_read::by_id::node_in;
use flash_read::content::content;
use node::{ChangeValue, DraftState, DraftValue, NodeValue};
use node_replay::redo;

// The content of a node.
pub fn content_of(pool: &[u8], table: &[u8], state: State, id: usize) -> NodeValue
    requires few { state.entries ≤ most_entries }
    requires inside { rows_at + row_bytes * id + row_bytes ≤ length table.now }
    ensures { Becomes result (content_of id (world_in pool.now table.now state)) }
{
    node_in(content(pool, table, state, id))
}

// A content with one change more.
pub fn edited(old: NodeValue, change: ChangeValue) -> NodeValue
    requires { Held old }
    ensures { Becomes result (edited_of (change_of change) (node_of old)) }
{
    let made = DraftValue {
        state: DraftState::Made,
        node: old,
    };
    node_in(redo(made, change))
}
