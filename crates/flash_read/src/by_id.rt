// A node of the table, by id.
ghost use Rattle.flash_blocks.specs.Pages.{pages_of};
ghost use Rattle.flash_rows.specs.Worktable.{table_from};
ghost use Rattle.node.specs.Value.{Held, Becomes};
ghost use Rattle.node.specs.Drafts.{draft_of};
ghost use Rattle.store.specs.Store.{node_in, no_node};
ghost use Rattle.flash_read.specs.NodeTable.{table_of, Readable};

use super::content::content;
use flash_allocate::state::State;
use node::{DraftState, DraftValue, NodeValue, Shape, empty_node};

// A branch without a key, which is in no sound tree. It keeps the arrays of another node, so that nothing is copied
// for its sake.
fn keyless_branch(v: NodeValue) -> NodeValue
    requires { Held v }
    ensures { Becomes result no_node }
{
    NodeValue {
        shape: Shape::Branch,
        count: 0,
        link: 0,
        ..v
    }
}

// The node that a draft has made; none where it has made none.
pub fn node_in(d: DraftValue) -> NodeValue
    requires { Held d.node }
    ensures { Becomes result (node_in (draft_of d)) }
{
    match d.state {
        DraftState::Made => d.node,
        DraftState::Unlinked | DraftState::Broken => keyless_branch(d.node),
    }
}

// Node n of the table; behind the count there is none.
pub fn node_at(pool: &[u8], table: &[u8], state: State, n: usize) -> NodeValue
    requires { Readable state table.now }
    ensures { Becomes result (table_of (pages_of pool.now) (table_from table.now) state n) }
{
    if n < state.nodes {
        node_in(content(pool, table, state, n))
    } else {
        empty_node(Shape::Branch, 0)
    }
}
