// The first leaf and its depth, by first pointers from the root.
ghost use Rattle.std.specs.Prelude.{◌≡◌, ◌≤◌, length, take};
ghost use Rattle.flash_blocks.specs.Pages.{pages_of};
ghost use Rattle.flash_rows.specs.Worktable.{table_from};
ghost use Rattle.tree.specs.Sound.{leftmost};
ghost use Rattle.flash_read.specs.NodeTable.{table_of, Readable};
ghost use Rattle.mount_tree.specs.FirstLeaf.{leftmost_of};

use super::kept::node_of;
use flash_allocate::state::State;
use node::Shape;
use node::search::pointer;

// The first leaf and how deep it lies.
#[derive(Clone, Copy, Debug, PartialEq, Eq)]
pub struct FirstLeaf {
    pub depth: u32,
    pub leaf: u32,
}

// No more nodes are read than there are: a search that goes on leads round in a circle.
pub fn first_leaf(pool: &[u8], table: &[u8], kept: usize, state: State) -> FirstLeaf
    requires { (Readable state (take kept table.now)) × (kept ≤ length table.now) }
    ensures { leftmost_of result
        ≡ leftmost state.nodes (table_of (pages_of pool.now) (table_from (take kept table.now)) state) 0 0 }
{
    let nodes = state.nodes as u32;
    let mut leaf = 0;
    for depth in 0..nodes {
        let v = node_of(pool, table, kept, state, leaf);
        match v.shape {
            Shape::Leaf => return FirstLeaf { depth, leaf },
            Shape::Branch => leaf = pointer(v, 0),
        }
    }
    FirstLeaf { depth: nodes, leaf }
}
