// The path from the root to the leaf of a key.
ghost use Rattle.std.specs.Prelude.{◌≡◌, ◌-◌, length};
ghost use Rattle.layout.specs.Layout.{node_limit, most_blocks};
ghost use Rattle.flash_rows.specs.Worktable.{table_from};
ghost use Rattle.flash_blocks.specs.Pages.{pages_of};
ghost use Rattle.flash_read.specs.NodeTable.{table_of, Readable};
ghost use Rattle.run_path.specs.Path.{PathTo};

use flash_allocate::state::State;
use flash_read::by_id::node_at;
use layout::MOST_NODES;
use node::search::child;
use node::{NodeValue, Shape};

// How many nodes the path has, and the leaf at its end.
#[derive(Drop)]
pub struct Path {
    pub length: usize,
    pub leaf: NodeValue,
}

// The ids of the path are laid into `ids`, from the root on: they are lent, since a stack is small. No more nodes are read than there are: no path
// of a sound tree is longer.
pub fn path_to(
    pool: &[u8],
    table: &[u8],
    ids: &mut [u32; MOST_NODES],
    state: State,
    key: u32,
) -> Path
    requires readable { Readable state table.now }
    requires room { length ids.old ≡ node_limit most_blocks }
    ensures { PathTo (table_of (pages_of pool.now) (table_from table.now) state)
        (state.nodes - 1) key ids.new result }
{
    ids[0] = 0;
    let mut length = 1;
    let mut leaf = node_at(pool, table, state, 0);
    for i in 1..state.nodes {
        if leaf.shape == Shape::Leaf {
            break;
        }
        let id = child(leaf, key);
        ids[i] = id;
        length = i + 1;
        leaf = node_at(pool, table, state, id as usize);
    }
    Path { length, leaf }
}
