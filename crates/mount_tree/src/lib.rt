// Document 01, question 7: "Is the tree sound?" "Limit kept, every id reached once, leaves at one depth, keys ascending and in bounds, leaf links
// in key order."
#![tactic(auto)]

ghost use Rattle.std.specs.Prelude.{◌≡◌, take};
ghost use Rattle.flash_blocks.specs.Pages.{pages_of};
ghost use Rattle.flash_rows.specs.Worktable.{table_from};
ghost use Rattle.tree.specs.Sound.{sound};
ghost use Rattle.flash_read.specs.NodeTable.{table_of};
ghost use Rattle.mount_tree.specs.Area.{Checkable};

pub mod area;
pub mod due;
pub mod first_leaf;
pub mod kept;
pub mod walk;

use area::begin;
use first_leaf::first_leaf;
use flash_allocate::state::State;
use walk::{WalkValue, walk};

// Whether the nodes of the table are a sound tree of at most `limit`. The check works behind the kept bytes, by which the nodes are read.
pub fn is_sound(pool: &[u8], table: &mut [u8], kept: usize, state: State, limit: usize) -> bool
    requires { Checkable state kept table.old }
    ensures { (result ≡ sound limit state.nodes
        (table_of (pages_of pool.now) (table_from (take kept table.old)) state))
        × (take kept table.new ≡ take kept table.old) }
{
    if limit < state.nodes {
        return false;
    }
    if state.nodes == 0 {
        return false;
    }
    let first = first_leaf(pool, table, kept, state);
    begin(table, kept, state.nodes, first.depth);
    let start = WalkValue {
        awaited: first.leaf,
        low: 0,
        top: state.nodes - 1,
        reached: 0,
    };
    walk(pool, table, kept, state, start)
}
