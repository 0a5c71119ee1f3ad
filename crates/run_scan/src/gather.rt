// The pairs of a scan gathered, leaf after leaf, and the leaves that it goes to by links.
ghost use Rattle.std.specs.Prelude.{◌≡◌, ◌≤◌, length};
ghost use Rattle.flash_rows.specs.Worktable.{table_from};
ghost use Rattle.flash_blocks.specs.Pages.{pages_of};
ghost use Rattle.flash_read.specs.NodeTable.{table_of, Readable};
ghost use Rattle.run_scan.specs.Gathered.{GatheredFrom};
ghost use Rattle.layout.specs.Layout.{node_limit, most_blocks, most_pairs};

use super::Pairs;
use flash_allocate::state::State;
use flash_read::by_id::node_at;
use layout::{MOST_NODES, MOST_PAIRS, NO_LEAF};
use node::search::{find, place_of};

// The pairs, and how many leaves behind the first were gone to.
#[derive(Drop)]
pub struct Gathered {
    pub pairs: Pairs,
    pub visited: usize,
}

// From a first leaf on, in each from the first key at or above the low one on; as many links are followed as there are
// nodes at most. The ids of the leaves behind the first are laid into `leaves`, in order: they are lent, since a stack
// is small.
pub fn gather(
    pool: &[u8],
    table: &[u8],
    state: State,
    first: usize,
    low: u32,
    high: u32,
    most: usize,
    leaves: &mut [u32; MOST_NODES],
) -> Gathered
    requires { (Readable state table.now) × (low ≤ high) × (1 ≤ most) × (most ≤ most_pairs)
        × (length leaves.old ≡ node_limit most_blocks) }
    ensures { GatheredFrom first (table_of (pages_of pool.now) (table_from table.now) state)
        state.nodes low high most leaves.new result }
{
    let mut keys = [0u32; MOST_PAIRS];
    let mut values = [0u32; MOST_PAIRS];
    let mut count: usize = 0;
    let mut visited: usize = 0;
    let mut leaf = node_at(pool, table, state, first);
    // A `loop`, since it ends in four ways, two of them inside a leaf: a `for` over the links would end in the same four.
    'leaves: loop {
        'keys: for i in place_of(find(leaf, low))..leaf.count {
            let key = leaf.keys[i];
            if high < key {
                break 'leaves;
            }
            keys[count] = key;
            values[count] = leaf.pointers[i];
            count += 1;
            if count == most {
                break 'leaves;
            }
        }
        let next = leaf.link;
        if next == NO_LEAF || visited == state.nodes {
            break;
        }
        leaves[visited] = next;
        visited += 1;
        leaf = node_at(pool, table, state, next as usize);
    }
    Gathered {
        pairs: Pairs {
            keys,
            values,
            count,
        },
        visited,
    }
}
