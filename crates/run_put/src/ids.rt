// Question 9: "Are enough node ids unused?"
ghost use Rattle.std.specs.Prelude.{◌≡◌, ◌+◌, ◌≤◌, length};
ghost use Rattle.layout.specs.Layout.{most_keys, node_limit, most_blocks};
ghost use Rattle.flash_rows.specs.Worktable.{table_from};
ghost use Rattle.flash_blocks.specs.Pages.{pages_of};
ghost use Rattle.tree.specs.Put.{ids_needed};
ghost use Rattle.tree_laws.specs.IdsNeeded.{size_at};
ghost use Rattle.flash_read.specs.NodeTable.{table_of, Readable};
ghost use Rattle.run_put.specs.Put.{last_of};

use flash_allocate::state::State;
use flash_read::by_id::node_at;
use layout::MOST_KEYS;

// The ids that a new key needs whose path ends in a full leaf: "one id for each full node counted from that leaf upwards without a gap, and one more if
// the root is among them".
pub fn ids_needed(pool: &[u8], table: &[u8], state: State, ids: &[u32]) -> usize
    requires readable { Readable state table.now }
    requires some { 1 ≤ length ids.now }
    requires few { length ids.now ≤ node_limit most_blocks }
    requires full { most_keys ≤ size_at (table_of (pages_of pool.now) (table_from table.now) state) (last_of ids.now) }
    ensures exact { result ≡ ids_needed (table_of (pages_of pool.now) (table_from table.now) state) ids.now }
    ensures small { result ≤ node_limit most_blocks + 1 }
{
    for i in (1..ids.len()).rev() {
        let above = node_at(pool, table, state, ids[i - 1] as usize);
        if above.count < MOST_KEYS {
            return ids.len() - i;
        }
    }
    ids.len() + 1
}
