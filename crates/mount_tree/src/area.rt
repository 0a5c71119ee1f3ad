// What the check keeps behind the kept bytes of the work table: a slot for each node due, then a mark for each id.
ghost use Rattle.std.specs.Prelude.{◌≡◌, [], ◌∷◌, ◌+◌, ◌-◌, ◌≤◌, ◌<◌, length, get_or};
ghost use Rattle.layout.specs.Layout.{work_bytes};
ghost use Rattle.node.specs.Value.{pairs_in, Sized};
ghost use Rattle.mount_tree.specs.Due.{no_due, children_of};
ghost use Rattle.mount_tree.specs.Area.{dues_in, Marks, Pushes, root_due, Begun};

use super::due::{Due, push_children};
use layout::DUE_BYTES;
use node::NodeValue;
use wire::bytes::fill_part;
use wire::record::{read, write};

// The node due in a slot.
pub fn due_at(table: &[u8], kept: usize, nodes: usize, slot: usize) -> Due
    requires { (kept + work_bytes nodes ≤ length table.now) × (slot < nodes) }
    ensures { result ≡ get_or (dues_in kept nodes table.now) slot no_due }
{
    let end = kept + DUE_BYTES * nodes;
    read(&table[kept..end], slot)
}

// Marks an id as reached.
pub fn mark(table: &mut [u8], kept: usize, nodes: usize, id: u32)
    requires { (kept + work_bytes nodes ≤ length table.old) × (id < nodes) }
    ensures { Marks kept nodes id table.old table.new }
{
    let at = kept + DUE_BYTES * nodes + id as usize;
    table[at] = 1;
}

// Lays the children of a branch in the slots from one on.
pub fn push(
    table: &mut [u8],
    kept: usize,
    nodes: usize,
    base: usize,
    v: NodeValue,
    depth: u32,
    high: u64,
)
    requires { (kept + work_bytes nodes ≤ length table.old) × (Sized v) × (base + v.count < nodes) }
    ensures { Pushes kept nodes base (base + v.count + 1) (children_of depth (pairs_in v) v.link high)
        table.old table.new }
{
    let end = kept + DUE_BYTES * nodes;
    push_children(&mut table[kept..end], base, v, depth, high);
}

// The root due in the last slot, its leaves so deep below it.
fn push_root(table: &mut [u8], kept: usize, nodes: usize, depth: u32)
    requires { (kept + work_bytes nodes ≤ length table.old) × (1 ≤ nodes) }
    ensures { Pushes kept nodes (nodes - 1) nodes (root_due depth ∷ []) table.old table.new }
{
    let end = kept + DUE_BYTES * nodes;
    let root = Due {
        id: 0,
        depth,
        high: 4294967296,
    };
    write(&mut table[kept..end], nodes - 1, root);
}

// No id reached, and the root alone due.
pub fn begin(table: &mut [u8], kept: usize, nodes: usize, depth: u32)
    requires { (kept + work_bytes nodes ≤ length table.old) × (1 ≤ nodes) }
    ensures { Begun kept nodes depth table.old table.new }
{
    let from = kept + DUE_BYTES * nodes;
    fill_part(table, from, from + nodes, 0);
    push_root(table, kept, nodes, depth);
}
