// The walk from the root, from one node due to the next: leaves awaited by their links, and every id reached once.
ghost use Rattle.std.specs.Prelude.{◌≡◌, ◌+◌, ◌≤◌, ◌<◌, length, take};
ghost use Rattle.flash_blocks.specs.Pages.{pages_of};
ghost use Rattle.flash_rows.specs.Worktable.{table_from};
ghost use Rattle.layout.specs.Layout.{work_bytes};
ghost use Rattle.node.specs.Value.{pairs_in, node_of, Sized};
ghost use Rattle.tree.specs.Sound.{in_order};
ghost use Rattle.flash_read.specs.NodeTable.{table_of};
ghost use Rattle.mount_tree.specs.Passes.{of_kind, passes};
ghost use Rattle.mount_tree.specs.Area.{Checkable, Standing, walk_in, NextDue, Visits, Stepped, Walked};

use super::area::{due_at, mark, push};
use super::due::Due;
use super::kept::node_of;
use flash_allocate::state::State;
use layout::{DUE_BYTES, NO_LEAF};
use node::search::ascends;
use node::{NodeValue, Shape};

// The leaf that must come next, the lowest key of the next node due, its slot, and how many ids were reached.
#[derive(Clone, Copy, Debug, PartialEq, Eq)]
pub struct WalkValue {
    pub awaited: u32,
    pub low: u64,
    pub top: usize,
    pub reached: usize,
}

// A node is in order: its id below the count and not reached before, keys ascending and in bounds.
fn in_order(marks: &[u8], v: NodeValue, id: u32, low: u64, high: u64) -> bool
    requires { Sized v }
    ensures { result ≡ in_order id low high (pairs_in v) marks.now }
{
    let at = id as usize;
    if marks.len() <= at {
        return false;
    }
    marks[at] == 0 && ascends(v, low, high)
}

// A node is of the kind that its depth says: the leaf awaited, or a branch with a key.
#[tactic(auto, unfolding(crate::specs::Passes::of_kind))]
fn of_kind(v: NodeValue, due: Due, awaited: u32) -> bool
    requires { Sized v }
    ensures { result ≡ of_kind due.depth due.id awaited (node_of v) }
{
    match v.shape {
        Shape::Leaf => due.depth == 0 && awaited == due.id,
        Shape::Branch => due.depth != 0 && 1 <= v.count,
    }
}

// Whether a node that is due passes by itself.
fn passes(table: &[u8], kept: usize, nodes: usize, v: NodeValue, due: Due, w: WalkValue) -> bool
    requires { (kept + work_bytes nodes ≤ length table.now) × (Sized v) }
    ensures { result ≡ passes due.depth due.id w.low due.high (walk_in kept nodes table.now w) (node_of v) }
{
    let from = kept + DUE_BYTES * nodes;
    let to = from + nodes;
    in_order(&table[from..to], v, due.id, w.low, due.high) && of_kind(v, due, w.awaited)
}

// Behind a leaf that passes the next node is due, and the leaf awaited is the one that its link names.
fn pass_leaf(
    table: &mut [u8],
    kept: usize,
    nodes: usize,
    v: NodeValue,
    due: Due,
    w: WalkValue,
) -> WalkValue
    requires { (NextDue kept nodes table.old v due w) × (due.depth ≡ 0) }
    ensures { Visits kept nodes table.old v due w table.new (Some result) }
{
    mark(table, kept, nodes, due.id);
    WalkValue {
        awaited: v.link,
        low: due.high,
        top: w.top + 1,
        reached: w.reached + 1,
    }
}

// In place of a branch that passes its children are due. More nodes due than ids not reached would reach some id twice.
fn enter_branch(
    table: &mut [u8],
    kept: usize,
    nodes: usize,
    v: NodeValue,
    due: Due,
    w: WalkValue,
) -> Option<WalkValue>
    requires { (NextDue kept nodes table.old v due w) × (1 ≤ due.depth) }
    ensures { Visits kept nodes table.old v due w table.new result }
{
    if w.top < v.count + (w.reached + 1) {
        return None;
    }
    let base = w.top - v.count;
    mark(table, kept, nodes, due.id);
    push(table, kept, nodes, base, v, due.depth - 1, due.high);
    Some(WalkValue {
        top: base,
        reached: w.reached + 1,
        ..w
    })
}

// Visits the next node due; none, where nothing can come of the walk.
fn visit_next(
    pool: &[u8],
    table: &mut [u8],
    kept: usize,
    state: State,
    w: WalkValue,
) -> Option<WalkValue>
    requires { (Checkable state kept table.old) × (Standing kept state.nodes table.old w) × (w.top < state.nodes) }
    ensures { Stepped (table_of (pages_of pool.now) (table_from (take kept table.old)) state) kept
        state.nodes table.old w table.new result }
{
    let due = due_at(table, kept, state.nodes, w.top);
    let v = node_of(pool, table, kept, state, due.id);
    if !passes(table, kept, state.nodes, v, due, w) {
        return None;
    }
    if due.depth == 0 {
        return Some(pass_leaf(table, kept, state.nodes, v, due, w));
    }
    enter_branch(table, kept, state.nodes, v, due, w)
}

// Visits all nodes due: whether the walk passes, the links end in FFFFFFFF, and every id is reached. A `while`: each visit says how many are due.
pub fn walk(pool: &[u8], table: &mut [u8], kept: usize, state: State, start: WalkValue) -> bool
    requires { (Checkable state kept table.old) × (Standing kept state.nodes table.old start) }
    ensures { Walked (table_of (pages_of pool.now) (table_from (take kept table.old)) state) kept
        state.nodes table.old start table.new result }
{
    let mut w = start;
    while w.top < state.nodes {
        match visit_next(pool, table, kept, state, w) {
            Some(next) => w = next,
            None => return false,
        }
    }
    w.awaited == NO_LEAF && w.reached == state.nodes
}
