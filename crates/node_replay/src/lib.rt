// The replay of a node from the changes of its log entries, one by one and in place.
#![tactic(auto)]

ghost use Rattle.node.specs.Change.{put, remove};
ghost use Rattle.node.specs.Replay.{redo};
ghost use Rattle.node.specs.Value.{Held};
ghost use Rattle.node.specs.Drafts.{draft_of, change_of, Redone};
ghost use Rattle.node_replay.specs.Outline.{node_from, draft_from, counted_to, draft_in, HeldIn, RedoneIn, Links};

use front::{is_behind, is_first, settle};
use layout::MOST_KEYS;
use node::search::{find_behind, find_in_replay};
use node::{ChangeValue, DraftState, DraftValue, Shape, splice};
use outline::{Outline, counted, draft_from, outline_of};

pub mod front;
pub mod outline;

// One put more into a draft whose keys stand at the front. The answer is how many they are then; none where a 25th
// would be put in. In line, so that the loop over a node's entries calls nothing.
#[inline(always)]
fn put_in(
    keys: &mut [u32; MOST_KEYS],
    pointers: &mut [u32; MOST_KEYS],
    outline: Outline,
    key: u32,
    pointer: u32,
) -> Option<usize>
    requires { Held (node_from outline keys.old pointers.old) }
    ensures { Redone (draft_from (counted_to outline result) keys.new pointers.new)
        (redo (draft_of (draft_from outline keys.old pointers.old)) (put key pointer)) }
{
    let count = outline.count;
    match find_behind(keys, count, key) {
        Ok(i) => {
            pointers[i] = pointer;
            Some(count)
        }
        Err(i) if count < MOST_KEYS => {
            splice::insert(keys, count, i, key);
            splice::insert(pointers, count, i, pointer);
            Some(count + 1)
        }
        Err(_) => None,
    }
}

// One removal more from such a draft.
fn delete_in(
    keys: &mut [u32; MOST_KEYS],
    pointers: &mut [u32; MOST_KEYS],
    outline: Outline,
    key: u32,
) -> usize
    requires { Held (node_from outline keys.old pointers.old) }
    ensures { Redone (draft_from (counted_to outline (Some result)) keys.new pointers.new)
        (redo (draft_of (draft_from outline keys.old pointers.old)) (remove key)) }
{
    let count = outline.count;
    match find_in_replay(keys, count, key) {
        Ok(i) => {
            splice::remove(keys, count, i);
            splice::remove(pointers, count, i);
            count - 1
        }
        Err(_) => count,
    }
}

// One put more. Most keys are behind all others, as in a node written whole, or are the first.
pub fn redo_put(
    keys: &mut [u32; MOST_KEYS],
    pointers: &mut [u32; MOST_KEYS],
    outline: Outline,
    key: u32,
    pointer: u32,
) -> Outline
    requires { HeldIn outline keys.old pointers.old }
    ensures { RedoneIn result keys.new pointers.new
        (redo (draft_in outline keys.old pointers.old) (put key pointer)) }
{
    let Outline { first, count, .. } = outline;
    if is_behind(keys, first, count, key) {
        keys[first + count] = key;
        pointers[first + count] = pointer;
        return Outline {
            count: count + 1,
            ..outline
        };
    }
    if is_first(keys, first, count, key) {
        pointers[first] = pointer;
        return outline;
    }
    settle(keys, pointers, first, count);
    counted(outline, put_in(keys, pointers, outline, key, pointer))
}

// One removal more. Leaves are emptied in key order.
pub fn redo_delete(
    keys: &mut [u32; MOST_KEYS],
    pointers: &mut [u32; MOST_KEYS],
    outline: Outline,
    key: u32,
) -> Outline
    requires { HeldIn outline keys.old pointers.old }
    ensures { RedoneIn result keys.new pointers.new
        (redo (draft_in outline keys.old pointers.old) (remove key)) }
{
    let Outline { first, count, .. } = outline;
    if is_first(keys, first, count, key) {
        return Outline {
            first: first + 1,
            count: count - 1,
            ..outline
        };
    }
    settle(keys, pointers, first, count);
    counted(outline, Some(delete_in(keys, pointers, outline, key)))
}

// One link more, whatever the keys and pointers: the first makes the node, one of the other shape breaks it.
pub fn redo_link(outline: Outline, shape: Shape, to: u32) -> Outline
    ensures { Links outline shape to result }
{
    match outline.state {
        DraftState::Unlinked => Outline {
            state: DraftState::Made,
            shape,
            link: to,
            ..outline
        },
        DraftState::Made if outline.shape == shape => Outline {
            link: to,
            ..outline
        },
        DraftState::Made => Outline {
            state: DraftState::Broken,
            ..outline
        },
        DraftState::Broken => outline,
    }
}

// One change more of a draft whose keys stand at the front.
fn redo_change(
    keys: &mut [u32; MOST_KEYS],
    pointers: &mut [u32; MOST_KEYS],
    outline: Outline,
    change: ChangeValue,
) -> Outline
    requires { Held (node_from outline keys.old pointers.old) }
    ensures { Redone (draft_from result keys.new pointers.new)
        (redo (draft_of (draft_from outline keys.old pointers.old)) (change_of change)) }
{
    match change {
        ChangeValue::Put { key, pointer } => counted(
            outline,
            put_in(keys, pointers, outline, key, pointer),
        ),
        ChangeValue::Delete { key } => counted(
            outline,
            Some(delete_in(keys, pointers, outline, key)),
        ),
        ChangeValue::Link { shape, link } => redo_link(outline, shape, link),
    }
}

// One change more of a draft by value.
pub fn redo(d: DraftValue, change: ChangeValue) -> DraftValue
    requires { Held d.node }
    ensures { Redone result (redo (draft_of d) (change_of change)) }
{
    let mut keys = d.node.keys;
    let mut pointers = d.node.pointers;
    let outline = redo_change(&mut keys, &mut pointers, outline_of(d), change);
    draft_from(outline, keys, pointers)
}
