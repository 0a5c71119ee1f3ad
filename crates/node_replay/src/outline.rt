// A draft taken apart: its keys and pointers lie in arrays of their own, to be changed in place, and its outline is
// the rest. They stand from `first` on: a removal of the first key, as of leaves that are emptied in key order, moves
// none. No struct holds all three: the outline goes by value, so that it stays in registers.
ghost use Rattle.std.specs.Prelude.{◌≡◌};
ghost use Rattle.node_replay.specs.Outline.{empty_outline, outline_of, counted_to, draft_from};

use layout::MOST_KEYS;
use node::{DraftState, DraftValue, NodeValue, Shape};

// A draft but for its keys and pointers.
#[derive(Clone, Copy, Debug, PartialEq, Eq)]
pub struct Outline {
    pub state: DraftState,
    pub shape: Shape,
    pub first: usize,
    pub count: usize,
    pub link: u32,
}

// The outline of a node of which no entry was taken yet.
pub fn empty_outline() -> Outline
    ensures { result ≡ empty_outline }
{
    Outline {
        state: DraftState::Unlinked,
        shape: Shape::Leaf,
        first: 0,
        count: 0,
        link: 0,
    }
}

// The outline of a draft.
pub fn outline_of(d: DraftValue) -> Outline
    ensures { result ≡ outline_of d }
{
    Outline {
        state: d.state,
        shape: d.node.shape,
        first: 0,
        count: d.node.count,
        link: d.node.link,
    }
}

// The outline of a draft whose keys stand at the front, with so many of them; it is broken where there would be more
// than fit.
#[tactic(auto, unfolding(crate::specs::Outline::counted_to))]
pub fn counted(outline: Outline, n: Option<usize>) -> Outline
    ensures { result ≡ counted_to outline n }
{
    match n {
        Some(count) if count <= MOST_KEYS => Outline {
            first: 0,
            count,
            ..outline
        },
        _ => Outline {
            state: DraftState::Broken,
            first: 0,
            ..outline
        },
    }
}

// The draft put together, its keys and pointers at the front.
pub fn draft_from(
    outline: Outline,
    keys: [u32; MOST_KEYS],
    pointers: [u32; MOST_KEYS],
) -> DraftValue
    ensures { result ≡ draft_from outline keys pointers }
{
    let Outline {
        state,
        shape,
        count,
        link,
        ..
    } = outline;
    let node = NodeValue {
        shape,
        count,
        keys,
        pointers,
        link,
    };
    DraftValue { state, node }
}
