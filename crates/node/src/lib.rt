// A tree node by value: the search in it, and its edits.
#![tactic(auto)]

ghost use Rattle.std.specs.Prelude.{[]};
ghost use Rattle.node.specs.Node.{node};
ghost use Rattle.node.specs.Value.{Becomes};

use layout::MOST_KEYS;

pub mod edit;
pub mod fit;
pub mod search;
pub mod splice;

// Document 01's types 3 and 4: a leaf holds the map's pairs and a link to the next leaf, a branch holds keys with child
// pointers and a last pointer.
#[derive(Clone, Copy, Debug, PartialEq, Eq)]
pub enum Shape {
    Leaf,
    Branch,
}

// A node: the first `count` keys, ascending, with the pointers beside them, and the link.
#[derive(Clone, Copy)]
pub struct NodeValue {
    pub shape: Shape,
    pub count: usize,
    pub keys: [u32; MOST_KEYS],
    pub pointers: [u32; MOST_KEYS],
    pub link: u32,
}

// How far the replay of a node has come: no link yet; a node; or no node, since its entries break a rule.
#[derive(Clone, Copy, Debug, PartialEq, Eq)]
pub enum DraftState {
    Unlinked,
    Made,
    Broken,
}

// A node being replayed.
#[derive(Drop)]
pub struct DraftValue {
    pub state: DraftState,
    pub node: NodeValue,
}

// One change of a node: what one log entry says.
#[derive(Clone, Copy, Debug, PartialEq, Eq)]
pub enum ChangeValue {
    Put { key: u32, pointer: u32 },
    Delete { key: u32 },
    Link { shape: Shape, link: u32 },
}

// A node with no key.
pub fn empty_node(shape: Shape, to: u32) -> NodeValue
    ensures { Becomes result (node shape [] to) }
{
    NodeValue {
        shape,
        count: 0,
        keys: [0; MOST_KEYS],
        pointers: [0; MOST_KEYS],
        link: to,
    }
}
