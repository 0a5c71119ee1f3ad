// The edits of a node by value: a pair added, its pointer replaced, the link set.
ghost use Rattle.std.specs.Prelude.{◌≤◌, ◌<◌, length, set};
ghost use Rattle.layout.specs.Layout.{most_keys};
ghost use Rattle.pairs.specs.Pairs.{insert};
ghost use Rattle.node.specs.Node.{node};
ghost use Rattle.node.specs.Change.{change, put, link};
ghost use Rattle.node.specs.Repoint.{repoint};
ghost use Rattle.node.specs.Splice.{insert_at};
ghost use Rattle.node.specs.Search.{key_at};
ghost use Rattle.node.specs.Value.{pairs_in, node_of, Sized, Held, Stands, Becomes};

use crate::{NodeValue, search, splice};

// The node with a pair more, at a place.
fn added(mut v: NodeValue, at: usize, key: u32, pointer: u32) -> NodeValue
    requires { (Sized v) × (at ≤ v.count) × (v.count < most_keys) }
    ensures { Stands result (node v.shape (insert_at at (key, pointer) (pairs_in v)) v.link) }
{
    splice::insert(&mut v.keys, v.count, at, key);
    splice::insert(&mut v.pointers, v.count, at, pointer);
    v.count += 1;
    v
}

// The node with another pointer at a place.
fn repointed(mut v: NodeValue, at: usize, pointer: u32) -> NodeValue
    requires { (Sized v) × (at < v.count) }
    ensures { Stands result (node v.shape (set (pairs_in v) at (key_at (pairs_in v) at, pointer)) v.link) }
{
    v.pointers[at] = pointer;
    v
}

// The node with another link.
fn relinked(v: NodeValue, to: u32) -> NodeValue
    requires { Held v }
    ensures { Becomes result (change (link v.shape to) (node_of v)) }
{
    NodeValue { link: to, ..v }
}

// The node with a key's pointer added or replaced, where it has room.
pub fn put(v: NodeValue, key: u32, pointer: u32) -> NodeValue
    requires { (Held v) × (length (insert key pointer (pairs_in v)) ≤ most_keys) }
    ensures { Becomes result (change (put key pointer) (node_of v)) }
{
    match search::find(v, key) {
        Ok(i) => repointed(v, i, pointer),
        Err(i) => added(v, i, key, pointer),
    }
}

// The node with another pointer at a place, behind all keys the link.
pub fn pointed(v: NodeValue, at: usize, pointer: u32) -> NodeValue
    requires { Held v }
    ensures { Becomes result (change (repoint at pointer (node_of v)) (node_of v)) }
{
    if at < v.count {
        repointed(v, at, pointer)
    } else {
        relinked(v, pointer)
    }
}
