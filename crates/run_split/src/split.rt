// A full node with a pair more, split.
ghost use Rattle.std.specs.Prelude.{◌<◌, [], ◌∷◌};
ghost use Rattle.account.specs.Range.{Ranged};
ghost use Rattle.node.specs.declared.Shape.TheVariants.{Branch};
ghost use Rattle.node.specs.Node.{node};
ghost use Rattle.node.specs.Change.{put, change};
ghost use Rattle.node.specs.Value.{node_of, Sized, Becomes};
ghost use Rattle.node_split.specs.Split.{Splits};
ghost use Rattle.flash_allocate.specs.Flash.{world_of, Steps, Same};
ghost use Rattle.run_split.specs.Growing.{Grows, Grew};
ghost use Rattle.run_split.specs.Absorbing.{Absorbs};
ghost use Rattle.run_split.specs.Split as def;

use super::{Absorbed, Pending};
use account::Tariff;
use flash_allocate::flash::Flash;
use flash_write::group::create;
use layout::node_limit;
use node::edit::put;
use node::{NodeValue, Shape, empty_node};
use node_split::{lower, middle, upper};
use run_serve::request::serve_rewrite;

// A node more, where the limit leaves an id for it.
fn grow(flash: &mut Flash, v: NodeValue)
    requires grows { Grows flash.old }
    requires sized { Sized v }
    ensures { Steps Grew flash.old flash.new (def.grow (node_of v) (world_of flash.old)) }
{
    if flash.state.nodes < node_limit(flash.state.blocks) {
        create(flash, v);
    }
}

// A root above two nodes.
fn root_above(middle: u32, left: u32, right: u32) -> NodeValue
    ensures { Becomes result (node Branch ((middle, left) ∷ []) right) }
{
    put(empty_node(Shape::Branch, right), middle, left)
}

// The lower half stays in the node, the upper goes to the next id.
fn split_below(
    flash: &mut Flash,
    tariff: Tariff,
    id: usize,
    v: NodeValue,
    at: usize,
    key: u32,
    pointer: u32,
) -> Absorbed
    requires grows { Grows flash.old }
    requires ranged { Ranged tariff }
    requires known { id < flash.old.state.nodes }
    requires splits { Splits v at key }
    ensures buffers { Same flash.old flash.new }
    ensures absorbed { Absorbs flash.old flash.new result
        (def.split_below tariff id (change (put key pointer) (node_of v)) (world_of flash.old)) }
{
    let next = flash.state.nodes as u32;
    let low = lower(v, at, key, pointer, next);
    let high = upper(v, at, key, pointer);
    let middle = middle(v, at, key, pointer);
    let charge = serve_rewrite(flash, tariff, id, low);
    grow(flash, high);
    let pending = Pending::Halves {
        middle,
        left: id as u32,
        right: next,
    };
    Absorbed {
        charge,
        pending: Some(pending),
    }
}

// "A splitting root makes two nodes, lower id lower half, then is rewritten above them."
fn split_root(
    flash: &mut Flash,
    tariff: Tariff,
    v: NodeValue,
    at: usize,
    key: u32,
    pointer: u32,
) -> Absorbed
    requires grows { Grows flash.old }
    requires ranged { Ranged tariff }
    requires splits { Splits v at key }
    ensures buffers { Same flash.old flash.new }
    ensures absorbed { Absorbs flash.old flash.new result
        (def.split_root tariff (change (put key pointer) (node_of v)) (world_of flash.old)) }
{
    let left = flash.state.nodes as u32;
    let right = left + 1;
    let low = lower(v, at, key, pointer, right);
    let high = upper(v, at, key, pointer);
    let middle = middle(v, at, key, pointer);
    grow(flash, low);
    grow(flash, high);
    let charge = serve_rewrite(flash, tariff, 0, root_above(middle, left, right));
    Absorbed {
        charge,
        pending: None,
    }
}

// The root, or a node below it, split.
pub fn split(
    flash: &mut Flash,
    tariff: Tariff,
    root: bool,
    id: usize,
    v: NodeValue,
    at: usize,
    key: u32,
    pointer: u32,
) -> Absorbed
    requires grows { Grows flash.old }
    requires ranged { Ranged tariff }
    requires known { id < flash.old.state.nodes }
    requires splits { Splits v at key }
    ensures buffers { Same flash.old flash.new }
    ensures absorbed { Absorbs flash.old flash.new result
        (def.split tariff root id (change (put key pointer) (node_of v)) (world_of flash.old)) }
{
    if root {
        split_root(flash, tariff, v, at, key, pointer)
    } else {
        split_below(flash, tariff, id, v, at, key, pointer)
    }
}
