// A node takes what it has still to take: by edits where that fits, else by its split.
ghost use Rattle.std.specs.Prelude.{◌≡◌};
ghost use Rattle.account.specs.Range.{Ranged};
ghost use Rattle.node.specs.Drafts.{change_of};
ghost use Rattle.node.specs.Repoint.{repoint};
ghost use Rattle.node.specs.Value.{node_of, Held};
ghost use Rattle.flash_allocate.specs.Flash.{world_of, Same};
ghost use Rattle.run_split.specs.Growing.{Grows};
ghost use Rattle.run_split.specs.Absorbing.{Absorbs};
ghost use Rattle.run_split.specs.Absorb as def;

use super::split::split;
use super::{Absorbed, Pending};
use account::Tariff;
use flash_allocate::flash::Flash;
use flash_read::lent::read_node;
use node::edit::pointed;
use node::fit::fit;
use node::search::{child_place, key};
use node::{ChangeValue, NodeValue};
use run_serve::request::serve_edit;

// The edit that makes the pointer at a place name another node.
fn rename(v: NodeValue, at: usize, to: u32) -> ChangeValue
    requires { Held v }
    ensures { change_of result ≡ repoint at to (node_of v) }
{
    if at < v.count {
        ChangeValue::Put {
            key: key(v, at),
            pointer: to,
        }
    } else {
        ChangeValue::Link {
            shape: v.shape,
            link: to,
        }
    }
}

// A node takes one edit, and nothing is left to take.
fn absorb_edit(flash: &mut Flash, tariff: Tariff, id: usize, edit: ChangeValue) -> Absorbed
    requires grows { Grows flash.old }
    requires ranged { Ranged tariff }
    ensures buffers { Same flash.old flash.new }
    ensures absorbed { Absorbs flash.old flash.new result
        (def.absorb_edit tariff id (change_of edit) (world_of flash.old)) }
{
    Absorbed {
        charge: serve_edit(flash, tariff, id, edit),
        pending: None,
    }
}

// A node takes two edits, one after the other.
fn absorb_edits(
    flash: &mut Flash,
    tariff: Tariff,
    id: usize,
    first: ChangeValue,
    second: ChangeValue,
) -> Absorbed
    requires grows { Grows flash.old }
    requires ranged { Ranged tariff }
    ensures buffers { Same flash.old flash.new }
    ensures absorbed { Absorbs flash.old flash.new result
        (def.absorb_edits tariff id (change_of first) (change_of second) (world_of flash.old)) }
{
    let one = serve_edit(flash, tariff, id, first);
    let two = serve_edit(flash, tariff, id, second);
    Absorbed {
        charge: one + two,
        pending: None,
    }
}

// A leaf takes its pair.
fn absorb_pair(
    flash: &mut Flash,
    tariff: Tariff,
    root: bool,
    id: usize,
    key: u32,
    value: u32,
) -> Absorbed
    requires grows { Grows flash.old }
    requires ranged { Ranged tariff }
    ensures buffers { Same flash.old flash.new }
    ensures absorbed { Absorbs flash.old flash.new result
        (def.absorb_pair tariff root id key value (world_of flash.old)) }
{
    let v = read_node(flash, id);
    let edit = ChangeValue::Put {
        key,
        pointer: value,
    };
    match fit(v, key) {
        Ok(()) => absorb_edit(flash, tariff, id, edit),
        Err(at) => split(flash, tariff, root, id, v, at, key, value),
    }
}

// A branch on the path of a key takes the halves of its child: the middle key with the left as pointer, and the old pointer names the
// right. Where it splits, the pointer is renamed first.
fn absorb_halves(
    flash: &mut Flash,
    tariff: Tariff,
    root: bool,
    id: usize,
    wanted: u32,
    middle: u32,
    left: u32,
    right: u32,
) -> Absorbed
    requires grows { Grows flash.old }
    requires ranged { Ranged tariff }
    ensures buffers { Same flash.old flash.new }
    ensures absorbed { Absorbs flash.old flash.new result
        (def.absorb_halves tariff root id wanted middle left right (world_of flash.old)) }
{
    let v = read_node(flash, id);
    let child = child_place(v, wanted);
    let renamed = pointed(v, child, right);
    match fit(renamed, middle) {
        Ok(()) => {
            let first = ChangeValue::Put {
                key: middle,
                pointer: left,
            };
            let second = rename(v, child, right);
            absorb_edits(flash, tariff, id, first, second)
        }
        Err(at) => split(flash, tariff, root, id, renamed, at, middle, left),
    }
}

// A node on the path of a key takes what it has still to take.
pub fn absorb(
    flash: &mut Flash,
    tariff: Tariff,
    root: bool,
    id: usize,
    wanted: u32,
    pending: Option<Pending>,
) -> Absorbed
    requires grows { Grows flash.old }
    requires ranged { Ranged tariff }
    ensures buffers { Same flash.old flash.new }
    ensures absorbed { Absorbs flash.old flash.new result
        (def.absorb tariff wanted root id pending (world_of flash.old)) }
{
    match pending {
        None => Absorbed { charge: 0, pending },
        Some(Pending::Pair { key, value }) => { absorb_pair(flash, tariff, root, id, key, value) }
        Some(
            Pending::Halves {
                middle,
                left,
                right,
            },
        ) => absorb_halves(flash, tariff, root, id, wanted, middle, left, right),
    }
}
