// The node requests: a read, an edit, a rewrite. Of a node that is not there nothing is served and nothing charged.
ghost use Rattle.account.specs.Range.{Ranged};
ghost use Rattle.node.specs.Value.{node_of, Sized, Held};
ghost use Rattle.node.specs.Drafts.{change_of};
ghost use Rattle.store.specs.Serve as work;
ghost use Rattle.flash_allocate.specs.Flash.{world_of, Same};
ghost use Rattle.run_serve.specs.Step.{InFlash};
ghost use Rattle.run_serve.specs.Serve.{ServedAs, ServedHolding};

use super::content::{content_of, edited};
use super::settle::settle;
use super::write::{write_edit, write_whole};
use account::{Request, Tariff};
use flash_allocate::flash::Flash;
use node::{ChangeValue, NodeValue};

// A read of a node. The answer of this and the other requests is the charge.
pub fn serve_read(flash: &mut Flash, tariff: Tariff, id: usize) -> u64
    requires { Ranged tariff }
    ensures buffers { Same flash.old flash.new }
    ensures served { InFlash ServedAs flash.new result tariff id work.read (world_of flash.old) }
{
    if id >= flash.state.nodes {
        return 0;
    }
    settle(flash, tariff, id, None, Request::Read).charge
}

// An edit of a node whose content is in hand: nothing is read for it.
pub fn serve_edit_holding(
    flash: &mut Flash,
    tariff: Tariff,
    id: usize,
    old: NodeValue,
    change: ChangeValue,
) -> u64
    requires ranged { Ranged tariff }
    requires held { Held old }
    ensures buffers { Same flash.old flash.new }
    ensures served { InFlash ServedHolding flash.new result
        tariff id (node_of old) (work.edit (change_of change)) (world_of flash.old) }
{
    if id >= flash.state.nodes {
        return 0;
    }
    let new = edited(old, change);
    let served = settle(flash, tariff, id, Some(&old), Request::Edit);
    write_edit(flash, id, served.account.mode, change, new);
    served.charge
}

// An edit of a node: its content is read before the first page is written.
pub fn serve_edit(flash: &mut Flash, tariff: Tariff, id: usize, change: ChangeValue) -> u64
    requires { Ranged tariff }
    ensures buffers { Same flash.old flash.new }
    ensures served { InFlash ServedAs flash.new result tariff id (work.edit (change_of change)) (world_of flash.old) }
{
    if id >= flash.state.nodes {
        return 0;
    }
    let old = content_of(flash.pool(), flash.table(), flash.state, id);
    serve_edit_holding(flash, tariff, id, old, change)
}

// A rewrite of a node.
pub fn serve_rewrite(flash: &mut Flash, tariff: Tariff, id: usize, v: NodeValue) -> u64
    requires ranged { Ranged tariff }
    requires sized { Sized v }
    ensures buffers { Same flash.old flash.new }
    ensures served { InFlash ServedAs flash.new result tariff id (work.rewrite (node_of v)) (world_of flash.old) }
{
    if id >= flash.state.nodes {
        return 0;
    }
    let served = settle(flash, tariff, id, None, Request::Rewrite);
    write_whole(flash, id, served.account.mode, v);
    served.charge
}
