// The walk down from the root to the leaf of a key: each node is read, as a request, when it is come to. Nothing is kept but the node in hand.
ghost use Rattle.std.specs.Prelude.{◌≤◌};
ghost use Rattle.layout.specs.Layout.{node_limit, most_blocks};
ghost use Rattle.account.specs.Range.{Ranged};
ghost use Rattle.flash_allocate.specs.Flash.{Same};
ghost use Rattle.run_path.specs.Descend.{Descends};

use account::Tariff;
use flash_allocate::flash::Flash;
use flash_read::lent::read_node;
use node::search::child;
use node::{NodeValue, Shape};
use run_serve::request::serve_read;

// A walk at its end: what the reads of its nodes were charged, and the last of them, with its id, as it was before its read.
#[derive(Drop)]
pub struct Descended {
    pub charge: u64,
    pub id: usize,
    pub leaf: NodeValue,
}

// No more nodes are read than there are: no path of a sound tree is longer.
pub fn descend(flash: &mut Flash, tariff: Tariff, key: u32) -> Descended
    requires ranged { Ranged tariff }
    requires limited { flash.old.state.nodes ≤ node_limit most_blocks }
    ensures buffers { Same flash.old flash.new }
    ensures served { Descends flash.old flash.new result tariff key }
{
    let nodes = flash.state.nodes;
    let mut id = 0;
    let mut leaf = read_node(flash, id);
    let mut charge = serve_read(flash, tariff, id);
    for _reads in 1..nodes {
        if leaf.shape == Shape::Leaf {
            break;
        }
        id = child(leaf, key) as usize;
        leaf = read_node(flash, id);
        charge += serve_read(flash, tariff, id);
    }
    Descended { charge, id, leaf }
}
