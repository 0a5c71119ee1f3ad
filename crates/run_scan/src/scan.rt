// Scan (document 01: sweep).
ghost use Rattle.std.specs.Prelude.{◌≡◌, ◌≤◌, length};
ghost use Rattle.layout.specs.Layout.{node_limit, most_blocks, most_pairs};
ghost use Rattle.account.specs.Range.{Ranged};
ghost use Rattle.flash_allocate.specs.Flash.{Same};
ghost use Rattle.run_scan.specs.Scan.{Scans};

use super::Pairs;
use super::gather::{Gathered, gather};
use account::Tariff;
use flash_allocate::flash::Flash;
use layout::{MOST_NODES, MOST_PAIRS};
use run_path::descend::descend;
use run_path::reads::read_nodes;

// A scan that was served: what its reads were charged, and the pairs found.
#[derive(Drop)]
pub struct Scanned {
    pub charge: u64,
    pub pairs: Pairs,
}

// The first `most` pairs from low to high: the walk down to the leaf of the low key, then leaf after leaf by links, which are read behind it. The
// ids of these leaves are laid into `ids`, which is lent, since a stack is small.
pub fn scan(
    flash: &mut Flash,
    ids: &mut [u32; MOST_NODES],
    tariff: Tariff,
    low: u32,
    high: u32,
    most: u32,
) -> Scanned
    requires ranged { Ranged tariff }
    requires limited { flash.old.state.nodes ≤ node_limit most_blocks }
    requires some { 1 ≤ most }
    requires few { most ≤ most_pairs }
    requires room { length ids.old ≡ node_limit most_blocks }
    ensures buffers { Same flash.old flash.new }
    ensures served { Scans flash.old flash.new ids.new result tariff low high most }
{
    if high < low {
        let pairs = Pairs {
            keys: [0; MOST_PAIRS],
            values: [0; MOST_PAIRS],
            count: 0,
        };
        return Scanned { charge: 0, pairs };
    }
    let down = descend(flash, tariff, low);
    let Gathered { pairs, visited } = gather(
        flash.pool(),
        flash.table(),
        flash.state,
        down.id,
        low,
        high,
        most as usize,
        ids,
    );
    let along = read_nodes(flash, tariff, &ids[..visited]);
    Scanned {
        charge: down.charge + along,
        pairs,
    }
}
