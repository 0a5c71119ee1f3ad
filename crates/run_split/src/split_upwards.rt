// A pair put into the leaf of a path: "the work goes in the order given, leaf upwards".
ghost use Rattle.std.specs.Prelude.{◌≤◌, length};
ghost use Rattle.layout.specs.Layout.{node_limit, most_blocks};
ghost use Rattle.account.specs.Range.{Ranged};
ghost use Rattle.flash_allocate.specs.Flash.{world_of, Same};
ghost use Rattle.run_serve.specs.Step.{InFlash};
ghost use Rattle.run_split.specs.Growing.{Grows};
ghost use Rattle.run_split.specs.SplitUpwards.{SplitUpwardsAs};

use super::Pending;
use super::absorb::absorb;
use account::Tariff;
use flash_allocate::flash::Flash;

// The leaf of a path takes the pair, then each node of the path what the one below it left, and the root last.
pub fn split_upwards(flash: &mut Flash, tariff: Tariff, ids: &[u32], key: u32, value: u32) -> u64
    requires grows { Grows flash.old }
    requires ranged { Ranged tariff }
    requires some { 1 ≤ length ids.now }
    requires few { length ids.now ≤ node_limit most_blocks }
    ensures buffers { Same flash.old flash.new }
    ensures served { InFlash SplitUpwardsAs flash.new result tariff key value ids.now (world_of flash.old) }
{
    let mut charge = 0;
    let mut pending = Some(Pending::Pair { key, value });
    for id in ids[1..].iter().rev() {
        let taken = absorb(flash, tariff, false, *id as usize, key, pending);
        charge += taken.charge;
        pending = taken.pending;
    }
    charge + absorb(flash, tariff, true, 0, key, pending).charge
}
