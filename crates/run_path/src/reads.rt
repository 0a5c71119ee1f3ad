// Nodes read, one after another.
ghost use Rattle.std.specs.Prelude.{◌≤◌, length};
ghost use Rattle.layout.specs.Layout.{node_limit, most_blocks};
ghost use Rattle.account.specs.Range.{Ranged};
ghost use Rattle.flash_allocate.specs.Flash.{world_of, Same};
ghost use Rattle.run_serve.specs.Step.{InFlash};
ghost use Rattle.run_path.specs.Reads.{ReadAs};

use account::Tariff;
use flash_allocate::flash::Flash;
use run_serve::request::serve_read;

// Reads of these nodes, in order; the answer is what they are charged.
pub fn read_nodes(flash: &mut Flash, tariff: Tariff, ids: &[u32]) -> u64
    requires ranged { Ranged tariff }
    requires few { length ids.now ≤ node_limit most_blocks }
    ensures buffers { Same flash.old flash.new }
    ensures served { InFlash ReadAs flash.new result tariff (length ids.now) ids.now (world_of flash.old) }
{
    let mut charge = 0;
    for id in ids {
        charge += serve_read(flash, tariff, *id as usize);
    }
    charge
}
