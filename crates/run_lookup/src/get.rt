// Get (document 01: look up).
ghost use Rattle.std.specs.Prelude.{◌≤◌};
ghost use Rattle.layout.specs.Layout.{node_limit, most_blocks};
ghost use Rattle.account.specs.Range.{Ranged};
ghost use Rattle.flash_allocate.specs.Flash.{world_of, Same};
ghost use Rattle.run_serve.specs.Step.{AnsweredIn};
ghost use Rattle.run_lookup.specs.Get.{GotAs};

use super::value::get_answer;
use account::Tariff;
use flash_allocate::flash::Flash;
use node::search::value_at;
use run_path::descend::descend;
use run_serve::charged::Answered;

// The value at a key, in the leaf that the walk down ends at.
pub fn get(flash: &mut Flash, tariff: Tariff, key: u32) -> Answered
    requires ranged { Ranged tariff }
    requires limited { flash.old.state.nodes ≤ node_limit most_blocks }
    ensures buffers { Same flash.old flash.new }
    ensures served { AnsweredIn GotAs flash.new result tariff key (world_of flash.old) }
{
    let down = descend(flash, tariff, key);
    Answered {
        charge: down.charge,
        answer: get_answer(value_at(down.leaf, key)),
    }
}
