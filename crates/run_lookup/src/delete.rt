// Delete (document 01: strip).
ghost use Rattle.std.specs.Prelude.{◌≤◌};
ghost use Rattle.layout.specs.Layout.{node_limit, most_blocks};
ghost use Rattle.account.specs.Range.{Ranged};
ghost use Rattle.flash_allocate.specs.Flash.{world_of, Same};
ghost use Rattle.run_serve.specs.Step.{AnsweredIn};
ghost use Rattle.run_lookup.specs.Delete.{DeletedAs};

use account::Tariff;
use command::Answer;
use flash_allocate::flash::Flash;
use node::ChangeValue;
use node::search::value_at;
use run_path::descend::descend;
use run_serve::charged::Answered;
use run_serve::request::serve_edit_holding;

// The walk down to the leaf, then one edit of it, with its content in hand, where the key is there.
pub fn delete(flash: &mut Flash, tariff: Tariff, key: u32) -> Answered
    requires ranged { Ranged tariff }
    requires limited { flash.old.state.nodes ≤ node_limit most_blocks }
    ensures buffers { Same flash.old flash.new }
    ensures served { AnsweredIn DeletedAs flash.new result tariff key (world_of flash.old) }
{
    let down = descend(flash, tariff, key);
    match value_at(down.leaf, key) {
        Some(old) => {
            let deletion = ChangeValue::Delete { key };
            let edit = serve_edit_holding(flash, tariff, down.id, down.leaf, deletion);
            Answered {
                charge: down.charge + edit,
                answer: Answer::Deleted(old),
            }
        }
        None => Answered {
            charge: down.charge,
            answer: Answer::Absent,
        },
    }
}
