// One turn of a queue.
ghost use Rattle.std.specs.Prelude.{◌<◌, length, ◌≡◌};
ghost use Rattle.layout.specs.Layout.{node_limit, most_blocks, panels};
ghost use Rattle.flash_allocate.specs.Flash.{Same};
ghost use Rattle.run.specs.Stretch.{Starts, RunsOn};
ghost use Rattle.desk_run.specs.Turn.{turn_at, place_after};

use super::Turned;
use command::Command;
use command::batch::command_at;
use flash_allocate::flash::Flash;
use layout::{MOST_NODES, PANELS};
use run::Ran;
use run::run::run_step;

// A turn of a panel: the command at a place of its queue, if it still has any, behind a command 05 that names the panel.
pub fn run_turn(
    flash: &mut Flash,
    queue: &[u8],
    answers: &mut [u8],
    ids: &mut [u32; MOST_NODES],
    charges: &mut [u64; PANELS],
    here: Ran,
    panel: usize,
    at: usize,
) -> Turned
    requires starts { Starts flash.old (length answers.old) charges.old here (turn_at panel queue.now at) }
    requires panel { panel < panels }
    requires room { length ids.old ≡ node_limit most_blocks }
    ensures buffers { Same flash.old flash.new }
    ensures served { RunsOn flash.old flash.new answers.old answers.new
        charges.old charges.new here result.there (turn_at panel queue.now at) }
    ensures next { result.next ≡ place_after queue.now at }
    ensures room { length ids.new ≡ node_limit most_blocks }
{
    let Some((command, next)) = command_at(queue, at) else {
        return Turned {
            there: here,
            next: at,
        };
    };
    let name = Command::Panel { panel };
    let named = run_step(flash, answers, ids, charges, here, name);
    let there = run_step(flash, answers, ids, charges, named, command);
    Turned { there, next }
}
