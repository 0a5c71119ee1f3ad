// Rounds over the queues: in each, a turn of every queue in panel order.
ghost use Rattle.std.specs.Prelude.{true, ◌≡◌, length};
ghost use Rattle.layout.specs.Layout.{node_limit, most_blocks, panels};
ghost use Rattle.account.specs.Range.{Ranged};
ghost use Rattle.book.specs.InTurn.{no_charges};
ghost use Rattle.flash_allocate.specs.Flash.{Same};
ghost use Rattle.run_split.specs.Growing.{Grows};
ghost use Rattle.run.specs.Run.{Runs};
ghost use Rattle.run.specs.Stretch.{Starts, RunsOn};
ghost use Rattle.desk_order.specs.Turns.{heads};
ghost use Rattle.desk_queues.specs.Queues.{fills};
ghost use Rattle.desk_queues.specs.Joined.{interleaved, joined};
ghost use Rattle.desk_run.specs.Places.{rests, Placed, RoundLeft};
ghost use Rattle.desk_run.specs.Served.{lists_in, Serves};

use super::turn::run_turn;
use account::Tariff;
use flash_allocate::flash::Flash;
use layout::{LENGTH_BYTES, MOST_NODES, PANELS};
use run::{Ran, Session};
use wire::number::read32;

// A round: one command of each queue that still has any.
fn run_round(
    flash: &mut Flash,
    lengths: &[u8],
    queues: &[u8],
    answers: &mut [u8],
    ids: &mut [u32; MOST_NODES],
    charges: &mut [u64; PANELS],
    places: &mut [usize; PANELS],
    here: Ran,
) -> Ran
    requires starts { Starts flash.old (length answers.old) charges.old here
        (interleaved (heads 0 (rests lengths.now queues.now places.old))) }
    requires fill { fills lengths.now queues.now ≡ true }
    requires placed { Placed lengths.now queues.now places.old }
    requires room { length ids.old ≡ node_limit most_blocks }
    ensures buffers { Same flash.old flash.new }
    ensures served { RunsOn flash.old flash.new answers.old answers.new charges.old charges.new here result
        (interleaved (heads 0 (rests lengths.now queues.now places.old))) }
    ensures places { RoundLeft lengths.now queues.now places.old places.new }
    ensures room { length ids.new ≡ node_limit most_blocks }
{
    let mut there = here;
    let mut start: usize = 0;
    for panel in 0..lengths.len() / LENGTH_BYTES {
        let end = start + read32(lengths, LENGTH_BYTES * panel) as usize;
        let queue = &queues[start..end];
        let turn = run_turn(
            flash,
            queue,
            answers,
            ids,
            charges,
            there,
            panel,
            places[panel],
        );
        there = turn.there;
        places[panel] = turn.next;
        start = end;
    }
    there
}

// Round and round: all commands of valid queues, of which the longest has as many commands as there are rounds.
pub fn run_rounds(
    flash: &mut Flash,
    lengths: &[u8],
    queues: &[u8],
    answers: &mut [u8],
    charges: &mut [u64; PANELS],
    tariff: Tariff,
    rounds: usize,
) -> Ran
    requires grows { Grows flash.old }
    requires ranged { Ranged tariff }
    requires serves { Serves lengths.now queues.now rounds (length answers.old) }
    requires unpaid { charges.old ≡ no_charges }
    ensures buffers { Same flash.old flash.new }
    ensures served { Runs flash.old flash.new answers.old answers.new
        charges.new result tariff (joined (lists_in lengths.now queues.now)) }
{
    let mut ids = [0u32; MOST_NODES];
    let mut places = [0usize; PANELS];
    let mut here = Ran {
        session: Session { panel: 0, tariff },
        at: 0,
    };
    for _round in 0..rounds {
        here = run_round(
            flash,
            lengths,
            queues,
            answers,
            &mut ids,
            charges,
            &mut places,
            here,
        );
    }
    here
}
