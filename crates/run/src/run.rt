// A command of a batch, whichever it is, and all of them.
ghost use Rattle.std.specs.Prelude.{◌+◌, ◌≤◌, length, ◌≡◌};
ghost use Rattle.layout.specs.Layout.{node_limit, most_blocks};
ghost use Rattle.account.specs.Range.{Ranged};
ghost use Rattle.flash_allocate.specs.Flash.{Same};
ghost use Rattle.run_split.specs.Growing.{Grows};
ghost use Rattle.command.specs.Command.{InRange, room_for};
ghost use Rattle.book.specs.InTurn.{no_charges};
ghost use Rattle.run.specs.Run.{Commands, Runs};
ghost use Rattle.run.specs.Session.{session_of};
ghost use Rattle.run.specs.Stretch.{alone, Starts, RunsOn};
ghost use Rattle.run.specs.Valid.{commands_in, Fits};

use super::charges::{add, session_after};
use super::replies::{reply, reply_ceiling, reply_pairs};
use super::{Progress, Ran, Session};
use account::Tariff;
use command::Command;
use command::batch::command_at;
use flash_allocate::flash::Flash;
use layout::{LAST_KEY, MOST_NODES, PANELS};
use run_lookup::delete::delete;
use run_lookup::get::get;
use run_put::put::put;
use run_scan::scan::scan;

// Runs a command and lays its reply at a place. A put has the ids of its path in the lent array, a scan those of its leaves. A
// ceiling is a scan up to the greatest key that ends at the first pair.
pub fn run_command(
    flash: &mut Flash,
    answers: &mut [u8],
    ids: &mut [u32; MOST_NODES],
    session: Session,
    command: Command,
    at: usize,
) -> Progress
    requires grows { Grows flash.old }
    requires ranged { Ranged session.tariff }
    requires range { InRange command }
    requires answers_room { at + room_for command ≤ length answers.old }
    requires room { length ids.old ≡ node_limit most_blocks }
    ensures buffers { Same flash.old flash.new }
    ensures served { Commands flash.old flash.new answers.old answers.new result (session_of session) command at }
    ensures room { length ids.new ≡ node_limit most_blocks }
{
    let tariff = session.tariff;
    match command {
        Command::Get { key } => reply(answers, at, get(flash, tariff, key)),
        Command::Put { key, value } => reply(answers, at, put(flash, ids, tariff, key, value)),
        Command::Delete { key } => reply(answers, at, delete(flash, tariff, key)),
        Command::Scan { low, high, most } => {
            reply_pairs(answers, at, scan(flash, ids, tariff, low, high, most))
        }
        Command::Panel { .. } => Progress { charge: 0, at },
        Command::Ceiling { key } => {
            reply_ceiling(answers, at, scan(flash, ids, tariff, key, LAST_KEY, 1))
        }
    }
}

// Runs a command where a batch stands: its reply is laid behind the last, its charge added to the current panel.
pub fn run_step(
    flash: &mut Flash,
    answers: &mut [u8],
    ids: &mut [u32; MOST_NODES],
    charges: &mut [u64; PANELS],
    here: Ran,
    command: Command,
) -> Ran
    requires starts { Starts flash.old (length answers.old) charges.old here (alone command) }
    requires range { InRange command }
    requires room { length ids.old ≡ node_limit most_blocks }
    ensures buffers { Same flash.old flash.new }
    ensures served { RunsOn flash.old flash.new answers.old answers.new
        charges.old charges.new here result (alone command) }
    ensures room { length ids.new ≡ node_limit most_blocks }
{
    let done = run_command(flash, answers, ids, here.session, command, here.at);
    add(charges, here.session.panel, done.charge);
    Ran {
        session: session_after(command, here.session),
        at: done.at,
    }
}

// Runs the commands of a valid batch in order, from panel 0 on.
pub fn run_commands(
    flash: &mut Flash,
    batch: &[u8],
    answers: &mut [u8],
    charges: &mut [u64; PANELS],
    tariff: Tariff,
) -> Ran
    requires grows { Grows flash.old }
    requires ranged { Ranged tariff }
    requires fits { Fits batch.now (length answers.old) }
    requires unpaid { charges.old ≡ no_charges }
    ensures buffers { Same flash.old flash.new }
    ensures served { Runs flash.old flash.new answers.old answers.new
        charges.new result tariff (commands_in batch.now) }
{
    let mut ids = [0u32; MOST_NODES];
    let mut here = Ran {
        session: Session { panel: 0, tariff },
        at: 0,
    };
    let mut at: usize = 0;
    while let Some((command, next)) = command_at(batch, at) {
        here = run_step(flash, answers, &mut ids, charges, here, command);
        at = next;
    }
    here
}
