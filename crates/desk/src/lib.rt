// Desk: the questions in their order, then the queues served round by round, then the checkpoint. It ends as a batch does.
#![tactic(auto)]

ghost use Rattle.std.specs.Prelude.{length, ◌≡◌};
ghost use Rattle.book.specs.InTurn.{no_charges};
ghost use Rattle.model.specs.Call.{desk_of};
ghost use Rattle.desk_queues.specs.Joined.{joined_bytes};
ghost use Rattle.desk_run.specs.Served.{lists_in};
ghost use Rattle.batch.specs.Left.{outcome_of, Worked, Leaves};
ghost use Rattle.desk.specs.Accepts.{DeskAccepts};

use batch::end::{close, refuse, unopened};
use desk_run::rounds::run_rounds;
use flash_allocate::flash::Flash;
use layout::{PANELS, TABLE_BYTES, pool_blocks};
use mount::answer::Mounted;
use mount::mount;
use questions::desk::refusal;
use refusal::Refusal;
use run::charges::clear;

// Questions 5 to 8, the rounds and the checkpoint, in a table of the pool's size.
// Not one function with batch's: a closure for the run lends four buffers, and its contract is longer than what they share.
fn work(
    pool: &mut [u8],
    table: &mut [u8],
    lengths: &[u8],
    queues: &[u8],
    answers: &mut [u8],
    charges: &mut [u64; PANELS],
    blocks: usize,
    rounds: usize,
) -> Result<usize, Refusal>
    requires { (DeskAccepts (length pool.old) (length table.old) blocks lengths.now queues.now rounds
        (length answers.old)) × (charges.old ≡ no_charges) }
    ensures { Worked pool.old pool.new table.old table.new
        (joined_bytes (lists_in lengths.now queues.now)) answers.old
        answers.new charges.new (outcome_of result) }
{
    let Mounted { tariff, state } = match mount(pool, table, blocks) {
        Ok(mounted) => mounted,
        Err(refusal) => return unopened(table, refusal),
    };
    let mut flash = Flash { pool, table, state };
    let done = run_rounds(
        &mut flash, lengths, queues, answers, charges, tariff, rounds,
    );
    Ok(close(&mut flash, done, tariff))
}

// A desk call: refused, or the queues served; then the length of their answers is given. The charges that it finds mean nothing.
pub fn desk(
    pool: &mut [u8],
    table: &mut [u8],
    lengths: &[u8],
    queues: &[u8],
    answers: &mut [u8],
    charges: &mut [u64; PANELS],
) -> Result<usize, Refusal>
    ensures { Leaves (desk_of pool.old table.old lengths.now
        queues.now answers.old) (outcome_of result) pool.new table.new answers.new
        charges.new }
{
    clear(charges);
    let asked = match refusal(pool, table, lengths, queues, answers) {
        Ok(asked) => asked,
        Err(refusal) => return refuse(pool, table, refusal),
    };
    let bytes = TABLE_BYTES * asked.blocks;
    work(
        pool,
        &mut table[0..bytes],
        lengths,
        queues,
        answers,
        charges,
        asked.blocks,
        asked.rounds,
    )
}
