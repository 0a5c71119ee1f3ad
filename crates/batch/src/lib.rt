// Batch: the questions in their order, then the commands, then the checkpoint.
#![tactic(auto)]

ghost use Rattle.std.specs.Prelude.{◌≡◌, length};
ghost use Rattle.book.specs.InTurn.{no_charges};
ghost use Rattle.model.specs.Call.{batch_of};
ghost use Rattle.batch.specs.Left.{Accepts, outcome_of, Worked, Leaves};

pub mod end;

use end::{close, refuse, unopened};
use flash_allocate::flash::Flash;
use layout::{PANELS, TABLE_BYTES, pool_blocks};
use mount::answer::Mounted;
use mount::mount;
use questions::batch::refusal;
use refusal::Refusal;
use run::charges::clear;
use run::run::run_commands;

// Questions 5 to 8, the commands and the checkpoint, in a table of the pool's size.
fn work(
    pool: &mut [u8],
    table: &mut [u8],
    commands: &[u8],
    answers: &mut [u8],
    charges: &mut [u64; PANELS],
    blocks: usize,
) -> Result<usize, Refusal>
    requires { (Accepts (length pool.old) (length table.old) blocks commands.now (length answers.old))
        × (charges.old ≡ no_charges) }
    ensures { Worked pool.old pool.new table.old table.new
        commands.now answers.old answers.new charges.new (outcome_of result) }
{
    let Mounted { tariff, state } = match mount(pool, table, blocks) {
        Ok(mounted) => mounted,
        Err(refusal) => return unopened(table, refusal),
    };
    let mut flash = Flash { pool, table, state };
    let done = run_commands(&mut flash, commands, answers, charges, tariff);
    Ok(close(&mut flash, done, tariff))
}

// A batch: refused, or run; then the length of its answers is given. The charges that it finds mean nothing.
pub fn batch(
    pool: &mut [u8],
    table: &mut [u8],
    commands: &[u8],
    answers: &mut [u8],
    charges: &mut [u64; PANELS],
) -> Result<usize, Refusal>
    ensures { Leaves (batch_of pool.old table.old commands.now
        answers.old) (outcome_of result) pool.new table.new answers.new
        charges.new }
{
    clear(charges);
    let blocks = match refusal(pool, table, commands, answers) {
        Ok(blocks) => blocks,
        Err(refusal) => return refuse(pool, table, refusal),
    };
    let bytes = TABLE_BYTES * blocks;
    work(
        pool,
        &mut table[0..bytes],
        commands,
        answers,
        charges,
        blocks,
    )
}
