// The three calls of the wall book: prepare, batch and desk, on lent buffers that do not overlap. None asks anything of its caller.
#![tactic(auto)]

ghost use Rattle.std.specs.Prelude.{◌≡◌};
ghost use Rattle.account.specs.Tariff.{tariff_of};
ghost use Rattle.model.specs.Call.{batch_of, prepare_of, desk_of};
ghost use Rattle.prepare.specs.Prepared as Prepare;
ghost use Rattle.batch.specs.Left.{outcome_of, Leaves};
ghost use Rattle.wall_book.specs.Entry.{outcome};

use account::tariff_of;
use batch::batch;
use desk::desk;
use layout::PANELS;
use prepare::prepare;
use refusal::{Refusal, number_of};

// What C is told of a call: its number, 0 where its work is done, and how many bytes of answers it has laid.
fn told(done: Result<usize, Refusal>, length: &mut usize) -> u32
    ensures { outcome result length.new ≡ outcome_of done }
{
    match done {
        Ok(laid) => {
            *length = laid;
            0
        }
        Err(refusal) => {
            *length = 0;
            u32::from(refusal)
        }
    }
}

// Prepares a pool under a tariff, its numbers in document 01's order. The answer is 0, or the number of the refusal: then the pool is as it was.
pub fn wall_book_prepare(
    pool: &mut [u8],
    log_read: u32,
    log_edit: u32,
    log_rewrite: u32,
    disk_read: u32,
    disk_edit: u32,
    disk_rewrite: u32,
    to_disk: u32,
    to_log: u32,
) -> u32
    ensures { Prepare.Leaves
        (prepare_of pool.old
        (tariff_of log_read log_edit log_rewrite disk_read disk_edit disk_rewrite to_disk
        to_log)) result pool.new }
{
    let tariff = tariff_of(
        log_read,
        log_edit,
        log_rewrite,
        disk_read,
        disk_edit,
        disk_rewrite,
        to_disk,
        to_log,
    );
    number_of(&prepare(pool, tariff))
}

// Runs a batch. The answer is 0, or the number of the refusal: then pool and answers are as they were, and length and all charges are 0.
pub fn wall_book_batch(
    pool: &mut [u8],
    table: &mut [u8],
    commands: &[u8],
    answers: &mut [u8],
    length: &mut usize,
    charges: &mut [u64; PANELS],
) -> u32
    ensures { Leaves (batch_of pool.old table.old commands.now
        answers.old) (outcome result length.new) pool.new table.new
        answers.new charges.new }
{
    let done = batch(pool, table, commands, answers, charges);
    told(done, length)
}

// Serves up to sixteen queues, one command of each by turns. The answer is as that of a batch.
pub fn wall_book_desk(
    pool: &mut [u8],
    table: &mut [u8],
    lengths: &[u8],
    queues: &[u8],
    answers: &mut [u8],
    length: &mut usize,
    charges: &mut [u64; PANELS],
) -> u32
    ensures { Leaves (desk_of pool.old table.old lengths.now
        queues.now answers.old) (outcome result length.new) pool.new
        table.new answers.new charges.new }
{
    let served = desk(pool, table, lengths, queues, answers, charges);
    told(served, length)
}
