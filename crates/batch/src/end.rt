// How calls end: the table zero in its first bytes, but after 1 and 2, and the checkpoint written where the pool opened.
ghost use Rattle.std.specs.Prelude.{◌≤◌, length, Ok};
ghost use Rattle.model.specs.Passes.{Sizes};
ghost use Rattle.flash_allocate.specs.Flash.{Same};
ghost use Rattle.run_split.specs.Growing.{Grows};
ghost use Rattle.run.specs.Session.{ran_in};
ghost use Rattle.batch.specs.Left.{outcome_by, outcome_of};
ghost use Rattle.batch.specs.Closed.{Refused, Unopened, Closed};

use account::Tariff;
use flash_allocate::flash::Flash;
use flash_checkpoint::checkpoint;
use layout::{BLOCK_BYTES, TABLE_BYTES};
use refusal::{Numbered, Refusal};
use run::Ran;
use wire::bytes::{fill, fill_part};

// A call refused for what is lent, whichever call it is.
pub fn refuse<R: Numbered>(pool: &[u8], table: &mut [u8], refusal: R) -> Result<usize, R>
    requires { (1 ≤ R.numbered refusal) × (3 ≤ R.numbered refusal → Sizes pool.now table.old) }
    ensures { Refused pool.now table.old table.new (R.numbered refusal) (outcome_by R.numbered result) }
{
    if refusal.number() > Refusal::TableLength.number() {
        let blocks = pool.len() / BLOCK_BYTES;
        fill_part(table, 0, TABLE_BYTES * blocks, 0);
    }
    Err(refusal)
}

// A pool that does not open: the table that it was read into is zero again.
pub fn unopened<R: Numbered>(table: &mut [u8], refusal: R) -> Result<usize, R>
    ensures { Unopened table.old table.new (R.numbered refusal) (outcome_by R.numbered result) }
{
    fill(table, 0);
    Err(refusal)
}

// A call whose commands were run: the checkpoint, then the table zero. The length of its answers is given.
pub fn close(flash: &mut Flash, done: Ran, tariff: Tariff) -> usize
    requires { Grows flash.old }
    ensures buffers { Same flash.old flash.new }
    ensures closed { Closed flash.old.pool.now flash.new.pool.now flash.old.table.now flash.new.table.now
        (ran_in flash.old.state done) tariff (outcome_of (Ok result)) }
{
    checkpoint(flash, tariff);
    fill(flash.table, 0);
    done.at
}
