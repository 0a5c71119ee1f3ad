// Mount: questions 5 to 8 of document 01, from the bytes of a pool to the state that a batch begins with.
#![tactic(auto)]

pub mod answer;

ghost use Rattle.std.specs.Prelude.{length};
ghost use Rattle.flash_rows.specs.Worktable.{table_from};
ghost use Rattle.mount.specs.Begin.{Sized};
ghost use Rattle.mount.specs.Mounted.{MountedAs};

use answer::{Mounted, first_state};
use mount_checkpoint::find::find_checkpoint;
use mount_restore::questions::refusal;
use mount_survey::survey;
use refusal::Refusal;

// Mounts a pool, with a table lent for the rows, which after a refusal is left open.
pub fn mount(pool: &[u8], table: &mut [u8], blocks: usize) -> Result<Mounted, Refusal>
    requires { Sized (length pool.now) (length table.old) blocks }
    ensures { MountedAs pool.now (length table.new) blocks
        (table_from table.new) result }
{
    let found = survey(pool, table, blocks).ok_or(Refusal::Pages)?;
    let checkpoint = find_checkpoint(pool, table, blocks).ok_or(Refusal::Checkpoint)?;
    let state = first_state(found, blocks, checkpoint.nodes);
    refusal(pool, table, state, checkpoint.tariff, checkpoint.since)?;
    Ok(Mounted {
        tariff: checkpoint.tariff,
        state,
    })
}
