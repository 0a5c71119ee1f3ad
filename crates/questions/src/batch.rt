// What is lent to a batch: 1 and 2, then 3 and 4, of its commands.
ghost use Rattle.std.specs.Prelude.{◌≡◌, IfOk};
ghost use Rattle.refusal.specs.Number.{number_of};
ghost use Rattle.model.specs.Pool.{blocks_of};
ghost use Rattle.model.specs.Questions.{first_no, of_buffers};

use super::sizes;
use command::batch::asked;
use refusal::Refusal;

// The blocks of the pool, where all answers are yes.
pub fn refusal(pool: &[u8], table: &[u8], commands: &[u8], answers: &[u8]) -> Result<usize, Refusal>
    ensures number { number_of result ≡ first_no (of_buffers pool.now table.now commands.now answers.now) }
    ensures blocks { IfOk result (λ blocks. blocks ≡ blocks_of pool.now) }
{
    let blocks = sizes::refusal(pool, table)?;
    let Some(wanted) = asked(commands) else {
        return Err(Refusal::Batch);
    };
    if answers.len() < wanted.room {
        return Err(Refusal::AnswerRoom);
    }
    Ok(blocks)
}
