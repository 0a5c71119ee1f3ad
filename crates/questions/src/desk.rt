// What is lent to a desk: 1 and 2, then 11, of the lengths, then 3 and 4, of the queues.
ghost use Rattle.std.specs.Prelude.{◌≡◌, IfOk};
ghost use Rattle.refusal.specs.Number.{number_of};
ghost use Rattle.model.specs.Pool.{blocks_of};
ghost use Rattle.model.specs.Questions.{first_no, of_desk};
ghost use Rattle.questions.specs.Desk.{DeskReady};

use super::sizes;
use desk_questions::{lengths_fill, queues_asked};
use refusal::Refusal;

// What a desk works with: the blocks of its pool, and how many rounds serve its queues.
#[derive(Clone, Copy, Debug, PartialEq, Eq)]
pub struct DeskAsked {
    pub blocks: usize,
    pub rounds: usize,
}

// What the desk works with, where all answers are yes.
pub fn refusal(
    pool: &[u8],
    table: &[u8],
    lengths: &[u8],
    queues: &[u8],
    answers: &[u8],
) -> Result<DeskAsked, Refusal>
    ensures number { number_of result ≡ first_no (of_desk pool.now table.now lengths.now queues.now answers.now) }
    ensures blocks { IfOk result (λ asked. asked.blocks ≡ blocks_of pool.now) }
    ensures ready { IfOk result (λ asked. DeskReady lengths.now queues.now answers.now asked.rounds) }
{
    let blocks = sizes::refusal(pool, table)?;
    if !lengths_fill(lengths, queues) {
        return Err(Refusal::QueueLengths);
    }
    let Some(wanted) = queues_asked(lengths, queues) else {
        return Err(Refusal::Batch);
    };
    if answers.len() < wanted.room {
        return Err(Refusal::AnswerRoom);
    }
    Ok(DeskAsked {
        blocks,
        rounds: wanted.rounds,
    })
}
