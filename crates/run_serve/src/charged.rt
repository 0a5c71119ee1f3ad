// What a command that was served answers, beside what it leaves.
use command::Answer;

// What its requests were charged, and its answer.
#[derive(Drop)]
pub struct Answered {
    pub charge: u64,
    pub answer: Answer,
}
