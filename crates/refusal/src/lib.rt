// What a call is refused for: the first question that failed, with the number that the documents give it.
#![tactic(auto)]

ghost use Rattle.std.specs.Prelude.{◌≡◌, ℕ};
ghost use Rattle.refusal.specs.Number.{number, number_of};

use std::error::Error;
use std::fmt;

// The questions that may fail. The first eight are document 01's questions before the work, in its order; then ids for a new key, the numbers of a
// tariff, and document 02's lengths of queues (P5).
#[derive(Clone, Copy, Debug, PartialEq, Eq)]
pub enum Refusal {
    PoolLength,
    TableLength,
    Batch,
    AnswerRoom,
    Pages,
    Checkpoint,
    Tree,
    SequenceNumbers,
    NodeIds,
    Tariff,
    QueueLengths,
}

impl From<Refusal> for u32 {
    ghost from_gives = { λ refusal n. n ≡ number refusal };

    fn from(refusal: Refusal) -> u32 {
        match refusal {
            Refusal::PoolLength => 1,
            Refusal::TableLength => 2,
            Refusal::Batch => 3,
            Refusal::AnswerRoom => 4,
            Refusal::Pages => 5,
            Refusal::Checkpoint => 6,
            Refusal::Tree => 7,
            Refusal::SequenceNumbers => 8,
            Refusal::NodeIds => 9,
            Refusal::Tariff => 10,
            Refusal::QueueLengths => 11,
        }
    }
}

impl fmt::Display for Refusal {
    fn fmt<W: fmt::Write>(&self, f: &mut fmt::Formatter<W>) -> fmt::Result {
        f.write_str(match self {
            Refusal::PoolLength => "no pool has this length",
            Refusal::TableLength => "the work table is too short",
            Refusal::Batch => "not valid commands, or too many of them",
            Refusal::AnswerRoom => "too little room for the answers",
            Refusal::Pages => "a page of the pool does not check",
            Refusal::Checkpoint => "the pool has no complete checkpoint",
            Refusal::Tree => "the tree in the pool is not sound",
            Refusal::SequenceNumbers => "the pool's sequence numbers are used up",
            Refusal::NodeIds => "too few node ids are unused",
            Refusal::Tariff => "a number of the tariff is out of range",
            Refusal::QueueLengths => "the lengths do not fill the queues",
        })
    }
}

impl Error for Refusal {}

// What a call may be refused with: a refusal by its name, or the number alone.
pub trait Numbered {
    ghost numbered: { Self → ℕ };

    fn number(&self) -> u32
        ensures { result ≡ numbered self.now };
}

impl Numbered for Refusal {
    ghost numbered = { number };

    fn number(&self) -> u32 {
        u32::from(*self)
    }
}

impl Numbered for u32 {
    ghost numbered = { λ n. n };

    fn number(&self) -> u32 {
        *self
    }
}

// What a call answers C: 0 where its work is done, else the number of the refusal.
pub fn number_of<T>(done: &Result<T, Refusal>) -> u32
    ensures { result ≡ number_of done.now }
{
    match done {
        Ok(_) => 0,
        Err(refusal) => u32::from(*refusal),
    }
}
