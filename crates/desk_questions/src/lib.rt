// Questions 11 and 3 of a desk: do the lengths fill the queues, and what do the queues ask for?
#![tactic(auto)]

ghost use Rattle.std.specs.Prelude.{◌≡◌, true, ◌+◌, ◌≤◌, MatchOption};
ghost use Rattle.layout.specs.Layout.{bound32};
ghost use Rattle.desk_queues.specs.Queues.{fills};
ghost use Rattle.desk_queues.specs.Joined.{queue_commands};
ghost use Rattle.desk_questions.specs.Queue.{Admitted};
ghost use Rattle.desk_questions.specs.Served.{served_of};
ghost use Rattle.desk_questions.specs.Sums.{with_queue, served_by};

use command::Asked;
use command::batch::asked;
use layout::{LENGTH_BYTES, MOST_BATCH_BYTES, PANELS};
use wire::number::read32;

// What valid queues ask for: room for the answers, and the rounds that serve them.
#[derive(Clone, Copy, Debug, PartialEq, Eq)]
pub struct Served {
    pub room: usize,
    pub rounds: usize,
}

// What some queues ask for: room, how many commands they have, and how many the longest has.
#[derive(Clone, Copy, Debug, PartialEq, Eq)]
struct Sums {
    room: usize,
    commands: usize,
    rounds: usize,
}

// What a command 05 takes: tag, length, panel. The desk writes one before every command.
const PANEL_BYTES: usize = 4;

// Question 11: whether there are 16 lengths at most, all whole, that add up to the queues. In 64 bits no sum
// of 16 lengths wraps.
pub fn lengths_fill(lengths: &[u8], queues: &[u8]) -> bool
    ensures { result ≡ fills lengths.now queues.now }
{
    let count = lengths.len() / LENGTH_BYTES;
    if PANELS < count {
        return false;
    }
    if LENGTH_BYTES * count != lengths.len() {
        return false;
    }
    let mut sum: u64 = 0;
    for p in 0..count {
        sum += u64::from(read32(lengths, LENGTH_BYTES * p));
    }
    sum == queues.len() as u64
}

impl Sums {
    // The sums with one queue more.
    fn with_queue(self, queue: Asked) -> Sums
        requires { (self.room + queue.room ≤ bound32) × (self.commands + queue.commands ≤ bound32) }
        ensures { result ≡ with_queue self queue.room queue.commands }
    {
        Sums {
            room: self.room + queue.room,
            commands: self.commands + queue.commands,
            rounds: self.rounds.max(queue.commands),
        }
    }

    // What queues of so many bytes and such sums ask for, where they joined keep the length limit of a batch.
    #[tactic(auto, unfolding(crate::specs::Sums::served_by))]
    fn within_limit(self, bytes: usize) -> Option<Served>
        requires { (bytes ≤ bound32) × (self.commands ≤ bound32) }
        ensures { result ≡ served_by bytes self }
    {
        if MOST_BATCH_BYTES < bytes + PANEL_BYTES * self.commands {
            return None;
        }
        Some(Served {
            room: self.room,
            rounds: self.rounds,
        })
    }
}

// What a queue asks for, where it may stand at a desk: it is wholly valid commands, none of them an 05.
#[tactic(auto, using(crate::specs::Queue::queue_invalid, crate::specs::Queue::queue_named, crate::specs::Queue::queue_admitted,))]
fn queue_asked(queue: &[u8]) -> Option<Asked>
    ensures { MatchOption result (queue_commands queue.now ≡ None)
        (λ found. Admitted queue.now found.room found.commands) }
{
    let found = asked(queue)?;
    if 0 < found.named {
        return None;
    }
    Some(found)
}

// Question 3: what the queues ask for, where each is wholly valid commands, none of them an 05.
pub fn queues_asked(lengths: &[u8], queues: &[u8]) -> Option<Served>
    requires { fills lengths.now queues.now ≡ true }
    ensures { result ≡ served_of lengths.now queues.now }
{
    let mut sums = Sums {
        room: 0,
        commands: 0,
        rounds: 0,
    };
    let mut start: usize = 0;
    for p in 0..lengths.len() / LENGTH_BYTES {
        let end = start + read32(lengths, LENGTH_BYTES * p) as usize;
        let queue = queue_asked(&queues[start..end])?;
        sums = sums.with_queue(queue);
        start = end;
    }
    sums.within_limit(queues.len())
}
