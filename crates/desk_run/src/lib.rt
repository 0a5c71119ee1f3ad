// The commands of queues, served turn by turn from where they stand: no joined bytes are written anywhere. Each queue has a place, and each turn runs
// by the step that a batch runs by.
#![tactic(auto)]

pub mod rounds;
mod turn;

use run::Ran;

// What a turn leaves: where the joined batch stands, and the place of the queue.
#[derive(Drop)]
pub struct Turned {
    pub there: Ran,
    pub next: usize,
}
