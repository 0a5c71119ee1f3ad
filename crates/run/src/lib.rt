// The commands of a batch run one after another, each reply laid behind the last, each charge added to the current panel. A desk runs its
// commands by the same step.
#![tactic(auto)]

pub mod charges;
pub mod replies;
pub mod run;

use account::Tariff;

// How far a command has come: what was charged, and how many bytes of answers are laid.
#[derive(Drop)]
pub struct Progress {
    pub charge: u64,
    pub at: usize,
}

// What a batch remembers from one command to the next: the current panel, and the tariff.
#[derive(Clone, Copy)]
pub struct Session {
    pub panel: usize,
    pub tariff: Tariff,
}

// Where a batch stands, beside its buffers: the session, and how many bytes of answers are laid.
#[derive(Drop)]
pub struct Ran {
    pub session: Session,
    pub at: usize,
}
