// What a mount answers.
ghost use Rattle.std.specs.Prelude.{◌≡◌};
ghost use Rattle.mount.specs.Begin.{first_state};

use account::Tariff;
use flash_allocate::state::State;
use mount_survey::answer::Survey;

// A pool mounted: its tariff, and the state to begin with.
#[derive(Clone, Copy)]
pub struct Mounted {
    pub tariff: Tariff,
    pub state: State,
}

// The state that a batch begins with.
#[tactic(auto, unfolding(crate::specs::Begin::first_state))]
pub fn first_state(found: Survey, blocks: usize, nodes: usize) -> State
    ensures { result ≡ first_state found blocks nodes }
{
    State {
        blocks,
        current: found.current,
        fill: found.fill,
        nodes,
        checkpoint: 0,
        last: found.newest,
        entries: 0,
    }
}
