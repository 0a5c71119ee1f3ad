// The state of a batch, by value.
ghost use Rattle.std.specs.Prelude.{◌≡◌, ◌<◌};
ghost use Rattle.layout.specs.Layout.{pages_in_block};
ghost use Rattle.flash_allocate.specs.State.{in_block, next_sequence, with_sequence, with_nodes, with_entries, without_entries, advanced, page_counted};

use layout::MOST_SEQUENCE;

// What a batch knows beside the work table: the current block and its fill, the number of nodes and of checkpoint pages being written,
// the last sequence number, and how many entries the log buffer has.
#[derive(Clone, Copy, Debug, PartialEq, Eq)]
pub struct State {
    pub blocks: usize,
    pub current: usize,
    pub fill: usize,
    pub nodes: usize,
    pub checkpoint: usize,
    pub last: u32,
    pub entries: usize,
}

impl State {
    // The state with another current block, filled so far.
    #[tactic(auto, unfolding(crate::specs::State::in_block))]
    pub fn in_block(self, current: usize, fill: usize) -> State
        ensures { result ≡ in_block current fill self }
    {
        State {
            current,
            fill,
            ..self
        }
    }
}

// The sequence number behind another.
#[tactic(auto, unfolding(crate::specs::State::next_sequence))]
pub fn next_sequence(last: u32) -> u32
    ensures { result ≡ next_sequence last }
{
    if last < MOST_SEQUENCE { last + 1 } else { last }
}

// The state once a page of this sequence number is written.
#[tactic(auto, unfolding(crate::specs::State::advanced))]
pub fn advance(state: State, number: u32) -> State
    requires { state.fill < pages_in_block }
    ensures { result ≡ advanced number state }
{
    State {
        fill: state.fill + 1,
        last: number,
        ..state
    }
}

// The state with so many entries in the buffer.
#[tactic(auto, unfolding(crate::specs::State::with_entries))]
pub fn with_entries(state: State, entries: usize) -> State
    ensures { result ≡ with_entries entries state }
{
    State { entries, ..state }
}

// The state with an empty buffer.
#[tactic(auto, unfolding(crate::specs::State::without_entries, crate::specs::State::with_entries))]
pub fn without_entries(state: State) -> State
    ensures { result ≡ without_entries state }
{
    with_entries(state, 0)
}

// The state with another last sequence number.
#[tactic(auto, unfolding(crate::specs::State::with_sequence))]
pub fn with_sequence(state: State, last: u32) -> State
    ensures { result ≡ with_sequence last state }
{
    State { last, ..state }
}

// The state with another number of nodes.
#[tactic(auto, unfolding(crate::specs::State::with_nodes))]
pub fn with_nodes(state: State, nodes: usize) -> State
    ensures { result ≡ with_nodes nodes state }
{
    State { nodes, ..state }
}

// The state once a checkpoint page of this sequence number is written.
#[tactic(auto, unfolding(crate::specs::State::page_counted))]
pub fn count_page(state: State, number: u32) -> State
    requires { (state.fill < pages_in_block) × (state.checkpoint < 4096) }
    ensures { result ≡ page_counted number state }
{
    State {
        fill: state.fill + 1,
        checkpoint: state.checkpoint + 1,
        last: number,
        ..state
    }
}
