// What the code of a batch works on: the pool and the work table, which are lent, and the state.
ghost use Rattle.std.specs.Prelude.{length};
ghost use Rattle.flash_allocate.specs.World.{Good};

use super::state::State;

// Buffers of lengths that fit the state, whose numbers are in range: every step finds it so and leaves it so.
#[derive(Drop)]
pub struct Flash<'a> {
    pub pool: &'a mut [u8],
    pub table: &'a mut [u8],
    pub state: State,
    pub ghost good: { Good (length pool.now) (length table.now) state },
}

impl Flash<'_> {
    ghost use Rattle.std.specs.Prelude.{◌≡◌};

    // The pool, to read from.
    pub fn pool(&self) -> &[u8]
        ensures { result.now ≡ self.now.pool.now }
    {
        self.pool
    }

    // The work table, to read from.
    pub fn table(&self) -> &[u8]
        ensures { result.now ≡ self.now.table.now }
    {
        self.table
    }
}
