// Questions 1 and 2 of every call: has the pool a pool's length, and is the work table long enough?
ghost use Rattle.std.specs.Prelude.{◌≡◌, IfOk};
ghost use Rattle.refusal.specs.Number.{number_of};
ghost use Rattle.model.specs.Pool.{blocks_of};
ghost use Rattle.model.specs.Questions.{first_no, of_sizes};

use layout::{TABLE_BYTES, pool_blocks};
use refusal::Refusal;

// The blocks of the pool, where both answers are yes.
pub fn refusal(pool: &[u8], table: &[u8]) -> Result<usize, Refusal>
    ensures number { number_of result ≡ first_no (of_sizes pool.now table.now) }
    ensures blocks { IfOk result (λ blocks. blocks ≡ blocks_of pool.now) }
{
    let Some(blocks) = pool_blocks(pool.len()) else {
        return Err(Refusal::PoolLength);
    };
    if table.len() < TABLE_BYTES * blocks {
        return Err(Refusal::TableLength);
    }
    Ok(blocks)
}
