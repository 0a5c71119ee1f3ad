// What is lent to a prepare: question 1, then 10, of the tariff.
ghost use Rattle.std.specs.Prelude.{◌≡◌, IfOk};
ghost use Rattle.refusal.specs.Number.{number_of};
ghost use Rattle.model.specs.Pool.{blocks_of};
ghost use Rattle.model.specs.Questions.{first_no, of_prepare};

use account::Tariff;
use layout::pool_blocks;
use refusal::Refusal;

// The blocks of the pool, where both answers are yes.
pub fn refusal(pool: &[u8], tariff: Tariff) -> Result<usize, Refusal>
    ensures number { number_of result ≡ first_no (of_prepare pool.now tariff) }
    ensures blocks { IfOk result (λ blocks. blocks ≡ blocks_of pool.now) }
{
    let Some(blocks) = pool_blocks(pool.len()) else {
        return Err(Refusal::PoolLength);
    };
    if !tariff.in_range() {
        return Err(Refusal::Tariff);
    }
    Ok(blocks)
}
