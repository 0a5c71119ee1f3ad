// One block: how far it is filled, whether it has a number, and its own rules.
ghost use Rattle.std.specs.Prelude.{◌≡◌, ◌+◌, ◌*◌, ◌≤◌, length};
ghost use Rattle.flash_blocks.specs.Pages.{pages_of};
ghost use Rattle.mount_blocks.specs.Rules as def;
ghost use Rattle.mount_blocks.specs.Rules.{fill_of, rest_blank, block_passes};
ghost use Rattle.layout.specs.Layout.{block_bytes, pages_in_block};

use super::page::{first_blank, sequence_on};
use flash_blocks::page::is_blank;
use layout::PAGES_IN_BLOCK;

// How many written pages stand in front.
#[tactic(auto, unfolding(crate::specs::Rules::fill_of, crate::specs::Rules::first_blank))]
pub fn fill_of(pool: &[u8], block: usize) -> usize
    requires { block_bytes * block + block_bytes ≤ length pool.now }
    ensures { (result ≡ fill_of (pages_of pool.now) block) × (result ≤ pages_in_block) }
{
    let from = PAGES_IN_BLOCK * block;
    first_blank(pool, from, from + PAGES_IN_BLOCK) - from
}

// Whether none is written behind them.
fn is_rest_blank(pool: &[u8], block: usize) -> bool
    requires { block_bytes * block + block_bytes ≤ length pool.now }
    ensures { result ≡ rest_blank (pages_of pool.now) block }
{
    let from = PAGES_IN_BLOCK * block;
    let to = from + PAGES_IN_BLOCK;
    let blank = first_blank(pool, from, to);
    (blank..to).all(|page| is_blank(pool, page))
}

// Whether one of them has a number.
pub fn holds(pool: &[u8], block: usize, number: u32) -> bool
    requires { block_bytes * block + block_bytes ≤ length pool.now }
    ensures { result ≡ def.holds (pages_of pool.now) number block }
{
    let from = PAGES_IN_BLOCK * block;
    let blank = first_blank(pool, from, from + PAGES_IN_BLOCK);
    (from..blank).any(|page| sequence_on(pool, page) == number)
}

// Whether the block keeps its own rules.
#[tactic(auto, unfolding(crate::specs::Rules::block_passes))]
pub fn passes(pool: &[u8], block: usize, newest: u32) -> bool
    requires { block_bytes * block + block_bytes ≤ length pool.now }
    ensures { result ≡ block_passes (pages_of pool.now) newest block }
{
    if !is_rest_blank(pool, block) {
        return false;
    }
    let fill = fill_of(pool, block);
    fill == 0 || fill == PAGES_IN_BLOCK || holds(pool, block, newest)
}
