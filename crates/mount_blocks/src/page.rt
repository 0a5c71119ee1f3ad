// The number of a page, and the first blank page of a stretch.
ghost use Rattle.std.specs.Prelude.{◌≡◌, ◌+◌, ◌*◌, ◌-◌, ◌≤◌, length};
ghost use Rattle.laws.specs.Loops.{first_from};
ghost use Rattle.flash_blocks.specs.Pages.{pages_of};
ghost use Rattle.mount_blocks.specs.Rules.{sequence_on, blank_at};
ghost use Rattle.layout.specs.Layout.{page_bytes};

use flash_blocks::page::{is_blank, page_part};
use wire::number::read32;

// The sequence number in a page's header.
#[tactic(auto, unfolding(crate::specs::Rules::sequence_on))]
pub fn sequence_on(pool: &[u8], page: usize) -> u32
    requires { page_bytes * page + page_bytes ≤ length pool.now }
    ensures { result ≡ sequence_on (pages_of pool.now) page }
{
    read32(page_part(pool, page), 3)
}

// The first blank page from one on and before another, or that other: callers compute with the number, as the definitions do, and need no Option.
pub fn first_blank(pool: &[u8], from: usize, to: usize) -> usize
    requires { (from ≤ to) × (page_bytes * to ≤ length pool.now) }
    ensures { (result ≡ first_from (blank_at (pages_of pool.now)) (to - from) from) × (from ≤ result) × (result ≤ to) }
{
    (from..to).find(|&page| is_blank(pool, page)).unwrap_or(to)
}
