// The map of live pages in bytes, a bit a page: a mark is read and set here, and nowhere else.
ghost use Rattle.std.specs.Prelude.{◌≡◌, ◌<◌, get_or, set};
ghost use Rattle.layout.specs.Layout.{most_pages};
ghost use Rattle.flash_live.specs.Live.{marked};
ghost use Rattle.flash_live.specs.Bits.{two_to, byte_bits, marks_in};

use layout::LIVE_BYTES;

// Whether a bit of a byte is set.
fn has_bit(byte: u8, k: usize) -> bool
    requires { k < 8 }
    ensures { result ≡ marked (get_or (byte_bits byte) k 0) }
{
    (byte >> k) % 2 != 0
}

// The byte with the bit set.
fn with_bit(byte: u8, k: usize) -> u8
    requires { k < 8 }
    ensures { byte_bits result ≡ set (byte_bits byte) k 1 }
{
    byte | 1u8 << k
}

// Whether a page is live.
pub fn is_live(live: &[u8; LIVE_BYTES], page: usize) -> bool
    requires { page < most_pages }
    ensures { result ≡ marked (get_or (marks_in live.now) page 0) }
{
    has_bit(live[page / 8], page % 8)
}

// Marks a page as live.
pub fn set_live(live: &mut [u8; LIVE_BYTES], page: usize)
    requires { page < most_pages }
    ensures { marks_in live.new ≡ set (marks_in live.old) page 1 }
{
    let at = page / 8;
    live[at] = with_bit(live[at], page % 8);
}
