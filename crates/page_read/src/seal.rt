// What every written page has: field 10 in front, the sums and FF behind.
ghost use Rattle.std.specs.Prelude.{◌≡◌, ◌+◌, ◌≤◌, length, drop};
ghost use Rattle.laws.specs.Lay.{part};
ghost use Rattle.laws.specs.BigEndian.{number};
ghost use Rattle.wire.specs.Sum.{most_summed};
ghost use Rattle.wire.specs.Field.{payload_at};
ghost use Rattle.page.specs.Decode.{all_blank, sealed_at};

use wire::field::payload;
use wire::number::{read16, read32};
use wire::sum::sum_bytes;

// Whether sixteen bytes from a place on are FF: then, and only then, they add up to 16 times 255. A sum of fixed length takes a few wide
// instructions, where a test of each byte takes sixteen jumps.
fn sixteen_blank(s: &[u8], at: usize) -> bool
    requires { at + 16 ≤ length s.now }
    ensures { result ≡ all_blank (part s.now at 16) }
{
    let mut sum: u32 = 0;
    for k in 0..16 {
        sum += u32::from(s[at + k]);
    }
    sum == 4080
}

// Whether every byte is FF, byte by byte.
fn few_blank(s: &[u8]) -> bool
    ensures { result ≡ all_blank s.now }
{
    s.iter().all(|byte| *byte == 255)
}

// Whether every byte is FF: sixteen at a time, then the last sixteen, some of them for the second time. Fewer than sixteen go byte by byte.
pub fn all_blank(s: &[u8]) -> bool
    ensures { result ≡ all_blank s.now }
{
    if s.len() < 16 {
        return few_blank(s);
    }
    let last = s.len() - 16;
    // A `while`: `(0..last).step_by(16)` needs a measure as well, and is no plainer.
    let mut i = 0;
    while i < last {
        if !sixteen_blank(s, i) {
            return false;
        }
        i += 16;
    }
    sixteen_blank(s, last)
}

// The sequence number in field 10; 0 where there is no field 10.
pub fn sequence(page: &[u8]) -> u32
    ensures { result ≡ number (payload_at page.now 0 0x10) }
{
    let p = payload(page, 0, 0x10);
    if p.len() != 4 {
        return 0;
    }
    read32(p, 0)
}

// Whether field 1F stands at a place with the sums of all before it, and FF behind it.
pub fn is_sealed(page: &[u8], end: usize) -> bool
    requires { length page.now ≤ most_summed }
    ensures { result ≡ sealed_at page.now end }
{
    let p = payload(page, end, 0x1F);
    if p.len() != 4 {
        return false;
    }
    let s = sum_bytes(&page[..end]);
    if read16(p, 0) != s.b || read16(p, 2) != s.a {
        return false;
    }
    all_blank(&page[end + 7..])
}
