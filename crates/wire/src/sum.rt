// The two sums of a page.
ghost use Rattle.std.specs.Prelude.{◌≡◌, ◌+◌, ◌*◌, ◌≤◌, length, take};
ghost use Rattle.wire.specs.Sum.{sums_of, most_summed, plain_sums};
ghost use Rattle.wire.specs.Columns.{Few, column_sums};

// Document 01's a and b.
#[derive(Clone, Copy, Debug, PartialEq, Eq)]
pub struct Sums {
    pub a: u32,
    pub b: u32,
}

// What the columns of so many rows add up to. A column stands in each running sum from its own on, so it is multiplied by their number: of
// running sums each would wait for the one before.
fn sum_columns(low: &[u32; 16], high: &[u32; 16], rows: usize) -> Sums
    requires { (rows ≤ 256) × Few rows low.now high.now }
    ensures { result ≡ column_sums low.now high.now rows }
{
    let mut a: u32 = 0;
    let mut b: u32 = 0;
    let mut c: u32 = rows as u32;
    for j in 0..16 {
        a += low[j];
        b += (16 - j) as u32 * low[j];
        c += high[j];
    }
    Sums {
        a: 1 + a,
        b: 16 * c + b,
    }
}

// The sums of the first rows of sixteen bytes, with no remainders: a column for each place of a row, so that one wide addition does for
// several bytes. The loop over a row stands here and not in a function of its own: only so does the compiler make wide additions of it.
fn sum_rows(s: &[u8], rows: usize) -> Sums
    requires { (rows ≤ 256) × (16 * rows ≤ length s.now) }
    ensures { (result ≡ plain_sums (take (16 * rows) s.now))
        × (result.a ≤ 1 + 4080 * rows) × (result.b ≤ 16711696 * rows) }
{
    let mut low = [0u32; 16];
    let mut high = [0u32; 16];
    for k in 0..rows {
        for j in 0..16 {
            high[j] += low[j];
            low[j] += u32::from(s[16 * k + j]);
        }
    }
    sum_columns(&low, &high, rows)
}

// The sums of some bytes, the remainders taken once at the end: over so few bytes the sums fit 32 bits.
pub fn sum_bytes(s: &[u8]) -> Sums
    requires { length s.now ≤ most_summed }
    ensures { result ≡ sums_of s.now }
{
    let rows = s.len() / 16;
    let begun = sum_rows(s, rows);
    let mut a = begun.a;
    let mut b = begun.b;
    // A `while`: with a `for` here, over a range or the slice, a page was measured to take more than twice as long.
    let mut i = 16 * rows;
    while i < s.len() {
        a += super::number::read8(s, i);
        b += a;
        i += 1;
    }
    Sums {
        a: a % 65535,
        b: b % 65535,
    }
}
