// What every page has around its content: field 10 before it, field 1F behind it.
ghost use Rattle.std.specs.Prelude.{◌≡◌, ◌+◌, ◌*◌, ◌≤◌, ◌<◌, length, take};
ghost use Rattle.laws.specs.Lay.{lay};
ghost use Rattle.laws.specs.BigEndian.{big_endian};
ghost use Rattle.layout.specs.Layout.{page_bytes};
ghost use Rattle.wire.specs.Field.{field};
ghost use Rattle.page.specs.Image.{fields, sums_field};
ghost use Rattle.page_write.specs.Chunks.{chunks};

use wire::field::{lay_field, lay_head};
use wire::number::{write16, write32};
use wire::sum::sum_bytes;

// Lays field 10.
pub fn lay_sequence(p: &mut [u8], sequence: u32)
    requires { length p.old ≡ page_bytes }
    ensures { p.new ≡ lay p.old 0 (field 0x10 (big_endian 4 sequence)) }
{
    lay_head(p, 0, 0x10, 4);
    write32(p, 3, sequence);
}

// Lays field 1F at a place, with the sums of what stands before it.
pub fn lay_sums(p: &mut [u8], end: usize)
    requires { (length p.old ≡ page_bytes) × (end + 7 ≤ page_bytes) }
    ensures { p.new ≡ lay p.old end (sums_field (take end p.old)) }
{
    let s = sum_bytes(&p[..end]);
    lay_head(p, end, 0x1F, 4);
    write16(p, end + 3, s.b);
    write16(p, end + 5, s.a);
}

// Lays a field of a tag for each of n records of a size in a buffer.
pub fn lay_run(p: &mut [u8], at: usize, tag: u8, records: &[u8], size: usize, n: usize)
    requires n_in_bounds { at + (3 + size) * n ≤ length p.old }
    requires n_in_bounds_2 { size * n ≤ length records.now }
    requires size_bound { size < 65536 }
    ensures { p.new ≡ lay p.old at (fields tag (chunks size n records.now 0)) }
{
    for k in 0..n {
        let from = size * k;
        lay_field(p, at + (3 + size) * k, tag, &records[from..from + size]);
    }
}
