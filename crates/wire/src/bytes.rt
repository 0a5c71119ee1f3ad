// Bytes laid over buffers.
ghost use Rattle.std.specs.Prelude.{◌≡◌, [], ◌∷◌, ◌+◌, ◌-◌, ◌≤◌, ◌<◌, length, replicate};
ghost use Rattle.laws.specs.Lay.{lay};

// Lays one byte over a buffer at a place.
pub fn lay_byte(dst: &mut [u8], at: usize, byte: u8)
    requires { at < length dst.old }
    ensures { dst.new ≡ lay dst.old at (byte ∷ []) }
{
    dst[at] = byte;
}

// Lays bytes over a buffer at a place.
pub fn lay_bytes(dst: &mut [u8], at: usize, src: &[u8])
    requires { at + length src.now ≤ length dst.old }
    ensures { dst.new ≡ lay dst.old at src.now }
{
    dst[at..at + src.len()].copy_from_slice(src);
}

// Fills a whole buffer with one byte.
pub fn fill(dst: &mut [u8], byte: u8)
    ensures { dst.new ≡ replicate (length dst.old) byte }
{
    dst.fill(byte);
}

// Fills the part of a buffer from one place to another with one byte.
pub fn fill_part(dst: &mut [u8], from: usize, to: usize, byte: u8)
    requires { (from ≤ to) × (to ≤ length dst.old) }
    ensures { dst.new ≡ lay dst.old from (replicate (to - from) byte) }
{
    dst[from..to].fill(byte);
}
