// Numbers in buffers, most significant byte first.
ghost use Rattle.std.specs.Prelude.{◌≡◌, ◌+◌, ◌≤◌, ◌<◌, length, get_or};
ghost use Rattle.laws.specs.Lay.{lay};
ghost use Rattle.laws.specs.BigEndian.{big_endian};
ghost use Rattle.wire.specs.Read.{Read};

// The byte at a place.
pub fn read8(s: &[u8], at: usize) -> u32
    requires { at < length s.now }
    ensures { (result ≡ get_or s.now at 0) × (result < 256) }
{
    u32::from(s[at])
}

// The 16-bit number at a place.
pub fn read16(s: &[u8], at: usize) -> u32
    requires { at + 2 ≤ length s.now }
    ensures { Read 2 s.now at result }
{
    u32::from(u16::from_be_bytes([s[at], s[at + 1]]))
}

// The 32-bit number at a place.
pub fn read32(s: &[u8], at: usize) -> u32
    requires { at + 4 ≤ length s.now }
    ensures { Read 4 s.now at result }
{
    u32::from_be_bytes([s[at], s[at + 1], s[at + 2], s[at + 3]])
}

// Lays a 16-bit number over a buffer at a place.
pub fn write16(s: &mut [u8], at: usize, v: u32)
    requires { (at + 2 ≤ length s.old) × (v < 65536) }
    ensures { s.new ≡ lay s.old at (big_endian 2 v) }
{
    s[at..at + 2].copy_from_slice(&(v as u16).to_be_bytes());
}

// Lays a 32-bit number over a buffer at a place.
pub fn write32(s: &mut [u8], at: usize, v: u32)
    requires { at + 4 ≤ length s.old }
    ensures { s.new ≡ lay s.old at (big_endian 4 v) }
{
    s[at..at + 4].copy_from_slice(&v.to_be_bytes());
}
