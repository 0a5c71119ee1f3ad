// Records of one size, laid one behind another: a table of them is a byte slice, and a slot of it is a record.
ghost use Rattle.std.specs.Prelude.{◌≡◌, List, [], ℕ, ◌+◌, ◌*◌, ◌≤◌, ◌<◌, length, map, get_or, set};
ghost use Rattle.laws.specs.Chunks.{chunks};

// What may stand in a table: a value that so many bytes spell.
pub trait Record {
    ghost BYTES: { ℕ };

    const BYTES: usize;

    // The record that bytes spell, the records of a table, and what is read behind the last of them.
    ghost decoded: { List ℕ → Self };

    ghost table: { List ℕ → List Self };

    ghost nothing: { Self };

    fn decode(part: &[u8]) -> Self
        requires { length part.now ≡ BYTES }
        ensures { result ≡ decoded part.now };

    // Lays the record over a part of its size, which reads back as it.
    fn encode(self, part: &mut [u8])
        requires { length part.old ≡ BYTES }
        ensures { decoded part.new ≡ self };

    ghost some_bytes: { 1 ≤ BYTES };

    ghost tabled: { (s : List ℕ) → table s ≡ map decoded (chunks BYTES s) };

    ghost behind: { nothing ≡ decoded [] };
}

// A record that tells each of its bytes, so that code that knows no more of the type may count on them.
pub trait Bytewise: Record {
    ghost encoded: { Self → List ℕ };

    // Lays these bytes over a part of their size; they read back as the record.
    fn lay(self, part: &mut [u8])
        requires { length part.old ≡ Self.BYTES }
        ensures bytes { part.new ≡ encoded self }
        ensures back { Self.decoded part.new ≡ self };
}

// The record in a slot.
pub fn read<R: Record>(table: &[u8], slot: usize) -> R
    requires { R.BYTES * slot + R.BYTES ≤ length table.now }
    ensures { result ≡ get_or (R.table table.now) slot R.nothing }
{
    let size = R::BYTES;
    let from = size * slot;
    R::decode(&table[from..from + size])
}

// The record laid in a slot.
pub fn write<R: Record>(table: &mut [u8], slot: usize, row: R)
    requires { R.BYTES * slot + R.BYTES ≤ length table.old }
    ensures { R.table table.new ≡ set (R.table table.old) slot row }
{
    let size = R::BYTES;
    let from = size * slot;
    row.encode(&mut table[from..from + size]);
}

#[cfg(test)]
mod tests;
