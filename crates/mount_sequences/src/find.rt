// A number looked for in a row that ascends.
ghost use Rattle.std.specs.Prelude.{◌≡◌, ◌*◌};
ghost use Rattle.mount_sequences.specs.Row.{row};
ghost use Rattle.mount_sequences.specs.Find as def;
ghost use Rattle.mount_sequences.specs.Find.{Ascending};

use wire::number::read32;

// Whether the row has a number, by halves. The buffer has its numbers most significant byte first, which std's `binary_search` can't read.
pub fn has(table: &[u8], n: usize, v: u32) -> bool
    requires { Ascending table.now n }
    ensures { result ≡ def.has (row n 0 table.now) v }
{
    let mut low = 0;
    let mut high = n;
    while low < high {
        let middle = low + (high - low) / 2;
        let number = read32(table, 4 * middle);
        if number == v {
            return true;
        }
        if number < v {
            low = middle + 1;
        } else {
            high = middle;
        }
    }
    false
}
