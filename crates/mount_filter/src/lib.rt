// A mark for each number of a row, in the second half of the table, so that one look tells of most numbers that the row has not got them.
#![tactic(auto)]

ghost use Rattle.std.specs.Prelude.{◌≡◌, ◌*◌, ◌≤◌, ◌<◌, length, replicate};
ghost use Rattle.laws.specs.Lay.{lay};
ghost use Rattle.layout.specs.Layout.{fewest_blocks, table_bytes};
ghost use Rattle.mount_sequences.specs.Row.{row};
ghost use Rattle.mount_sequences.specs.Find as find;
ghost use Rattle.mount_filter.specs.Marks as def;
ghost use Rattle.mount_sequences.specs.Find.{Ascending};
ghost use Rattle.mount_filter.specs.Marks.{mark_of, fingerprint, excludes, marks_at, Room, Marked, Marking};

use layout::TABLE_BYTES;
use mount_sequences::find::has;
use wire::bytes::fill_part;
use wire::number::read32;

// The marks are the second half of the table: so many bytes a block.
const MARK_BYTES: usize = TABLE_BYTES / 2;

// The place of a number's mark among the marks: the more blocks, the more marks. Each remainder is by a literal, which no processor has to divide by.
#[tactic(auto, unfolding(crate::specs::Marks::mark_of))]
fn mark_of(blocks: usize, v: u32) -> usize
    requires { fewest_blocks ≤ blocks }
    ensures { (result ≡ mark_of blocks v) × (result < marks_at blocks) }
{
    let place = match blocks {
        64.. => v % 32768,
        32.. => v % 16384,
        16.. => v % 8192,
        8.. => v % 4096,
        _ => v % 2048,
    };
    place as usize
}

// A number's print.
#[tactic(auto, unfolding(crate::specs::Marks::fingerprint))]
fn fingerprint(v: u32) -> u8
    ensures { result ≡ fingerprint v }
{
    (v / 2048 % 254 + 1) as u8
}

// A mark with one print more.
#[tactic(auto, unfolding(crate::specs::Marks::with_fingerprint))]
fn with_fingerprint(mark: u8, print: u8) -> u8
    ensures { result ≡ def.with_fingerprint mark print }
{
    if mark == 0 || mark == print {
        print
    } else {
        255
    }
}

// Whether a mark says that a number is not there.
#[tactic(auto, unfolding(crate::specs::Marks::excludes))]
fn excludes(mark: u8, v: u32) -> bool
    ensures { result ≡ excludes mark v }
{
    mark == 0 || (mark != 255 && mark != fingerprint(v))
}

// Takes all marks away: for speed alone, the row stays as it is.
fn clear(table: &mut [u8], blocks: usize)
    requires { length table.old ≡ table_bytes blocks }
    ensures { table.new ≡ lay table.old (marks_at blocks) (replicate (marks_at blocks) 0) }
{
    let from = MARK_BYTES * blocks;
    fill_part(table, from, from + from, 0);
}

// Sets the marks of a row's numbers.
fn set_marks(table: &mut [u8], n: usize, blocks: usize)
    requires { Room table.old n blocks }
    ensures { Marking table.old table.new n blocks }
{
    for i in 0..n {
        let v = read32(table, 4 * i);
        let at = MARK_BYTES * blocks + mark_of(blocks, v);
        table[at] = with_fingerprint(table[at], fingerprint(v));
    }
}

// Marks a row's numbers, and clears all other marks. The marks are left open but for this: one that rules a number out is right.
pub fn mark(table: &mut [u8], n: usize, blocks: usize)
    requires { Room table.old n blocks }
    ensures { Marking table.old table.new n blocks }
{
    clear(table, blocks);
    set_marks(table, n, blocks);
}

// Whether the row has a number: no where its mark rules it out.
pub fn has_marked(table: &[u8], n: usize, blocks: usize, v: u32) -> bool
    requires { Ascending table.now n × Marked table.now n blocks }
    ensures { result ≡ find.has (row n 0 table.now) v }
{
    let mark = table[MARK_BYTES * blocks + mark_of(blocks, v)];
    !excludes(mark, v) && has(table, n, v)
}
