// The rows of the work table: what a batch keeps of each node while it runs.
#![tactic(auto)]

ghost use Rattle.std.specs.Prelude.{◌≡◌, ◌+◌, ◌*◌, ◌≤◌, ◌<◌, length, get_or, set};
ghost use Rattle.std.proofs.Common.{lit≤};
ghost use Rattle.laws.specs.BigEndian.{number_at};
ghost use Rattle.flash_rows.specs.Row as def;
ghost use Rattle.flash_rows.specs.Row.{mode_byte, mode_from, rows_of, rows_of-is, no_row, no_row-is, row_bytes};
ghost use Rattle.flash_rows.specs.Step as step;

pub mod table;

use account::Mode;
use layout::{PAGES_IN_BLOCK, ROW_BYTES};
use wire::bytes::lay_byte;
use wire::number::{read16, read32, write16, write32};
use wire::record::{self, Bytewise, Record};

// A node's row: its version, score and mode, and the one to three pages that it lies on.
#[derive(Clone, Copy, Debug, PartialEq, Eq)]
pub struct Row {
    pub version: u32,
    pub score: u32,
    pub mode: Mode,
    pub pages: u8,
    pub first: u16,
    pub second: u16,
    pub third: u16,
}

// The row of a node that lies nowhere.
pub fn no_row() -> Row
    ensures { result ≡ no_row }
{
    Row {
        version: 0,
        score: 0,
        mode: Mode::Log,
        pages: 0,
        first: 0,
        second: 0,
        third: 0,
    }
}

// The mode that a byte says.
#[tactic(auto, unfolding(crate::specs::Row::mode_from))]
fn mode_from(byte: u8) -> Mode
    ensures { result ≡ mode_from byte }
{
    match byte {
        0 => Mode::Log,
        _ => Mode::Disk,
    }
}

// The byte that says a mode.
fn mode_byte(mode: Mode) -> u8
    ensures { result ≡ mode_byte mode }
{
    match mode {
        Mode::Log => 0,
        Mode::Disk => 1,
    }
}

// The page number at a place.
fn read_page_number(part: &[u8], at: usize) -> u16
    requires { at + 2 ≤ length part.now }
    ensures { result ≡ number_at 2 part.now at }
{
    read16(part, at) as u16
}

// A row in sixteen bytes of the table.
impl Record for Row {
    ghost BYTES = { row_bytes };

    const BYTES: usize = ROW_BYTES;

    ghost decoded = { def.decode };

    ghost table = { rows_of };

    ghost nothing = { no_row };

    #[tactic(auto, unfolding(crate::specs::Row::decode))]
    fn decode(part: &[u8]) -> Row {
        Row {
            version: read32(part, 0),
            score: read32(part, 4),
            mode: mode_from(part[8]),
            pages: part[9],
            first: read_page_number(part, 10),
            second: read_page_number(part, 12),
            third: read_page_number(part, 14),
        }
    }

    // Its bytes are promised too, where the trait asks only that it reads back.
    fn encode(self, part: &mut [u8])
        requires { length part.old ≡ row_bytes }
        ensures bytes { part.new ≡ def.encode self }
        ensures back { def.decode part.new ≡ self }
    {
        write32(part, 0, self.version);
        write32(part, 4, self.score);
        lay_byte(part, 8, mode_byte(self.mode));
        lay_byte(part, 9, self.pages);
        write16(part, 10, u32::from(self.first));
        write16(part, 12, u32::from(self.second));
        write16(part, 14, u32::from(self.third));
    }

    ghost some_bytes = { lit≤ tt };

    ghost tabled = { rows_of-is };

    ghost behind = { no_row-is };
}

impl Bytewise for Row {
    ghost encoded = { def.encode };

    fn lay(self, part: &mut [u8]) {
        self.encode(part);
    }
}

// The row of a node, or of a checkpoint page being written.
pub fn read_row(table: &[u8], n: usize) -> Row
    requires { row_bytes * n + row_bytes ≤ length table.now }
    ensures { result ≡ get_or (rows_of table.now) n no_row }
{
    record::read(table, n)
}

// The row laid in its place.
pub fn write_row(table: &mut [u8], n: usize, r: Row)
    requires { row_bytes * n + row_bytes ≤ length table.old }
    ensures { rows_of table.new ≡ set (rows_of table.old) n r }
{
    record::write(table, n, r);
}

// Whether slot k is one of the slots in use and holds the page.
#[tactic(auto, unfolding(crate::specs::Step::holds))]
fn holds(k: u8, pages: u8, slot: u16, page: u16) -> bool
    ensures { result ≡ step.holds k pages slot page }
{
    k < pages && slot == page
}

// Where a page lies after the 32 pages from `base` on moved.
#[tactic(auto, unfolding(crate::specs::Step::new_place))]
fn new_place(base: usize, places: &[u16; PAGES_IN_BLOCK], page: u16) -> u16
    ensures { result ≡ step.new_place base places.now page }
{
    let p = usize::from(page);
    if p < base {
        return page;
    }
    let k = p - base;
    if k < PAGES_IN_BLOCK { places[k] } else { page }
}

impl Row {
    // Whether the node lies on a page.
    #[tactic(auto, unfolding(crate::specs::Step::names))]
    pub fn names(self, page: u16) -> bool
        ensures { result ≡ step.names page self }
    {
        holds(0, self.pages, self.first, page)
            || holds(1, self.pages, self.second, page)
            || holds(2, self.pages, self.third, page)
    }

    // The row with one page more.
    #[tactic(auto, unfolding(crate::specs::Step::noted))]
    pub fn note(self, page: u16) -> Row
        ensures { result ≡ step.noted page self }
    {
        match self.pages {
            0 => Row {
                pages: 1,
                first: page,
                ..self
            },
            1 => Row {
                pages: 2,
                second: page,
                ..self
            },
            2 => Row {
                pages: 3,
                third: page,
                ..self
            },
            _ => self,
        }
    }

    // A fresh start of the node: a new version in a mode, on no page yet.
    #[tactic(auto, unfolding(crate::specs::Step::fresh))]
    pub fn fresh(self, version: u32, mode: Mode) -> Row
        ensures { result ≡ step.fresh version mode self }
    {
        Row {
            version,
            mode,
            pages: 0,
            ..self
        }
    }

    // The row with another score.
    #[tactic(auto, unfolding(crate::specs::Step::scored))]
    pub fn scored(self, score: u32) -> Row
        ensures { result ≡ step.scored score self }
    {
        Row { score, ..self }
    }

    // The row with one page more, where an entry of a version, now on a log page, makes it that; none where it leaves the row as it is.
    #[tactic(auto, unfolding(crate::specs::Step::claim))]
    pub fn claim(self, version: u32, page: u16) -> Option<Row>
        ensures { result ≡ step.claim version page self }
    {
        if self.mode == Mode::Disk || self.version != version || self.names(page) {
            return None;
        }
        Some(self.note(page))
    }

    // The row after the 32 pages from `base` on moved.
    #[tactic(auto, unfolding(crate::specs::Step::moved))]
    pub fn moved(self, base: usize, places: &[u16; PAGES_IN_BLOCK]) -> Row
        ensures { result ≡ step.moved base places.now self }
    {
        Row {
            first: new_place(base, places, self.first),
            second: new_place(base, places, self.second),
            third: new_place(base, places, self.third),
            ..self
        }
    }
}

#[cfg(test)]
mod tests;
