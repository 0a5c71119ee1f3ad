// The commands of a batch and their answers, as bytes.
#![tactic(auto)]

pub mod answers;
pub mod batch;

// What a caller may ask: document 01's look up, hang, strip and sweep; of document 02, the current panel from here on (P2), and the next route up (P3).
#[derive(Clone, Copy, Debug, PartialEq, Eq)]
pub enum Command {
    Get { key: u32 },
    Put { key: u32, value: u32 },
    Delete { key: u32 },
    Scan { low: u32, high: u32, most: u32 },
    Panel { panel: usize },
    Ceiling { key: u32 },
}

// What a whole batch asks for: room for its answers; how many commands it has, and how many of them name a panel.
#[derive(Clone, Copy, Debug, PartialEq, Eq)]
pub struct Asked {
    pub room: usize,
    pub commands: usize,
    pub named: usize,
}

// An answer of 7 bytes or fewer: no such key; the value read; the value replaced; the value removed; refused, with the number, which is the byte that
// document 01 puts there.
#[derive(Clone, Copy, Debug, PartialEq, Eq)]
pub enum Answer {
    Absent,
    Got(u32),
    Replaced(u32),
    Deleted(u32),
    Refused(u8),
}
