// The values in single fields of a page, each found by the tag table.
ghost use Rattle.std.specs.Prelude.{◌≡◌, ◌+◌, ◌*◌, ◌≤◌, ◌<◌, length};
ghost use Rattle.layout.specs.Layout.{other_scores, first_scores_at};
ghost use Rattle.wire.specs.Field.{payload_at};
ghost use Rattle.page.specs.Decode.{tariff_of};
ghost use Rattle.page_read.specs.Value.{score_value, costs_at};

use account::{Costs, Tariff};
use layout::{SCORE_BYTES, SCORE_FIELD};
use wire::field::payload;
use wire::number::{read16, read32};

// A node's score.
#[derive(Clone, Copy, Debug, PartialEq, Eq)]
pub struct ScoreValue {
    pub id: u32,
    pub score: u32,
}

// The score at an index of a checkpoint page whose scores begin at a place; zeros where there is none.
pub fn score_at(page: &[u8], from: usize, i: usize) -> ScoreValue
    requires { (from ≤ first_scores_at) × (i < other_scores) }
    ensures { result ≡ score_value (payload_at page.now (from + 9 * i) 0x14) }
{
    let p = payload(page, from + SCORE_FIELD * i, 0x14);
    if p.len() != SCORE_BYTES {
        return ScoreValue { id: 0, score: 0 };
    }
    ScoreValue {
        id: read16(p, 0),
        score: read32(p, 2),
    }
}

// What reads, edits and rewrites cost in one mode, and what it costs to enter it.
fn costs_at(p: &[u8], at: usize, enter: usize) -> Costs
    requires { (at + 12 ≤ length p.now) × (enter + 4 ≤ length p.now) }
    ensures { result ≡ costs_at p.now at enter }
{
    Costs {
        read: read32(p, at),
        edit: read32(p, at + 4),
        rewrite: read32(p, at + 8),
        enter: read32(p, enter),
    }
}

// The tariff of 32 bytes: a payload of field 13.
pub fn tariff_of(p: &[u8]) -> Tariff
    requires { 32 ≤ length p.now }
    ensures { result ≡ tariff_of p.now }
{
    Tariff {
        log: costs_at(p, 0, 28),
        disk: costs_at(p, 12, 24),
    }
}
