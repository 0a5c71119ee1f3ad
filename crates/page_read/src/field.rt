// The fields of a content: log entries and scores, how many stand one behind another, and the values in them.
ghost use Rattle.std.specs.Prelude.{◌≡◌, List, ℕ, Bool, ◌+◌, ◌*◌, ◌^◌, ◌≤◌, ◌<◌, eqb};
ghost use Rattle.std.specs.Fn.{FnReturnsAt};
ghost use Rattle.laws.specs.Tests.{choose};
ghost use Rattle.layout.specs.Layout.{most_entries};
ghost use Rattle.page.specs.Decode.{change_ok, entry_ok, score_ok, run};

use layout::{ENTRY_BYTES, ENTRY_FIELD, FIELDS_AT, MOST_ENTRIES, SCORE_BYTES, SCORE_FIELD};
use wire::field::payload;
use wire::number::read32;

// The number that a change of a kind leaves unused; none where it uses both.
fn unused(kind: u8, key: u32, pointer: u32) -> u32
    ensures { result ≡ choose (eqb kind 1) 0 (choose (eqb kind 2) pointer key) }
{
    match kind {
        1 => 0,
        2 => pointer,
        _ => key,
    }
}

// Whether a log entry's kind, key and pointer may stand together. No branch is on the kind, which changes from entry to entry: a number is picked, and
// it is 0 in all that check.
fn change_ok(kind: u8, key: u32, pointer: u32) -> bool
    ensures { result ≡ change_ok kind key pointer }
{
    if kind < 1 || 4 < kind {
        return false;
    }
    unused(kind, key, pointer) == 0
}

// Whether a payload is that of an entry that a page of this sequence number may have.
pub fn entry_ok(p: &[u8], sequence: u32) -> bool
    ensures { result ≡ entry_ok sequence p.now }
{
    if p.len() != ENTRY_BYTES {
        return false;
    }
    let version = read32(p, 2);
    if version < 1 || sequence <= version {
        return false;
    }
    change_ok(p[6], read32(p, 7), read32(p, 11))
}

// How many fields of a tag stand one behind another from a place on, each of so many bytes and with a payload that passes; at most so many.
fn count_fields<F: Fn(&[u8]) -> bool>(
    page: &[u8],
    from: usize,
    tag: u8,
    size: usize,
    most: usize,
    passes: F,
) -> usize
    requires passes { F.IsAlwaysCallable passes }
    requires room { from + size * most < 2 ^ 64 }
    ensures { ((test : List ℕ → Bool) → ((p : List ℕ) (r : Bool) → FnReturnsAt F.Fn passes p r → r ≡ test p) →
        result ≡ run test tag size most page.now from) × (result ≤ most) }
{
    let mut at = from;
    for n in 0..most {
        if !passes(payload(page, at, tag)) {
            return n;
        }
        at += size;
    }
    most
}

// How many fields 12 stand behind field 10 that a page of this sequence number may have.
pub fn count_entries(page: &[u8], sequence: u32) -> usize
    ensures { (result ≡ run (entry_ok sequence) 0x12 18 most_entries page.now 7) × (result ≤ most_entries) }
{
    count_fields(
        page,
        FIELDS_AT,
        0x12,
        ENTRY_FIELD,
        MOST_ENTRIES,
        |p| entry_ok(p, sequence),
    )
}

// How many fields 14 stand from a place on, at most so many.
pub fn count_scores(page: &[u8], from: usize, most: usize) -> usize
    requires { (from ≤ 4096) × (most ≤ 4096) }
    ensures { (result ≡ run score_ok 0x14 9 most page.now from) × (result ≤ most) }
{
    count_fields(
        page,
        from,
        0x14,
        SCORE_FIELD,
        most,
        |p| p.len() == SCORE_BYTES,
    )
}
