// One checkpoint page: its scores, and the node count where it is the last.
ghost use Rattle.std.specs.Prelude.{◌≡◌, ◌<◌, length};
ghost use Rattle.mount_checkpoint_pages.specs.CheckpointPage.{Standing, Read, fits_in};

use layout::{FIELDS_AT, FIRST_SCORES, FIRST_SCORES_AT, OTHER_SCORES, SCORE_FIELD, TARIFF_BYTES};
use page_read::field::count_scores;
use page_read::seal::sequence;
use wire::field::payload;
use wire::number::read16;

// Where the scores of a checkpoint page begin, and how many there are.
#[derive(Clone, Copy, Debug, PartialEq, Eq)]
pub struct Scores {
    pub from: usize,
    pub count: usize,
}

// What a checkpoint page has: so many scores, and the node count on the last one.
#[derive(Clone, Copy, Debug, PartialEq, Eq)]
pub struct CheckpointPage {
    pub scores: usize,
    pub nodes: Option<u32>,
}

// The scores of a page: behind the tariff, where it has one.
pub fn scores_of(page: &[u8]) -> Scores
    ensures { Standing page.now result }
{
    let tariff = payload(page, FIELDS_AT, 0x13);
    if tariff.len() != TARIFF_BYTES {
        return Scores {
            from: FIELDS_AT,
            count: count_scores(page, FIELDS_AT, OTHER_SCORES),
        };
    }
    Scores {
        from: FIRST_SCORES_AT,
        count: count_scores(page, FIRST_SCORES_AT, FIRST_SCORES),
    }
}

// The scores of a page and the node count behind them.
pub fn checkpoint_page_of(page: &[u8]) -> CheckpointPage
    ensures { Read page.now result }
{
    let s = scores_of(page);
    let count = payload(page, s.from + SCORE_FIELD * s.count, 0x15);
    let nodes = if count.len() == 2 {
        Some(read16(count, 0))
    } else {
        None
    };
    CheckpointPage {
        scores: s.count,
        nodes,
    }
}

// Whether a page may stand in a checkpoint that ends with the newest page: it is no log page and no node page, and has the node
// count exactly if it is the newest.
#[tactic(auto, unfolding(crate::specs::CheckpointPage::fits_in))]
pub fn fits(page: &[u8], newest: u32, counted: bool) -> bool
    requires { 7 < length page.now }
    ensures { result ≡ fits_in newest counted page.now }
{
    match page[FIELDS_AT] {
        0x11 | 0x12 => false,
        _ => (sequence(page) == newest) == counted,
    }
}
