// What a page is, decided in one pass.
ghost use Rattle.std.specs.Prelude.{◌≡◌, ◌||◌, ◌+◌, ◌*◌, ◌<◌, eqb, length};
ghost use Rattle.layout.specs.Layout.{page_bytes, most_entries};
ghost use Rattle.wire.specs.Field.{payload_at};
ghost use Rattle.page.specs.Decode.{entry_ok, run, decode_log, decode_node, decode_counted, decode_checkpoint};
ghost use Rattle.page_read.specs.View.{view, view_of};
ghost use Rattle.page_read.specs.Asked.{Asked};

use super::field::{count_entries, count_scores};
use super::seal::{all_blank, is_sealed, sequence};
use layout::{
    ENTRY_FIELD, FIELDS_AT, FIRST_SCORES, FIRST_SCORES_AT, OTHER_SCORES, SCORE_FIELD, TARIFF_BYTES,
};
use node::Shape;
use page::shape_of;
use wire::field::payload;
use wire::number::read16;

// A page in short.
#[derive(Clone, Copy)]
pub enum PageView {
    Blank,
    // A log page and how many entries it has.
    Log {
        sequence: u32,
        entries: usize,
    },
    // A node page: the node's id, its shape and how many keys it has.
    NodePage {
        sequence: u32,
        id: u32,
        shape: Shape,
        keys: usize,
    },
    // A checkpoint page: whether it begins with the tariff, how many scores it has, and on the last page of a checkpoint the node count.
    Checkpoint {
        sequence: u32,
        first: bool,
        scores: usize,
        nodes: Option<u32>,
    },
    // Bytes that do not check.
    Bad,
}

// A log page.
fn view_log(page: &[u8], sequence: u32) -> PageView
    requires { length page.now ≡ page_bytes }
    ensures { result ≡ view (decode_log sequence
        (run (entry_ok sequence) 0x12 18 most_entries page.now 7) page.now) }
{
    let entries = count_entries(page, sequence);
    if entries < 1 {
        return PageView::Bad;
    }
    if !is_sealed(page, FIELDS_AT + ENTRY_FIELD * entries) {
        return PageView::Bad;
    }
    PageView::Log { sequence, entries }
}

// Whether a number says leaf or branch.
fn is_shape(number: u8) -> bool
    ensures { result ≡ (eqb number 3 || eqb number 4) }
{
    matches!(number, 3 | 4)
}

// A node page.
fn view_node(page: &[u8], sequence: u32) -> PageView
    requires { length page.now ≡ page_bytes }
    ensures { result ≡ view (decode_node sequence (payload_at page.now 7 0x11) page.now) }
{
    let p = payload(page, FIELDS_AT, 0x11);
    let bytes = p.len();
    if bytes < 7 {
        return PageView::Bad;
    }
    if !is_shape(p[2]) {
        return PageView::Bad;
    }
    if !is_sealed(page, FIELDS_AT + 3 + bytes) {
        return PageView::Bad;
    }
    PageView::NodePage {
        sequence,
        id: read16(p, 0),
        shape: shape_of(p[2]),
        keys: (bytes - 7) / 8,
    }
}

// A checkpoint page whose n scores stand from a place on.
fn view_scores(
    page: &[u8],
    sequence: u32,
    first: bool,
    at: usize,
    n: usize,
    most: usize,
) -> PageView
    requires { Asked page.now first at n most }
    ensures { result ≡ view (decode_counted sequence (payload_at page.now 7 0x13) at n
        page.now) }
{
    if n < 1 {
        return PageView::Bad;
    }
    let end = at + SCORE_FIELD * n;
    let c = payload(page, end, 0x15);
    if c.len() != 2 {
        if n != most {
            return PageView::Bad;
        }
        if !is_sealed(page, end) {
            return PageView::Bad;
        }
        return PageView::Checkpoint {
            sequence,
            first,
            scores: n,
            nodes: None,
        };
    }
    if !is_sealed(page, end + 5) {
        return PageView::Bad;
    }
    PageView::Checkpoint {
        sequence,
        first,
        scores: n,
        nodes: Some(read16(c, 0)),
    }
}

// A checkpoint page.
fn view_checkpoint(page: &[u8], sequence: u32) -> PageView
    requires { length page.now ≡ page_bytes }
    ensures { result ≡ view (decode_checkpoint sequence (payload_at page.now 7 0x13) page.now) }
{
    let t = payload(page, FIELDS_AT, 0x13);
    if t.len() != TARIFF_BYTES {
        let n = count_scores(page, FIELDS_AT, OTHER_SCORES);
        return view_scores(page, sequence, false, FIELDS_AT, n, OTHER_SCORES);
    }
    let n = count_scores(page, FIRST_SCORES_AT, FIRST_SCORES);
    view_scores(page, sequence, true, FIRST_SCORES_AT, n, FIRST_SCORES)
}

// What a page is.
pub fn view_page(page: &[u8]) -> PageView
    requires { length page.now ≡ page_bytes }
    ensures { result ≡ view_of page.now }
{
    if all_blank(page) {
        return PageView::Blank;
    }
    let s = sequence(page);
    if s < 1 {
        return PageView::Bad;
    }
    match page[FIELDS_AT] {
        0x12 => view_log(page, s),
        0x11 => view_node(page, s),
        _ => view_checkpoint(page, s),
    }
}
