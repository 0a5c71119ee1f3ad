// Every size and limit of the two documents, for code; specs/Layout.antt names the same for contracts.
#![tactic(auto)]

ghost use Rattle.std.specs.Prelude.{◌≡◌, ◌≤◌};
ghost use Rattle.layout.specs.Blocks.{blocks_if};
ghost use Rattle.layout.specs.Layout.{node_limit, fewest_blocks, most_blocks, most_nodes};

// The pool: blocks of 32 pages of 512 bytes.
pub const PAGE_BYTES: usize = 512;

pub const PAGES_IN_BLOCK: usize = 32;

pub const BLOCK_BYTES: usize = PAGE_BYTES * PAGES_IN_BLOCK;

pub const FEWEST_BLOCKS: usize = 4;

pub const MOST_BLOCKS: usize = 64;

pub const MOST_PAGES: usize = PAGES_IN_BLOCK * MOST_BLOCKS;

// The map of live pages: a bit a page.
pub const LIVE_BYTES: usize = MOST_PAGES / 8;

// The work table: 64 rows of 16 bytes for each block; a node due in the tree check has 16 bytes there too.
pub const ROW_BYTES: usize = 16;

pub const TABLE_BYTES: usize = 1024;

pub const DUE_BYTES: usize = 16;

// The tree: nodes of up to 24 keys; the first 12 keys stay in a split; the link of the last leaf, and the greatest key.
pub const MOST_KEYS: usize = 24;

pub const KEPT_KEYS: usize = 12;

pub const MOST_NODES: usize = 10 * (MOST_BLOCKS - 2);

pub const NO_LEAF: u32 = 4294967295;

pub const LAST_KEY: u32 = 4294967295;

// The log: entries of 15 bytes, their field 18, 27 on a page and in the buffer.
pub const ENTRY_BYTES: usize = 15;

pub const ENTRY_FIELD: usize = 3 + ENTRY_BYTES;

pub const MOST_ENTRIES: usize = 27;

pub const BUFFER_BYTES: usize = ENTRY_BYTES * MOST_ENTRIES;

// A checkpoint: the tariff's 32 bytes in front of up to 50 scores on the first page, up to 54 scores on each other. A score is 6 bytes, its
// field 9; the fields begin behind the 7 bytes of the sequence number, the first page's scores behind the tariff's field.
pub const TARIFF_BYTES: usize = 32;

pub const FIRST_SCORES: usize = 50;

pub const OTHER_SCORES: usize = 54;

pub const SCORE_BYTES: usize = 6;

pub const SCORE_FIELD: usize = 3 + SCORE_BYTES;

pub const FIELDS_AT: usize = 7;

pub const FIRST_SCORES_AT: usize = FIELDS_AT + 3 + TARIFF_BYTES;

pub const SCORES_LESS: usize = OTHER_SCORES - FIRST_SCORES;

pub const SCORES_ROUND_UP: usize = SCORES_LESS + OTHER_SCORES - 1;

// A batch, a scan, the panels of a wall, the length of a queue, and the sequence numbers with which a pool opens.
pub const MOST_BATCH_BYTES: usize = 32768;

pub const MOST_PAIRS: usize = 32;

pub const PANELS: usize = 16;

pub const LENGTH_BYTES: usize = 4;

pub const LAST_SEQUENCE: u32 = 4000000000;

pub const MOST_SEQUENCE: u32 = 4294967295;

// How many nodes a pool of so many blocks may have.
pub fn node_limit(blocks: usize) -> usize
    requires { (fewest_blocks ≤ blocks) × (blocks ≤ most_blocks) }
    ensures { (result ≡ node_limit blocks) × (result ≤ most_nodes) }
{
    10 * (blocks - 2)
}

// How many blocks a pool of so many bytes has, where a pool has that length.
#[tactic(auto, unfolding(crate::specs::Blocks::blocks_if))]
pub fn pool_blocks(bytes: usize) -> Option<usize>
    ensures { result ≡ blocks_if bytes }
{
    let blocks = bytes / BLOCK_BYTES;
    if blocks < FEWEST_BLOCKS || MOST_BLOCKS < blocks || BLOCK_BYTES * blocks != bytes {
        return None;
    }
    Some(blocks)
}
