// Tags and lengths: one table for commands and page fields.
ghost use Rattle.std.specs.Prelude.{map, ◌≡◌};
ghost use Rattle.wire.specs.Tag.{rows, row_of, spelt, length_of, allowed, is_node_bytes};

// The payload length that a tag asks for.
#[derive(Clone, Copy, Debug, PartialEq, Eq)]
pub enum Length {
    // Always this length.
    Exact(u32),
    // 7 bytes and 8 for each of 0 to 24 pairs: a whole node, field 11.
    Node,
}

// One entry for each command and page field in use, and none besides: its tag, then its payload length, FE for a whole node's.
const TABLE: [u16; 13] = [
    // Commands: get, put, delete, scan, panel, ceiling.
    0x0104, 0x0208, 0x0304, 0x040A, 0x0501, 0x0704,
    // Page fields: sequence number, whole node, log entry, tariff, score, node count, sums.
    0x1004, 0x11FE, 0x120F, 0x1320, 0x1406, 0x1502, 0x1F04,
];

// The length that an entry's lower byte spells.
fn spelt(byte: u16) -> Length
    ensures { result ≡ spelt byte }
{
    if byte == 0xFE {
        Length::Node
    } else {
        Length::Exact(u32::from(byte))
    }
}

// Searches a table that has one entry for each row of the documents, in order, and none besides.
fn find(entries: &[u16], tag: u8) -> Option<Length>
    requires { map row_of entries.now ≡ rows }
    ensures { result ≡ length_of tag }
{
    for entry in entries {
        if *entry / 256 == u16::from(tag) {
            return Some(spelt(*entry % 256));
        }
    }
    None
}

// The length that a tag asks for; none where there is no such tag.
pub fn length_of(tag: u8) -> Option<Length>
    ensures { result ≡ length_of tag }
{
    find(&TABLE, tag)
}

// Whether so many bytes are a whole node's: 7 + 8k, k from 0 to 24.
#[tactic(auto, unfolding(crate::specs::Tag::is_node_bytes))]
fn is_node_length(bytes: u32) -> bool
    ensures { result ≡ is_node_bytes bytes }
{
    bytes % 8 == 7 && bytes <= 199
}

// Whether a tag may have a payload of so many bytes.
pub fn may_have(tag: u8, bytes: u32) -> bool
    ensures { result ≡ allowed (length_of tag) bytes }
{
    match length_of(tag) {
        Some(Length::Exact(n)) => bytes == n,
        Some(Length::Node) => is_node_length(bytes),
        None => false,
    }
}
