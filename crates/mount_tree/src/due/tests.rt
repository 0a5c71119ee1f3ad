// The sixteen bytes of a node due, as they were worked out by hand.
use super::Due;
use wire::record::Bytewise;

#[test]
fn a_node_due_is_laid_in_its_bytes(rt: HostRuntime) {
    let due = Due {
        id: 0x0102_0304,
        depth: 5,
        high: 0x0607_0809_0A0B_0C0D,
    };
    let mut part = [255; 16];
    due.lay(&mut part);
    assert_eq!(rt; part, [1, 2, 3, 4, 0, 0, 0, 5, 6, 7, 8, 9, 10, 11, 12, 13]);
}
