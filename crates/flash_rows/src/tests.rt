// The sixteen bytes of a row, as they were worked out by hand.
use super::Row;
use account::Mode;
use wire::record::Bytewise;

#[test]
fn a_row_is_laid_in_its_bytes(rt: HostRuntime) {
    let row = Row {
        version: 0x0102_0304,
        score: 5,
        mode: Mode::Disk,
        pages: 2,
        first: 0x0607,
        second: 8,
        third: 9,
    };
    let mut part = [255; 16];
    row.lay(&mut part);
    assert_eq!(rt; part, [1, 2, 3, 4, 0, 0, 0, 5, 1, 2, 6, 7, 0, 8, 0, 9]);
}
