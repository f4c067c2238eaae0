use bad144_table::*;
use pack_geometry::DriveKind;

// The bytes of the table of an RP06 without an entry, except four bytes that are changed.
fn changed(at: usize, new: [u8; 4]) -> [u8; 512] {
    let mut bytes = [0; 512];
    write_table(&empty_table(DriveKind::Rp06, 7), &mut bytes);
    if at <= 508 {
        bytes[at..at + 4].copy_from_slice(&new);
    }
    bytes
}

// A place, four bytes that are put there, and the fault that they cause.
static FAULTS: [(usize, [u8; 4], TableFault); 5] = [
    (4, [1, 0, 0, 0], TableFault::Zero),
    (4, [0, 0, 1, 0], TableFault::Flag),
    // cylinder 815 is the first one that an RP06 does not have
    (8, [0x2f, 0x03, 0, 0], TableFault::Range(0)),
    (12, [0; 4], TableFault::AfterEnd(1)),
    (508, [0xff, 0xff, 0xff, 0xfe], TableFault::AfterEnd(125)),
];

fn is_refused(bytes: &[u8; 512], wanted: &TableFault) -> bool {
    match read_table(DriveKind::Rp06, bytes) {
        Ok(_) => false,
        Err(fault) => fault == *wanted,
    }
}

#[test]
fn table_faults(rt: HostRuntime) {
    assert!(rt; is_refused(&[0; 512], &TableFault::Order(1)));
    for row in &FAULTS {
        assert!(rt; is_refused(&changed(row.0, row.1), &row.2));
    }
}
