// The caller `write_then_read` of `callers`: three blocks over a marked one, of a pack that lists it, and of one that lists none.
use crate::few_blocks::{FewBlocks, Wrong, few_blocks};
use bad144_table::{empty_table, insert};
use callers::{attached, write_then_read};
use mass_outside::mem_streams::SureSink;
use pack_geometry::{DriveKind, Place};
use std::alloc::Global;

/// Block 419 of an RM03.
const MARKED: Place = Place {
    cylinder: 2,
    track: 3,
    sector: 3,
};

/// An RM03 of which block 419 is marked; its five copies of the table list it, or nothing.
fn marked_pack(alloc: Global, listed: bool) -> Option<FewBlocks> {
    let mut packs = few_blocks(alloc, &[419], 0, Wrong::Fails)?;
    let mut table = empty_table(DriveKind::Rm03, 1);
    if listed {
        let _ = insert(&mut table, MARKED);
    }
    for k in 0..5u32 {
        packs.put_copy(DriveKind::Rm03, k, &table);
    }
    Some(packs)
}

/// Whether blocks 418 to 420 come back as they were written exactly if the table lists the marked one, and whether these blocks and the
/// first replacement then begin with these bytes.
fn come_back(alloc: Global, listed: bool, firsts: [u8; 4]) -> Option<bool> {
    let mut packs = marked_pack(alloc, listed)?;
    let mut subsystem = attached(alloc, &mut packs)?;
    let mut from = [1; 1536];
    from[512] = 2;
    from[1024] = 3;
    let mut into = [0; 1536];
    let mut trace = SureSink::new();
    let all = write_then_read(
        &mut subsystem,
        418,
        &from,
        &mut into,
        &mut packs,
        &mut trace,
    )
    .ok();
    let begun = [418, 419, 420, 131_647].map(|block| packs.first_of(block));
    Some(all == Some(listed) && (into == from) == listed && begun == firsts)
}

#[test]
fn three_blocks_over_a_marked_one(rt: HostRuntime) {
    for (listed, firsts) in [(true, [1, 0x77, 3, 2]), (false, [1, 0x77, 0x77, 0x77])] {
        assert!(rt; come_back(rt.alloc(), listed, firsts) == Some(true));
    }
}
