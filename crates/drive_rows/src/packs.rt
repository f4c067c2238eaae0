use mass_outside::mem_packs::{FailCall, MemPacks, PackOp};
use mass_outside::slots::Image;
use outside_traits::traits::Packs;
use std::alloc::Global;

const SECOND_WRITE: FailCall = FailCall {
    op: PackOp::Write,
    number: 2,
};

// Unit 3 has 700 bytes 255, the mark bytes 0 and 7, and room for four blocks; its second write fails.
fn packs(alloc: Global) -> Option<MemPacks> {
    let image = Image {
        unit: 3,
        bytes: vec![in alloc; 0xFF; 700].ok()?,
        marks: Vec::from_slice(alloc, &[0, 7]).ok()?,
        blocks: 4,
    };
    let images = Vec::from_array(alloc, [image]).ok()?;
    MemPacks::new(alloc, images, Vec::from_slice(alloc, &[SECOND_WRITE]).ok()?).ok()
}

// Whether block 1 is marked and its neighbours are not; the first write extends the image, and the second one fails.
fn are_written(packs: &mut MemPacks) -> bool {
    matches!(packs.marked(3, 0), Ok(false))
        && matches!(packs.marked(3, 1), Ok(true))
        && matches!(packs.marked(3, 2), Ok(false))
        && packs.write(3, 2, &[5; 512]).is_ok()
        && packs.write(3, 3, &[5; 512]).is_err()
        && matches!(packs.length(3), Ok(1536))
}

#[test]
fn packs_in_memory(rt: HostRuntime) {
    assert!(rt; packs(rt.alloc()).is_some_and(|mut packs| are_written(&mut packs)));
}
