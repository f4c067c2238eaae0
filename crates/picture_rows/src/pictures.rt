// The picture of each example.
use crate::texts::{EXAMPLES, Example};
use crate::views::view_of;
use sha2::{Digest, Sha256};
use std::alloc::Global;

/// Whether the picture of an example is its own.
fn has_picture(alloc: Global, example: &Example) -> bool {
    let ended = view_of(alloc, "svg", example.script, example.trace);
    ended.status == 0 && Sha256::digest(ended.out.as_slice()) == *example.picture
}

#[test]
fn each_example(rt: HostRuntime) {
    for example in &EXAMPLES {
        assert!(rt; has_picture(rt.alloc(), example), "{}", example.name);
    }
}
