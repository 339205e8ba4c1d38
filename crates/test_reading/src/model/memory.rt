//! The text of the error for lack of memory.
use crate::assertion::assert_same;
use std::alloc::AllocError;
use vrp_model::NoMemory;

#[test]
fn text(rt: HostRuntime) {
    let text = NoMemory::from(AllocError)
        .to_string(rt.alloc())
        .expect(&rt, "memory");
    assert_same(&rt, text.as_str(), "out of memory", "the text");
}
