use std::alloc::{AllocError, Global};
use std::test::Fail;
use vg_pages::Pages;

fn first_two(alloc: Global) -> Result<Option<Vec<u32>>, AllocError> {
    let mut memory = Pages::new(alloc, 3)?;
    memory.take(alloc, 2)
}

#[test]
fn the_lowest_free_pages_are_taken(rt: HostRuntime) -> Result<(), Fail> {
    let pages = first_two(rt.alloc())?.ok_or("too few are free")?;
    assert!(rt; pages.as_slice() == [0, 1].as_slice());
    Ok(())
}

fn may_be_sent_and_shared<T: Send + Sync>() {}

#[test]
fn pages_may_be_sent_and_shared() {
    may_be_sent_and_shared::<Pages>();
}
