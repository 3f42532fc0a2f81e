use std::alloc::{AllocError, Global};
use std::test::Fail;
use vg_list::Seq;

fn gain(alloc: Global) -> Result<Seq<u32>, AllocError> {
    let mut list = Seq::from_vec(Vec::new(alloc));
    for element in 3..6 {
        list.push(element)?;
    }
    list.as_mut_slice().reverse();
    Ok(list)
}

#[test]
fn gains_and_loses_elements(rt: HostRuntime) -> Result<(), Fail> {
    let mut list = gain(rt.alloc())?;
    assert!(rt; list.clone()? == list);
    assert!(rt; list.pop() == Some(3));
    if list.len() > 1 {
        assert!(rt; list.remove(0) == 5);
    }
    assert!(rt; list.into_vec().as_slice() == [4].as_slice());
    Ok(())
}
