//! What clients share: what is refused to one that doesn't hold it, and to one that takes down a buffer whose resource is
//! live. What is refused changes nothing, as the next acts tell.

ghost use Rattle.std.specs.Prelude.{◌≡◌, [], IfOk};
ghost use Rattle.vg_share.specs.Share.{SharesPages};

use std::alloc::Global;
use std::test::Fail;
use vg_pages::Pages;
use vg_share::{Geometry, PageList, Share, ShareRefusal};

/// Memory of three pages and two scanouts, and buffer 1 of one page, which client 1 holds.
fn one_buffer(alloc: Global) -> Result<(Pages, Share), Fail>
    ensures pages { IfOk result (λ made. SharesPages made.0 made.1) }
    ensures exports { IfOk result (λ made. made.1.exports ≡ []) }
{
    let mut pages = Pages::new(alloc, 3)?;
    let mut share = Share::new(alloc, 2)?;
    let geometry = Geometry {
        width: 1,
        height: 1,
        format: 1,
        bytes: 4,
    };
    let list = pages.lowest(alloc, 1)?.ok_or("no page is free")?;
    let list = PageList::from_vec(alloc, list)?;
    share.reserve(alloc, &mut pages, 1, &geometry, &list)?;
    Ok((pages, share))
}

/// Whether client 1 may store four bytes in buffer 1.
fn is_stored(share: &Share) -> bool {
    share.place(1, 1, 0, 4).is_ok()
}

#[test]
fn stores_and_releases_are_a_holders(rt: HostRuntime) -> Result<(), Fail> {
    let (_, mut share) = one_buffer(rt.alloc())?;
    assert!(&rt; matches!(share.place(2, 1, 0, 4), Err(ShareRefusal::NotHeld)));
    assert!(&rt; matches!(share.place(2, 1, 0, 5), Err(ShareRefusal::NotHeld)));
    assert!(&rt; matches!(share.place(2, 2, 0, 4), Err(ShareRefusal::UnknownKey)));
    let done = share.release(2, 1, None);
    assert!(&rt; matches!(done, Err(ShareRefusal::NotHeld)) && is_stored(&share));
    Ok(())
}

#[test]
fn exports_are_a_holders(rt: HostRuntime) -> Result<(), Fail> {
    let (_, mut share) = one_buffer(rt.alloc())?;
    let done = share.export(2, 1)?;
    assert!(&rt; matches!(done, Err(ShareRefusal::NotHeld)) && is_stored(&share));
    let done = share.import(2, 1)?;
    assert!(&rt; matches!(done, Err(ShareRefusal::UnknownKey)));
    Ok(())
}

#[test]
fn leases_end_by_who_has_them(rt: HostRuntime) -> Result<(), Fail> {
    let (_, mut share) = one_buffer(rt.alloc())?;
    assert!(&rt; share.take_scanout(1, 0).is_ok());
    let done = share.drop_scanout(2, 0, false);
    assert!(&rt; matches!(done, Err(ShareRefusal::NotHeld)) && share.is_leased(1, 0));
    let done = share.drop_scanout(1, 1, true);
    assert!(&rt; matches!(done, Err(ShareRefusal::NotHeld)) && share.is_leased(1, 0));
    Ok(())
}

#[test]
fn a_buffer_is_freed_by_who_takes_it_down(rt: HostRuntime) -> Result<(), Fail> {
    let (mut pages, mut share) = one_buffer(rt.alloc())?;
    let done = share.free(&mut pages, 1, 1, true);
    assert!(&rt; matches!(done, Err(ShareRefusal::NotHeld)) && is_stored(&share));
    let done = share.release(1, 1, None);
    assert!(&rt; matches!(done, Ok(true)) && !is_stored(&share));
    let done = share.free(&mut pages, 2, 1, false);
    assert!(&rt; matches!(done, Err(ShareRefusal::NotHeld)) && pages.free() == 2);
    let done = share.free(&mut pages, 1, 1, true);
    assert!(&rt; matches!(done, Err(ShareRefusal::ResourceLive)) && pages.free() == 2);
    let done = share.free(&mut pages, 1, 1, false);
    assert!(&rt; done.is_ok() && pages.free() == 3);
    Ok(())
}
