//! How many holds of a buffer each client has.

ghost use Rattle.std.specs.List.{position, slice_set};
ghost use Rattle.std.specs.Prelude.{◌≡◌, ◌==◌, ◌<◌, IfSome, OnErr, OnOk, length};
ghost use Rattle.vg_share.specs.Share.{holds_in, some_hold, with_hold, without_hold};

use std::alloc::AllocError;
use vg_list::Seq;

/// How many holds the client has.
pub(crate) fn holds_in(holders: &[(u32, u64)], client: u32) -> u64
    ensures { result ≡ holds_in client holders.now }
{
    match place_of(holders, client) {
        Some(at) => holders[at].1,
        None => 0,
    }
}

/// Whether some client has a hold.
pub(crate) fn some_hold(holders: &[(u32, u64)]) -> bool
    ensures { result ≡ some_hold holders.now }
{
    holders.iter().any(|holder| holder.1 > 0)
}

/// Gives the client one more hold. There is no memory for 2^64 of them.
pub(crate) fn add_hold(holders: &mut Seq<(u32, u64)>, client: u32) -> Result<(), AllocError>
    ensures ok { OnOk result (holders.new ≡ with_hold client holders.old) }
    ensures err { OnErr result (holders.new ≡ holders.old) }
{
    let Some(at) = place_of(holders.as_slice(), client) else {
        return holders.push((client, 1));
    };
    let Some(holds) = holders.as_slice()[at].1.checked_add(1) else {
        return Err(AllocError);
    };
    set_holder(holders, at, (client, holds));
    Ok(())
}

/// Takes one hold of the client away, if it has one.
pub(crate) fn take_hold(holders: &mut Seq<(u32, u64)>, client: u32)
    ensures { holders.new ≡ without_hold client holders.old }
{
    if let Some(at) = place_of(holders.as_slice(), client) {
        let holds = holders.as_slice()[at].1.saturating_sub(1);
        set_holder(holders, at, (client, holds));
    }
}

/// Where the client stands, if it does.
fn place_of(holders: &[(u32, u64)], client: u32) -> Option<usize>
    ensures place { result ≡ position (λ holder. holder.0 == client) holders.now }
    ensures within { IfSome result (λ at. at < length holders.now) }
{
    holders.iter().position(|holder| holder.0 == client)
}

/// Writes a client's holds in its place.
fn set_holder(holders: &mut Seq<(u32, u64)>, at: usize, holder: (u32, u64))
    requires { at < length holders.old }
    ensures { holders.new ≡ slice_set holders.old at holder }
{
    put_holder(holders.as_mut_slice(), at, holder);
}

/// The same, in a slice.
fn put_holder(holders: &mut [(u32, u64)], at: usize, holder: (u32, u64))
    requires { at < length holders.old }
    ensures { holders.new ≡ slice_set holders.old at holder }
{
    holders[at] = holder;
}
