//! Whether two replies are the same.

ghost use Rattle.std.specs.Prelude.{◌≡◌, ◌↔◌, IsTrue};
ghost use Rattle.vg_client_holds.specs.declared.act.ActReply.TheVariants.{Bytes, Events, Exported, Imported, Refused, Reserved};

use vg_chain::ChainFault;
use vg_list::Seq;
use vg_machine::{ActReply, Geometry, PageList, Reply, ShareRefusal};

/// Whether two replies to an act are the same.
pub(crate) fn same_act_reply(one: &ActReply, other: &ActReply) -> bool
    ensures { IsTrue result ↔ (one.now ≡ other.now) }
{
    match one {
        ActReply::Ok => matches!(other, ActReply::Ok),
        ActReply::Reserved { key, pages } => is_reserved(*key, pages, other),
        ActReply::Bytes { bytes } => is_bytes(bytes, other),
        ActReply::Exported { token } => is_exported(*token, other),
        ActReply::Imported {
            key,
            geometry,
            pages,
        } => is_imported(*key, geometry, pages, other),
        ActReply::Kept => matches!(other, ActReply::Kept),
        ActReply::Last => matches!(other, ActReply::Last),
        ActReply::Events { set } => is_events(*set, other),
        ActReply::Refused { refusal } => is_refused(refusal, other),
    }
}

fn is_reserved(key: u32, pages: &PageList, reply: &ActReply) -> bool
    ensures { IsTrue result ↔ (Reserved key pages.now ≡ reply.now) }
{
    match reply {
        ActReply::Reserved {
            key: its,
            pages: others,
        } => key == *its && same_numbers(pages, others),
        _ => false,
    }
}

fn is_bytes(bytes: &Seq<u8>, reply: &ActReply) -> bool
    ensures { IsTrue result ↔ (Bytes bytes.now ≡ reply.now) }
{
    match reply {
        ActReply::Bytes { bytes: others } => same_bytes(bytes, others),
        _ => false,
    }
}

fn is_exported(token: u32, reply: &ActReply) -> bool
    ensures { IsTrue result ↔ (Exported token ≡ reply.now) }
{
    match reply {
        ActReply::Exported { token: its } => token == *its,
        _ => false,
    }
}

fn is_imported(key: u32, geometry: &Geometry, pages: &PageList, reply: &ActReply) -> bool
    ensures { IsTrue result ↔ (Imported key geometry.now pages.now ≡ reply.now) }
{
    match reply {
        ActReply::Imported {
            key: its,
            geometry: other,
            pages: others,
        } => key == *its && same_geometry(geometry, other) && same_numbers(pages, others),
        _ => false,
    }
}

fn is_events(set: bool, reply: &ActReply) -> bool
    ensures { IsTrue result ↔ (Events set ≡ reply.now) }
{
    match reply {
        ActReply::Events { set: its } => set == *its,
        _ => false,
    }
}

fn is_refused(refusal: &ShareRefusal, reply: &ActReply) -> bool
    ensures { IsTrue result ↔ (Refused refusal.now ≡ reply.now) }
{
    match reply {
        ActReply::Refused { refusal: other } => same_refusal(*refusal, *other),
        _ => false,
    }
}

fn same_geometry(one: &Geometry, other: &Geometry) -> bool
    ensures { IsTrue result ↔ (one.now ≡ other.now) }
{
    one.width == other.width
        && one.height == other.height
        && one.format == other.format
        && one.bytes == other.bytes
}

/// Whether two acts are refused for the same cause.
fn same_refusal(one: ShareRefusal, other: ShareRefusal) -> bool
    ensures { IsTrue result ↔ (one ≡ other) }
{
    match (one, other) {
        (ShareRefusal::GuestFull { free }, ShareRefusal::GuestFull { free: its }) => free == its,
        (ShareRefusal::UnknownKey, ShareRefusal::UnknownKey) => true,
        (ShareRefusal::NotHeld, ShareRefusal::NotHeld) => true,
        (ShareRefusal::ScanoutHeld { by }, ShareRefusal::ScanoutHeld { by: its }) => by == its,
        (ShareRefusal::OutOfRange { bytes }, ShareRefusal::OutOfRange { bytes: its }) => bytes
            == its,
        (ShareRefusal::InUse { scanout }, ShareRefusal::InUse { scanout: its }) => scanout == its,
        (ShareRefusal::ResourceLive, ShareRefusal::ResourceLive) => true,
        _ => false,
    }
}

/// Whether two replies to a command are the same.
pub(crate) fn same_reply(one: &Reply, other: &Reply) -> bool
    ensures { IsTrue result ↔ (one.now ≡ other.now) }
{
    match (one, other) {
        (Reply::Response { bytes }, Reply::Response { bytes: others }) => same_bytes(bytes, others),
        (Reply::Fault { fault }, Reply::Fault { fault: its }) => same_fault(*fault, *its),
        _ => false,
    }
}

fn same_fault(one: ChainFault, other: ChainFault) -> bool
    ensures { IsTrue result ↔ (one ≡ other) }
{
    one == other
}

fn same_bytes(one: &Seq<u8>, other: &Seq<u8>) -> bool
    ensures { IsTrue result ↔ (one.now ≡ other.now) }
{
    one.as_slice() == other.as_slice()
}

fn same_numbers(one: &PageList, other: &PageList) -> bool
    ensures { IsTrue result ↔ (one.now ≡ other.now) }
{
    one.as_slice() == other.as_slice()
}
