//! What stands in a line for the answer to an act.

ghost use Rattle.std.specs.Prelude.{◌≡◌, ◌++◌, codes, decimal, OnErr, OnOk};
ghost use Rattle.vg_list.specs.Front.{HasFront};
ghost use Rattle.vg_text.specs.Text.{numbered};
ghost use Rattle.vg_journal_words.specs.Text.{act_reply_text, bit_text, comma_text, imported_text, pages_text, refusal_text, reserved_text, size_text};

use std::alloc::AllocError;
use vg_client_holds::ActReply;
use vg_share::{Geometry, ShareRefusal};
use vg_text::Packed;

/// Adds the text of what an act is answered. For want of memory a front of it is added.
#[tactic(auto, using(vg_list::proofs::FrontLemmas::fronts))]
pub fn put_act_reply(out: &mut Packed, reply: &ActReply) -> Result<(), AllocError>
    ensures ok { OnOk result (out.new ≡ out.old ++ act_reply_text reply.now) }
    ensures err { OnErr result (HasFront out.old out.new (act_reply_text reply.now)) }
{
    match reply {
        ActReply::Ok => out.put(b"ok"),
        ActReply::Reserved { key, pages } => put_reserved(out, *key, pages.as_slice()),
        ActReply::Bytes { bytes } => out.put_bytes(b"bytes ", bytes.as_slice()),
        ActReply::Exported { token } => out.put_numbered(b"token ", *token),
        ActReply::Imported {
            key,
            geometry,
            pages,
        } => put_imported(out, *key, geometry, pages.as_slice()),
        ActReply::Kept => out.put(b"kept"),
        ActReply::Last => out.put(b"last"),
        ActReply::Events { set } => put_events(out, *set),
        ActReply::Refused { refusal } => put_refusal(out, refusal),
    }
}

#[tactic(auto, using(vg_list::proofs::FrontLemmas::fronts))]
fn put_events(out: &mut Packed, set: bool) -> Result<(), AllocError>
    ensures ok { OnOk result (out.new ≡ out.old ++ (codes "events " ++ bit_text set)) }
    ensures err { OnErr result (HasFront out.old out.new (codes "events " ++ bit_text set)) }
{
    out.put(b"events ")?;
    if set { out.put(b"1") } else { out.put(b"0") }
}

#[tactic(auto, using(vg_list::proofs::FrontLemmas::fronts))]
fn put_refusal(out: &mut Packed, refusal: &ShareRefusal) -> Result<(), AllocError>
    ensures ok { OnOk result (out.new ≡ out.old ++ refusal_text refusal.now) }
    ensures err { OnErr result (HasFront out.old out.new (refusal_text refusal.now)) }
{
    match refusal {
        ShareRefusal::GuestFull { free } => out.put_numbered(b"full ", *free),
        ShareRefusal::UnknownKey => out.put(b"unknown"),
        ShareRefusal::NotHeld => out.put(b"notheld"),
        ShareRefusal::ScanoutHeld { by } => out.put_numbered(b"held ", *by),
        ShareRefusal::OutOfRange { bytes } => out.put_numbered(b"range ", *bytes),
        ShareRefusal::InUse { scanout } => out.put_numbered(b"inuse ", *scanout),
        ShareRefusal::ResourceLive => out.put(b"live"),
    }
}

#[tactic(auto, unfolding(crate::specs::Text::reserved_text), using(vg_list::proofs::FrontLemmas::fronts))]
fn put_reserved(out: &mut Packed, key: u32, pages: &[u32]) -> Result<(), AllocError>
    ensures ok { OnOk result (out.new ≡ out.old ++ reserved_text key pages.now) }
    ensures err { OnErr result (HasFront out.old out.new (reserved_text key pages.now)) }
{
    out.put_numbered(b"key ", key)?;
    out.put(b" pages ")?;
    put_pages(out, pages)
}

#[tactic(auto, unfolding(crate::specs::Text::imported_text), using(vg_list::proofs::FrontLemmas::fronts))]
fn put_imported(
    out: &mut Packed,
    key: u32,
    geometry: &Geometry,
    pages: &[u32],
) -> Result<(), AllocError>
    ensures ok { OnOk result (out.new ≡ out.old ++ imported_text key geometry.now pages.now) }
    ensures err { OnErr result (HasFront out.old out.new (imported_text key geometry.now pages.now)) }
{
    out.put_numbered(b"key ", key)?;
    put_size(out, geometry)?;
    out.put(b" pages ")?;
    put_pages(out, pages)
}

#[tactic(auto, unfolding(crate::specs::Text::size_text), using(vg_list::proofs::FrontLemmas::fronts))]
fn put_size(out: &mut Packed, geometry: &Geometry) -> Result<(), AllocError>
    ensures ok { OnOk result (out.new ≡ out.old ++ size_text geometry.now) }
    ensures err { OnErr result (HasFront out.old out.new (size_text geometry.now)) }
{
    out.put(b" size ")?;
    out.put_three(
        u64::from(geometry.width),
        u64::from(geometry.height),
        u64::from(geometry.format),
    )?;
    out.put_numbered(b" ", geometry.bytes)
}

#[tactic(auto, using(vg_list::proofs::FrontLemmas::fronts))]
fn put_pages(out: &mut Packed, pages: &[u32]) -> Result<(), AllocError>
    ensures ok { OnOk result (out.new ≡ out.old ++ pages_text pages.now) }
    ensures err { OnErr result (HasFront out.old out.new (pages_text pages.now)) }
{
    match pages {
        [] => out.put(b"-"),
        [page, more @ ..] => {
            out.put_number(u64::from(*page))?;
            put_more_pages(out, more)
        }
    }
}

/// Adds page numbers, each behind a comma.
#[tactic(auto, using(vg_list::proofs::FrontLemmas::fronts))]
fn put_more_pages(out: &mut Packed, pages: &[u32]) -> Result<(), AllocError>
    ensures ok { OnOk result (out.new ≡ out.old ++ numbered comma_text 0 pages.now) }
    ensures err { OnErr result (HasFront out.old out.new (numbered comma_text 0 pages.now)) }
{
    for (place, page) in pages.iter().enumerate() {
        put_comma(out, place, *page)?;
    }
    Ok(())
}

#[tactic(auto, unfolding(crate::specs::Text::comma_text), using(vg_list::proofs::FrontLemmas::fronts))]
fn put_comma(out: &mut Packed, place: usize, page: u32) -> Result<(), AllocError>
    ensures ok { OnOk result (out.new ≡ out.old ++ comma_text place page) }
    ensures err { OnErr result (HasFront out.old out.new (comma_text place page)) }
{
    let _ = place;
    out.put_numbered(b",", page)
}
