//! What stands in a line for an act.

ghost use Rattle.std.specs.Prelude.{◌≡◌, ◌++◌, codes, decimal, OnErr, OnOk};
ghost use Rattle.vg_list.specs.Front.{HasFront};
ghost use Rattle.vg_text.specs.Text.{hex_text};
ghost use Rattle.vg_journal_words.specs.Text.{act_text, await_text, load_text, mode_text, reserve_text, store_text, what_text};

use std::alloc::AllocError;
use vg_client_holds::{Act, What};
use vg_text::Packed;

/// Adds the text of an act. For want of memory a front of it is added.
#[tactic(auto, using(vg_list::proofs::FrontLemmas::fronts))]
pub fn put_act(out: &mut Packed, act: &Act) -> Result<(), AllocError>
    ensures ok { OnOk result (out.new ≡ out.old ++ act_text act.now) }
    ensures err { OnErr result (HasFront out.old out.new (act_text act.now)) }
{
    match act {
        Act::Enter => out.put(b"enter"),
        Act::Reserve {
            width,
            height,
            format,
            bytes,
        } => put_reserve(out, *width, *height, *format, *bytes),
        Act::Store {
            key,
            offset,
            bytes,
            times,
        } => put_store(out, *key, *offset, bytes.as_slice(), *times),
        Act::Load {
            key,
            offset,
            length,
        } => put_load(out, *key, *offset, *length),
        Act::Export { key } => out.put_numbered(b"export ", *key),
        Act::Import { token } => out.put_numbered(b"import ", *token),
        Act::Release { key } => out.put_numbered(b"release ", *key),
        Act::Free { key } => out.put_numbered(b"free ", *key),
        Act::Take { scanout } => out.put_numbered(b"take ", *scanout),
        Act::Drop { scanout } => out.put_numbered(b"drop ", *scanout),
        Act::Await { lane, ordinal } => put_await(out, *lane, *ordinal),
        Act::Denied { what } => put_denied(out, what),
        Act::Mode {
            scanout,
            width,
            height,
        } => put_mode(out, *scanout, *width, *height),
        Act::Unplug { scanout } => out.put_numbered(b"unplug ", *scanout),
        Act::Sync { call } => out.put_counted(b"sync ", *call),
        Act::Events => out.put(b"events"),
        Act::Ack => out.put(b"ack"),
        Act::Leave => out.put(b"leave"),
    }
}

#[tactic(auto, unfolding(crate::specs::Text::reserve_text), using(vg_list::proofs::FrontLemmas::fronts))]
fn put_reserve(
    out: &mut Packed,
    width: u32,
    height: u32,
    format: u32,
    bytes: u32,
) -> Result<(), AllocError>
    ensures ok { OnOk result (out.new ≡ out.old ++ reserve_text width height format bytes) }
    ensures err { OnErr result (HasFront out.old out.new (reserve_text width height format bytes)) }
{
    out.put(b"reserve ")?;
    out.put_three(u64::from(width), u64::from(height), u64::from(format))?;
    out.put_numbered(b" ", bytes)
}

/// Adds bytes and how many times they are written, each behind a blank.
#[tactic(auto, using(vg_list::proofs::FrontLemmas::fronts))]
fn put_repeated(out: &mut Packed, bytes: &[u8], times: u32) -> Result<(), AllocError>
    ensures ok { OnOk result (
        out.new ≡ out.old ++ (codes " " ++ hex_text bytes.now ++ codes " " ++ decimal times)) }
    ensures err { OnErr result (
        HasFront out.old out.new (codes " " ++ hex_text bytes.now ++ codes " " ++ decimal times)) }
{
    out.put_bytes(b" ", bytes)?;
    out.put_numbered(b" ", times)
}

#[tactic(auto, unfolding(crate::specs::Text::store_text), using(vg_list::proofs::FrontLemmas::fronts))]
fn put_store(
    out: &mut Packed,
    key: u32,
    offset: u32,
    bytes: &[u8],
    times: u32,
) -> Result<(), AllocError>
    ensures ok { OnOk result (out.new ≡ out.old ++ store_text key offset bytes.now times) }
    ensures err { OnErr result (HasFront out.old out.new (store_text key offset bytes.now times)) }
{
    out.put_numbered(b"store ", key)?;
    out.put_numbered(b" ", offset)?;
    put_repeated(out, bytes, times)
}

#[tactic(auto, unfolding(crate::specs::Text::load_text), using(vg_list::proofs::FrontLemmas::fronts))]
fn put_load(out: &mut Packed, key: u32, offset: u32, length: u32) -> Result<(), AllocError>
    ensures ok { OnOk result (out.new ≡ out.old ++ load_text key offset length) }
    ensures err { OnErr result (HasFront out.old out.new (load_text key offset length)) }
{
    out.put(b"load ")?;
    out.put_three(u64::from(key), u64::from(offset), u64::from(length))
}

#[tactic(auto, unfolding(crate::specs::Text::await_text), using(vg_list::proofs::FrontLemmas::fronts))]
fn put_await(out: &mut Packed, lane: u32, ordinal: u64) -> Result<(), AllocError>
    ensures ok { OnOk result (out.new ≡ out.old ++ await_text lane ordinal) }
    ensures err { OnErr result (HasFront out.old out.new (await_text lane ordinal)) }
{
    out.put_numbered(b"await ", lane)?;
    out.put_counted(b" ", ordinal)
}

#[tactic(auto, unfolding(crate::specs::Text::mode_text), using(vg_list::proofs::FrontLemmas::fronts))]
fn put_mode(out: &mut Packed, scanout: u32, width: u32, height: u32) -> Result<(), AllocError>
    ensures ok { OnOk result (out.new ≡ out.old ++ mode_text scanout width height) }
    ensures err { OnErr result (HasFront out.old out.new (mode_text scanout width height)) }
{
    out.put(b"mode ")?;
    out.put_three(u64::from(scanout), u64::from(width), u64::from(height))
}

#[tactic(auto, using(vg_list::proofs::FrontLemmas::fronts))]
fn put_denied(out: &mut Packed, what: &What) -> Result<(), AllocError>
    ensures ok { OnOk result (out.new ≡ out.old ++ (codes "denied " ++ what_text what.now)) }
    ensures err { OnErr result (HasFront out.old out.new (codes "denied " ++ what_text what.now)) }
{
    out.put(b"denied ")?;
    put_what(out, what)
}

#[tactic(auto, using(vg_list::proofs::FrontLemmas::fronts))]
fn put_what(out: &mut Packed, what: &What) -> Result<(), AllocError>
    ensures ok { OnOk result (out.new ≡ out.old ++ what_text what.now) }
    ensures err { OnErr result (HasFront out.old out.new (what_text what.now)) }
{
    match what {
        What::Name => out.put(b"name"),
        What::Resource { n } => out.put_numbered(b"resource ", *n),
        What::Scanout { n } => out.put_numbered(b"scanout ", *n),
        What::Context { n } => out.put_numbered(b"context ", *n),
        What::Page { n } => out.put_numbered(b"page ", *n),
    }
}
