//! Replies to acts.

ghost use Rattle.std.specs.Prelude.{◌≡◌, ◌^◌, true, false, map, option_map, option_and_then, if◌then◌else◌, bytes_eq, codes, Some, None, IfOk};
ghost use Rattle.vg_line_words.specs.Words.{bytes_of, numbers_of};
ghost use Rattle.vg_act_lines.specs.Read.{alone, both, events_of, four, geometry, given_by, imported, imported_of, keyed_of, loaded_of, numbered_refusal, one_number, refusal_by, reply_by, reply_of, reserved, reserved_of, short};

use crate::numbers::{four, one_number};
use std::alloc::{AllocError, Global};
use vg_client_holds::ActReply;
use vg_line_words::{any_bytes, number32, numbers};
use vg_script_words::is;
use vg_share::{Geometry, PageList, ShareRefusal};

/// The reply that some words are, if they are one.
pub fn read_reply(alloc: Global, words: &[&[u8]]) -> Result<Option<ActReply>, AllocError>
    ensures { IfOk result (λ reply. reply ≡ reply_of (map (λ word. word.now) words.now)) }
{
    match words {
        [] => Ok(None),
        [word, args @ ..] => reply_by(alloc, word, args),
    }
}

/// A reply by its first word.
#[tactic(auto, unfolding(crate::specs::Read::reply_by))]
fn reply_by(alloc: Global, word: &[u8], args: &[&[u8]]) -> Result<Option<ActReply>, AllocError>
    ensures { IfOk result (λ reply. reply ≡ reply_by word.now (map (λ arg. arg.now) args.now)) }
{
    if is(word, b"ok") {
        return Ok(alone(args, ActReply::Ok));
    }
    if is(word, b"kept") {
        return Ok(alone(args, ActReply::Kept));
    }
    if is(word, b"last") {
        return Ok(alone(args, ActReply::Last));
    }
    given_by(alloc, word, args)
}

fn alone(args: &[&[u8]], reply: ActReply) -> Option<ActReply>
    ensures { result ≡ alone reply (map (λ arg. arg.now) args.now) }
{
    match args {
        [] => Some(reply),
        _ => None,
    }
}

/// A reply that gives something, or a refusal, by its first word.
#[tactic(auto, unfolding(crate::specs::Read::given_by))]
fn given_by(alloc: Global, word: &[u8], args: &[&[u8]]) -> Result<Option<ActReply>, AllocError>
    ensures { IfOk result (λ reply. reply ≡ given_by word.now (map (λ arg. arg.now) args.now)) }
{
    if is(word, b"key") {
        return keyed_of(alloc, args);
    }
    if is(word, b"bytes") {
        return loaded_of(alloc, args);
    }
    if is(word, b"token") {
        return Ok(exported_of(args));
    }
    if is(word, b"events") {
        return Ok(events_of(args));
    }
    Ok(refused_by(word, args))
}

fn exported_of(args: &[&[u8]]) -> Option<ActReply>
    ensures { result ≡ option_map ActReply.Exported (one_number (map (λ arg. arg.now) args.now)) }
{
    let token = one_number(args)?;
    Some(ActReply::Exported { token })
}

/// `events E`
#[tactic(auto, unfolding(crate::specs::Read::events_of))]
fn events_of(args: &[&[u8]]) -> Option<ActReply>
    ensures { result ≡ events_of (map (λ arg. arg.now) args.now) }
{
    match args {
        &[bit] => events(bit),
        _ => None,
    }
}

fn events(bit: &[u8]) -> Option<ActReply>
    ensures { result ≡ (if bytes_eq bit.now (codes "0") then Some (ActReply.Events false) else if bytes_eq bit.now (codes "1") then Some (ActReply.Events true) else None) }
{
    if is(bit, b"0") {
        Some(ActReply::Events { set: false })
    } else if is(bit, b"1") {
        Some(ActReply::Events { set: true })
    } else {
        None
    }
}

fn refused_by(word: &[u8], args: &[&[u8]]) -> Option<ActReply>
    ensures { result ≡ option_map ActReply.Refused (refusal_by word.now (map (λ arg. arg.now) args.now)) }
{
    let refusal = refusal_by(word, args)?;
    Some(ActReply::Refused { refusal })
}

/// `bytes HEX`
#[tactic(auto, unfolding(crate::specs::Read::loaded_of))]
fn loaded_of(alloc: Global, args: &[&[u8]]) -> Result<Option<ActReply>, AllocError>
    ensures { IfOk result (λ reply. reply ≡ loaded_of (map (λ arg. arg.now) args.now)) }
{
    match args {
        &[hex] => loaded(alloc, hex),
        _ => Ok(None),
    }
}

fn loaded(alloc: Global, hex: &[u8]) -> Result<Option<ActReply>, AllocError>
    ensures { IfOk result (λ reply. reply ≡ option_map ActReply.Bytes (bytes_of hex.now)) }
{
    let Some(bytes) = any_bytes(alloc, hex)? else {
        return Ok(None);
    };
    Ok(Some(ActReply::Bytes { bytes }))
}

/// What begins with a key.
#[tactic(auto, unfolding(crate::specs::Read::keyed_of))]
fn keyed_of(alloc: Global, args: &[&[u8]]) -> Result<Option<ActReply>, AllocError>
    ensures { IfOk result (λ reply. reply ≡ keyed_of (map (λ arg. arg.now) args.now)) }
{
    match args {
        &[key, word, pages] => reserved_of(alloc, key, word, pages),
        &[key, word, width, height, format, bytes, more, pages] => {
            imported_of(alloc, key, word, width, height, format, bytes, more, pages)
        }
        _ => Ok(None),
    }
}

/// `key K pages P,P,..`
#[tactic(auto, unfolding(crate::specs::Read::reserved_of))]
fn reserved_of(
    alloc: Global,
    key: &[u8],
    word: &[u8],
    pages: &[u8],
) -> Result<Option<ActReply>, AllocError>
    ensures { IfOk result (λ reply. reply ≡ reserved_of key.now word.now pages.now) }
{
    if !is(word, b"pages") {
        return Ok(None);
    }
    let Some(key) = number32(key) else {
        return Ok(None);
    };
    let Some(pages) = numbers(alloc, pages, 1 << 32)? else {
        return Ok(None);
    };
    let pages = PageList::from_vec(alloc, pages.into_vec())?;
    Ok(Some(ActReply::Reserved { key, pages }))
}

/// `key K size W H F B pages P,P,..`
#[tactic(auto, unfolding(crate::specs::Read::imported_of))]
fn imported_of(
    alloc: Global,
    key: &[u8],
    word: &[u8],
    width: &[u8],
    height: &[u8],
    format: &[u8],
    bytes: &[u8],
    more: &[u8],
    pages: &[u8],
) -> Result<Option<ActReply>, AllocError>
    ensures { IfOk result (λ reply. reply ≡
        imported_of key.now word.now width.now height.now format.now bytes.now more.now pages.now) }
{
    if !is(word, b"size") || !is(more, b"pages") {
        return Ok(None);
    }
    let Some((key, geometry)) = geometry_of(key, width, height, format, bytes) else {
        return Ok(None);
    };
    let Some(pages) = numbers(alloc, pages, 1 << 32)? else {
        return Ok(None);
    };
    let pages = PageList::from_vec(alloc, pages.into_vec())?;
    Ok(Some(ActReply::Imported {
        key,
        geometry,
        pages,
    }))
}

/// A key, and what its buffer is for.
fn geometry_of(
    key: &[u8],
    width: &[u8],
    height: &[u8],
    format: &[u8],
    bytes: &[u8],
) -> Option<(u32, Geometry)>
    ensures { result ≡ both (short key.now) (option_map geometry (four width.now height.now format.now bytes.now)) }
{
    let key = number32(key)?;
    let ((width, height), (format, bytes)) = four(width, height, format, bytes)?;
    let geometry = Geometry {
        width,
        height,
        format,
        bytes,
    };
    Some((key, geometry))
}

/// A refusal by its first word.
#[tactic(auto, unfolding(crate::specs::Read::refusal_by))]
fn refusal_by(word: &[u8], args: &[&[u8]]) -> Option<ShareRefusal>
    ensures { result ≡ refusal_by word.now (map (λ arg. arg.now) args.now) }
{
    if is(word, b"unknown") {
        return plain_refusal(args, ShareRefusal::UnknownKey);
    }
    if is(word, b"notheld") {
        return plain_refusal(args, ShareRefusal::NotHeld);
    }
    if is(word, b"live") {
        return plain_refusal(args, ShareRefusal::ResourceLive);
    }
    numbered_refusal(word, one_number(args)?)
}

fn plain_refusal(args: &[&[u8]], refusal: ShareRefusal) -> Option<ShareRefusal>
    ensures { result ≡ alone refusal (map (λ arg. arg.now) args.now) }
{
    match args {
        [] => Some(refusal),
        _ => None,
    }
}

/// A refusal that has a number.
fn numbered_refusal(word: &[u8], n: u32) -> Option<ShareRefusal>
    ensures { result ≡ numbered_refusal word.now n }
{
    if is(word, b"full") {
        Some(ShareRefusal::GuestFull { free: n })
    } else if is(word, b"held") {
        Some(ShareRefusal::ScanoutHeld { by: n })
    } else if is(word, b"range") {
        Some(ShareRefusal::OutOfRange { bytes: n })
    } else if is(word, b"inuse") {
        Some(ShareRefusal::InUse { scanout: n })
    } else {
        None
    }
}
