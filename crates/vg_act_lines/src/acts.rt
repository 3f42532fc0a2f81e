//! Acts.

ghost use Rattle.std.specs.Prelude.{◌≡◌, ◌^◌, map, option_map, option_and_then, if◌then◌else◌, bytes_eq, codes, IfOk};
ghost use Rattle.vg_line_words.specs.Words.{bytes_of, number_of};
ghost use Rattle.vg_act_lines.specs.Read.{act_by, act_of, alone, await, await_of, both, buffer_act, four, load, load_of, mode, mode_of, numbered_act, numbered_what, one_number, plug_act, reserve, reserve_of, short, store, store_of, sync_of, two, what_of};

use crate::numbers::{four, one_number, two};
use std::alloc::{AllocError, Global};
use vg_client_holds::{Act, What};
use vg_line_words::{any_bytes, number, number32};
use vg_script_words::is;

/// The act that some words are, if they are one.
pub fn read_act(alloc: Global, words: &[&[u8]]) -> Result<Option<Act>, AllocError>
    ensures { IfOk result (λ act. act ≡ act_of (map (λ word. word.now) words.now)) }
{
    match words {
        [] => Ok(None),
        [word, args @ ..] => act_by(alloc, word, args),
    }
}

/// An act by its first word.
#[tactic(auto, unfolding(crate::specs::Read::act_by))]
fn act_by(alloc: Global, word: &[u8], args: &[&[u8]]) -> Result<Option<Act>, AllocError>
    ensures { IfOk result (λ act. act ≡ act_by word.now (map (λ arg. arg.now) args.now)) }
{
    if is(word, b"enter") {
        return Ok(alone(args, Act::Enter));
    }
    if is(word, b"leave") {
        return Ok(alone(args, Act::Leave));
    }
    if is(word, b"denied") {
        return Ok(denied(args));
    }
    if is(word, b"await") {
        return Ok(await_of(args));
    }
    plug_act(alloc, word, args)
}

fn alone(args: &[&[u8]], act: Act) -> Option<Act>
    ensures { result ≡ alone act (map (λ arg. arg.now) args.now) }
{
    match args {
        [] => Some(act),
        _ => None,
    }
}

fn denied(args: &[&[u8]]) -> Option<Act>
    ensures { result ≡ option_map Act.Denied (what_of (map (λ arg. arg.now) args.now)) }
{
    let what = what_of(args)?;
    Some(Act::Denied { what })
}

/// An act on what is plugged, or another one, by its first word.
#[tactic(auto, unfolding(crate::specs::Read::plug_act))]
fn plug_act(alloc: Global, word: &[u8], args: &[&[u8]]) -> Result<Option<Act>, AllocError>
    ensures { IfOk result (λ act. act ≡ plug_act word.now (map (λ arg. arg.now) args.now)) }
{
    if is(word, b"mode") {
        return Ok(mode_of(args));
    }
    if is(word, b"sync") {
        return Ok(sync_of(args));
    }
    if is(word, b"events") {
        return Ok(alone(args, Act::Events));
    }
    if is(word, b"ack") {
        return Ok(alone(args, Act::Ack));
    }
    buffer_act(alloc, word, args)
}

/// `mode S W H`
#[tactic(auto, unfolding(crate::specs::Read::mode_of))]
fn mode_of(args: &[&[u8]]) -> Option<Act>
    ensures { result ≡ mode_of (map (λ arg. arg.now) args.now) }
{
    match args {
        &[scanout, width, height] => mode(scanout, width, height),
        _ => None,
    }
}

fn mode(scanout: &[u8], width: &[u8], height: &[u8]) -> Option<Act>
    ensures { result ≡ option_map mode (both (two scanout.now width.now) (short height.now)) }
{
    let (scanout, width) = two(scanout, width)?;
    let height = number32(height)?;
    Some(Act::Mode {
        scanout,
        width,
        height,
    })
}

/// `sync K`
#[tactic(auto, unfolding(crate::specs::Read::sync_of))]
fn sync_of(args: &[&[u8]]) -> Option<Act>
    ensures { result ≡ sync_of (map (λ arg. arg.now) args.now) }
{
    match args {
        &[call] => sync(call),
        _ => None,
    }
}

fn sync(call: &[u8]) -> Option<Act>
    ensures { result ≡ option_map Act.Sync (number_of (2 ^ 63) call.now) }
{
    let call = number(call, 1 << 63)?;
    Some(Act::Sync { call })
}

/// An act on a buffer or a scanout, by its first word.
#[tactic(auto, unfolding(crate::specs::Read::buffer_act))]
fn buffer_act(alloc: Global, word: &[u8], args: &[&[u8]]) -> Result<Option<Act>, AllocError>
    ensures { IfOk result (λ act. act ≡ buffer_act word.now (map (λ arg. arg.now) args.now)) }
{
    if is(word, b"reserve") {
        return Ok(reserve_of(args));
    }
    if is(word, b"store") {
        return store_of(alloc, args);
    }
    if is(word, b"load") {
        return Ok(load_of(args));
    }
    Ok(numbered_of(word, args))
}

fn numbered_of(word: &[u8], args: &[&[u8]]) -> Option<Act>
    ensures { result ≡ option_and_then (numbered_act word.now) (one_number (map (λ arg. arg.now) args.now)) }
{
    let n = one_number(args)?;
    numbered_act(word, n)
}

/// An act that has one number.
fn numbered_act(word: &[u8], n: u32) -> Option<Act>
    ensures { result ≡ numbered_act word.now n }
{
    if is(word, b"export") {
        Some(Act::Export { key: n })
    } else if is(word, b"import") {
        Some(Act::Import { token: n })
    } else if is(word, b"release") {
        Some(Act::Release { key: n })
    } else if is(word, b"free") {
        Some(Act::Free { key: n })
    } else if is(word, b"take") {
        Some(Act::Take { scanout: n })
    } else if is(word, b"drop") {
        Some(Act::Drop { scanout: n })
    } else if is(word, b"unplug") {
        Some(Act::Unplug { scanout: n })
    } else {
        None
    }
}

/// `reserve W H F B`
#[tactic(auto, unfolding(crate::specs::Read::reserve_of))]
fn reserve_of(args: &[&[u8]]) -> Option<Act>
    ensures { result ≡ reserve_of (map (λ arg. arg.now) args.now) }
{
    match args {
        &[width, height, format, bytes] => reserve(width, height, format, bytes),
        _ => None,
    }
}

fn reserve(width: &[u8], height: &[u8], format: &[u8], bytes: &[u8]) -> Option<Act>
    ensures { result ≡ option_map reserve (four width.now height.now format.now bytes.now) }
{
    let ((width, height), (format, bytes)) = four(width, height, format, bytes)?;
    Some(Act::Reserve {
        width,
        height,
        format,
        bytes,
    })
}

/// `store K O HEX T`
#[tactic(auto, unfolding(crate::specs::Read::store_of))]
fn store_of(alloc: Global, args: &[&[u8]]) -> Result<Option<Act>, AllocError>
    ensures { IfOk result (λ act. act ≡ store_of (map (λ arg. arg.now) args.now)) }
{
    match args {
        &[key, offset, hex, times] => store(alloc, key, offset, hex, times),
        _ => Ok(None),
    }
}

fn store(
    alloc: Global,
    key: &[u8],
    offset: &[u8],
    hex: &[u8],
    times: &[u8],
) -> Result<Option<Act>, AllocError>
    ensures { IfOk result (λ act. act ≡ option_map store
        (both (both (two key.now offset.now) (short times.now)) (bytes_of hex.now))) }
{
    let Some((key, offset)) = two(key, offset) else {
        return Ok(None);
    };
    let Some(times) = number32(times) else {
        return Ok(None);
    };
    let Some(bytes) = any_bytes(alloc, hex)? else {
        return Ok(None);
    };
    Ok(Some(Act::Store {
        key,
        offset,
        bytes,
        times,
    }))
}

/// `load K O L`
#[tactic(auto, unfolding(crate::specs::Read::load_of))]
fn load_of(args: &[&[u8]]) -> Option<Act>
    ensures { result ≡ load_of (map (λ arg. arg.now) args.now) }
{
    match args {
        &[key, offset, length] => load(key, offset, length),
        _ => None,
    }
}

fn load(key: &[u8], offset: &[u8], length: &[u8]) -> Option<Act>
    ensures { result ≡ option_map load (both (two key.now offset.now) (short length.now)) }
{
    let (key, offset) = two(key, offset)?;
    let length = number32(length)?;
    Some(Act::Load {
        key,
        offset,
        length,
    })
}

/// `await L N`
#[tactic(auto, unfolding(crate::specs::Read::await_of))]
fn await_of(args: &[&[u8]]) -> Option<Act>
    ensures { result ≡ await_of (map (λ arg. arg.now) args.now) }
{
    match args {
        &[lane, ordinal] => fence(lane, ordinal),
        _ => None,
    }
}

fn fence(lane: &[u8], ordinal: &[u8]) -> Option<Act>
    ensures { result ≡ option_map await (both (short lane.now) (number_of (2 ^ 63) ordinal.now)) }
{
    let lane = number32(lane)?;
    let ordinal = number(ordinal, 1 << 63)?;
    Some(Act::Await { lane, ordinal })
}

/// What is denied.
#[tactic(auto, unfolding(crate::specs::Read::what_of))]
fn what_of(args: &[&[u8]]) -> Option<What>
    ensures { result ≡ what_of (map (λ arg. arg.now) args.now) }
{
    match args {
        &[word] => name(word),
        &[word, n] => numbered_what(word, number32(n)?),
        _ => None,
    }
}

fn name(word: &[u8]) -> Option<What>
    ensures { result ≡ (if bytes_eq word.now (codes "name") then Some What.Name else None) }
{
    if is(word, b"name") {
        Some(What::Name)
    } else {
        None
    }
}

fn numbered_what(word: &[u8], n: u32) -> Option<What>
    ensures { result ≡ numbered_what word.now n }
{
    if is(word, b"resource") {
        Some(What::Resource { n })
    } else if is(word, b"scanout") {
        Some(What::Scanout { n })
    } else if is(word, b"context") {
        Some(What::Context { n })
    } else if is(word, b"page") {
        Some(What::Page { n })
    } else {
        None
    }
}
