//! The lines of entries.

ghost use Rattle.std.specs.Prelude.{◌≡◌, ◌^◌, map, option_and_then, Some, None, IfOk, MatchOption};
ghost use Rattle.vg_act_lines.specs.Read.{both};
ghost use Rattle.vg_journal_lines.specs.Entries.{act_in, command_in, entry_by, entry_in, entry_of, sides, who_of};

use crate::numbers::{from_one, is_this};
use std::alloc::{AllocError, Global};
use vg_act_lines::{read_act, read_reply};
use vg_command_lines::{read_command_reply, read_request};
use vg_line_words::number;
use vg_machine::Entry;
use vg_script_words::is;

/// The entry that some words are, if they are that with this number in a journal with so many clients, the host among them.
#[tactic(auto, unfolding(crate::specs::Entries::entry_of))]
pub fn read_entry(
    alloc: Global,
    n: u64,
    clients: u32,
    words: &[&[u8]],
) -> Result<Option<Entry>, AllocError>
    ensures { IfOk result (λ entry. entry ≡ entry_of n clients (map (λ word. word.now) words.now)) }
{
    match words {
        [number, client, call, kind, says @ ..] => {
            entry_by(alloc, who_of(n, clients, number, client, call), kind, says)
        }
        _ => Ok(None),
    }
}

/// The client and its own number for the entry.
fn who_of(n: u64, clients: u32, first: &[u8], client: &[u8], call: &[u8]) -> Option<(u32, u64)>
    ensures { result ≡ who_of n clients first.now client.now call.now }
{
    if !is_this(n, first) {
        return None;
    }
    let client = from_one(client, u64::from(clients) + 1)?;
    let call = number(call, 1 << 63)?;
    Some((client, call))
}

fn entry_by(
    alloc: Global,
    who: Option<(u32, u64)>,
    kind: &[u8],
    says: &[&[u8]],
) -> Result<Option<Entry>, AllocError>
    ensures { IfOk result (λ entry. entry ≡ option_and_then (entry_by kind.now) (both who (sides (map (λ word. word.now) says.now)))) }
{
    let Some(who) = who else {
        return Ok(None);
    };
    let Some((before, behind)) = sides(says) else {
        return Ok(None);
    };
    entry_in(alloc, kind, who, before, behind)
}

/// What stands before the first word `=`, and what stands behind it.
fn sides<'a, 'b>(words: &'b [&'a [u8]]) -> Option<(&'b [&'a [u8]], &'b [&'a [u8]])>
    ensures { MatchOption result (sides (map (λ word. word.now) words.now) ≡ None)
        (λ both. sides (map (λ word. word.now) words.now) ≡ Some (map (λ word. word.now) both.0.now, map (λ word. word.now) both.1.now)) }
{
    let mut at = 0;
    while at < words.len() {
        if is(words[at], b"=") {
            return Some((&words[..at], &words[at + 1..]));
        }
        at += 1;
    }
    None
}

fn entry_in(
    alloc: Global,
    kind: &[u8],
    who: (u32, u64),
    before: &[&[u8]],
    behind: &[&[u8]],
) -> Result<Option<Entry>, AllocError>
    ensures { IfOk result (λ entry. entry ≡ entry_in kind.now who (map (λ word. word.now) before.now, map (λ word. word.now) behind.now)) }
{
    if is(kind, b"act") {
        return act_in(alloc, who, before, behind);
    }
    if is(kind, b"cmd") {
        return command_in(alloc, who, before, behind);
    }
    Ok(None)
}

fn act_in(
    alloc: Global,
    who: (u32, u64),
    before: &[&[u8]],
    behind: &[&[u8]],
) -> Result<Option<Entry>, AllocError>
    ensures { IfOk result (λ entry. entry ≡ act_in who (map (λ word. word.now) before.now, map (λ word. word.now) behind.now)) }
{
    let Some(act) = read_act(alloc, before)? else {
        return Ok(None);
    };
    let Some(reply) = read_reply(alloc, behind)? else {
        return Ok(None);
    };
    Ok(Some(Entry::Act {
        client: who.0,
        call: who.1,
        act,
        reply,
    }))
}

fn command_in(
    alloc: Global,
    who: (u32, u64),
    before: &[&[u8]],
    behind: &[&[u8]],
) -> Result<Option<Entry>, AllocError>
    ensures { IfOk result (λ entry. entry ≡ command_in who (map (λ word. word.now) before.now, map (λ word. word.now) behind.now)) }
{
    let Some(request) = read_request(alloc, before)? else {
        return Ok(None);
    };
    let Some(reply) = read_command_reply(alloc, behind)? else {
        return Ok(None);
    };
    Ok(Some(Entry::Command {
        client: who.0,
        call: who.1,
        request,
        reply,
    }))
}
