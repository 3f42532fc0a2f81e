//! The lines of a journal, one after another: what comes next, and what is known then.

ghost use Rattle.std.specs.Prelude.{◌≡◌, Some, None, if◌then◌else◌, map, IfOk, OnErr};
ghost use Rattle.std.specs.Option.{option_or};
ghost use Rattle.vg_journal_lines.specs.States.{and_out, behind_clients, behind_pages, clients_step, display_step, end_step, entries_step, frame_step, frames_step, head_step, host_step, is_behind, memory_step, queues_step, rings_step, title_step, without_step, words_step};
ghost use Rattle.vg_journal_lines.specs.Moves.{IsKept, Moved, Took, TookPixels};
ghost use Rattle.vg_journal_lines.specs.declared.steps.Given.TheVariants as givens;

use crate::counts::{FrameHead, frame_of, frames_of, is_end, rings_of};
use crate::entries::read_entry;
use crate::head::{
    Feature, Version, clients_of, display_of, is_host, is_queues, memory_of, title_of, without_of,
};
use crate::state::{LeftOut, Stage, State};
use std::alloc::{AllocError, Global};
use vg_formats::pixel_bytes;
use vg_machine::{Entry, parties};

/// What a line gives beside what is known then.
#[derive(Drop)]
pub enum Given {
    Nothing,
    Entry { entry: Entry },
}

/// Goes on by the words of a line, where they may come next; else, and for want of memory, nothing changes.
pub fn take_line(
    alloc: Global,
    state: &mut State,
    words: &[&[u8]],
) -> Result<Option<Given>, AllocError>
    requires { IsKept state.old }
    ensures ok { IfOk result (Took (words_step state.old.stage state.old (map (λ word. word.now) words.now)) state.old state.new) }
    ensures err { OnErr result (state.new ≡ state.old) }
{
    match state.stage {
        Stage::Title => Ok(nothing(take_title(state, words))),
        Stage::Displays => Ok(nothing(take_display_or_pages(state, words)?)),
        Stage::Queues => Ok(nothing(take_queues(state, words))),
        Stage::Features => Ok(nothing(take_feature_or_clients(state, words))),
        Stage::Host => take_host_or_entry(alloc, state, words),
        Stage::Entries => take_entry_or_rings(alloc, state, words),
        Stage::Frames => Ok(nothing(take_frames(state, words))),
        Stage::Frame { left } => Ok(nothing(take_head_or_end(state, left, words))),
        Stage::Pixels { .. } | Stage::Done => Ok(None),
    }
}

/// Nothing, where a line was taken.
fn nothing(taken: bool) -> Option<Given>
    ensures { result ≡ (if taken then Some givens.Nothing else None) }
{
    if taken { Some(Given::Nothing) } else { None }
}

/// Goes on by so many bytes of a frame's pixels, with so many frames behind it, where they may come next; else nothing changes.
pub fn take_pixels(state: &mut State, head: FrameHead, left: u64, count: usize) -> bool
    requires { IsKept state.old }
    ensures { TookPixels count head left state.old state.new result }
{
    if count as u128 != pixel_bytes(head.width, head.height) {
        return false;
    }
    state.stage = Stage::Frame { left };
    state.frames += 1;
    true
}

/// Goes on by the title.
pub(crate) fn take_title(state: &mut State, words: &[&[u8]]) -> bool
    ensures { Moved (title_step state.old (map (λ word. word.now) words.now)) state.old state.new result }
{
    let Some(version) = title_of(words) else {
        return false;
    };
    state.stage = Stage::Displays;
    state.version = version;
    true
}

/// Goes on by a display or the pages.
pub(crate) fn take_display_or_pages(state: &mut State, words: &[&[u8]]) -> Result<bool, AllocError>
    ensures ok { IfOk result (Moved (option_or (display_step state.old (map (λ word. word.now) words.now))
        (memory_step state.old (map (λ word. word.now) words.now))) state.old state.new) }
    ensures err { OnErr result (state.new ≡ state.old) }
{
    if take_display(state, words)? {
        return Ok(true);
    }
    Ok(take_pages(state, words))
}

fn take_display(state: &mut State, words: &[&[u8]]) -> Result<bool, AllocError>
    ensures ok { IfOk result (Moved (display_step state.old (map (λ word. word.now) words.now)) state.old state.new) }
    ensures err { OnErr result (state.new ≡ state.old) }
{
    if state.displays.len() >= 16 {
        return Ok(false);
    }
    let Some(size) = display_of(state.version, state.displays.len() as u64, words) else {
        return Ok(false);
    };
    state.displays.push(size)?;
    Ok(true)
}

fn take_pages(state: &mut State, words: &[&[u8]]) -> bool
    ensures { Moved (memory_step state.old (map (λ word. word.now) words.now)) state.old state.new result }
{
    if state.displays.len() == 0 {
        return false;
    }
    let Some(pages) = memory_of(words) else {
        return false;
    };
    state.stage = behind_pages(state.version);
    state.pages = pages;
    true
}

/// What comes behind the pages.
fn behind_pages(version: Version) -> Stage
    ensures { result ≡ behind_pages version }
{
    match version {
        Version::One => Stage::Features,
        Version::Two => Stage::Queues,
    }
}

/// Goes on by the queues' sizes.
fn take_queues(state: &mut State, words: &[&[u8]]) -> bool
    ensures { Moved (queues_step state.old (map (λ word. word.now) words.now)) state.old state.new result }
{
    if !is_queues(words) {
        return false;
    }
    state.stage = Stage::Features;
    true
}

/// Goes on by a feature that is left out, or by the clients.
pub(crate) fn take_feature_or_clients(state: &mut State, words: &[&[u8]]) -> bool
    ensures { Moved (option_or (without_step state.old (map (λ word. word.now) words.now))
        (clients_step state.old (map (λ word. word.now) words.now))) state.old state.new result }
{
    take_feature(state, words) || take_clients(state, words)
}

fn take_feature(state: &mut State, words: &[&[u8]]) -> bool
    ensures { Moved (without_step state.old (map (λ word. word.now) words.now)) state.old state.new result }
{
    let Some(feature) = without_of(words) else {
        return false;
    };
    if !is_behind(feature, state.left_out) {
        return false;
    }
    state.left_out = and_out(feature, state.left_out);
    true
}

/// Whether a feature's line may stand behind those of the features that are left out.
fn is_behind(feature: Feature, out: LeftOut) -> bool
    ensures { result ≡ is_behind feature out }
{
    match feature {
        Feature::Edid => !(out.edid || out.uuid || out.blob || out.context),
        Feature::Uuid => !(out.uuid || out.blob || out.context),
        Feature::Blob => !(out.blob || out.context),
        Feature::Context => !out.context,
    }
}

/// The features that are left out, with one more.
fn and_out(feature: Feature, out: LeftOut) -> LeftOut
    ensures { result ≡ and_out feature out }
{
    let mut out = out;
    match feature {
        Feature::Edid => out.edid = true,
        Feature::Uuid => out.uuid = true,
        Feature::Blob => out.blob = true,
        Feature::Context => out.context = true,
    }
    out
}

fn take_clients(state: &mut State, words: &[&[u8]]) -> bool
    ensures { Moved (clients_step state.old (map (λ word. word.now) words.now)) state.old state.new result }
{
    let Some(clients) = clients_of(state.version, words) else {
        return false;
    };
    state.stage = behind_clients(state.version);
    state.clients = clients;
    true
}

/// What comes behind the clients.
fn behind_clients(version: Version) -> Stage
    ensures { result ≡ behind_clients version }
{
    match version {
        Version::One => Stage::Entries,
        Version::Two => Stage::Host,
    }
}

/// Goes on by the host.
fn take_host(state: &mut State, words: &[&[u8]]) -> bool
    ensures { Moved (host_step state.old (map (λ word. word.now) words.now)) state.old state.new result }
{
    if !is_host(words) {
        return false;
    }
    state.stage = Stage::Entries;
    state.host = true;
    true
}

/// Goes on by the host, or by what comes where there is none.
fn take_host_or_entry(
    alloc: Global,
    state: &mut State,
    words: &[&[u8]],
) -> Result<Option<Given>, AllocError>
    requires { IsKept state.old }
    ensures ok { IfOk result (Took (option_or (host_step state.old (map (λ word. word.now) words.now))
        (entries_step state.old (map (λ word. word.now) words.now))) state.old state.new) }
    ensures err { OnErr result (state.new ≡ state.old) }
{
    if take_host(state, words) {
        return Ok(Some(Given::Nothing));
    }
    take_entry_or_rings(alloc, state, words)
}

/// Goes on by the counts of commands.
pub(crate) fn take_rings(state: &mut State, words: &[&[u8]]) -> bool
    ensures { Moved (rings_step state.old (map (λ word. word.now) words.now)) state.old state.new result }
{
    let Some((control, cursor)) = rings_of(words) else {
        return false;
    };
    state.stage = Stage::Frames;
    state.control = control;
    state.cursor = cursor;
    true
}

/// Goes on by an entry or by the counts of commands.
fn take_entry_or_rings(
    alloc: Global,
    state: &mut State,
    words: &[&[u8]],
) -> Result<Option<Given>, AllocError>
    requires { IsKept state.old }
    ensures ok { IfOk result (Took (entries_step state.old (map (λ word. word.now) words.now)) state.old state.new) }
    ensures err { OnErr result (state.new ≡ state.old) }
{
    if take_rings(state, words) {
        return Ok(Some(Given::Nothing));
    }
    let clients = parties(state.clients, state.host);
    let Some(entry) = read_entry(alloc, state.entries + 1, clients, words)? else {
        return Ok(None);
    };
    state.stage = Stage::Entries;
    state.entries += 1;
    Ok(Some(Given::Entry { entry }))
}

/// Goes on by the count of frames.
fn take_frames(state: &mut State, words: &[&[u8]]) -> bool
    ensures { Moved (frames_step state.old (map (λ word. word.now) words.now)) state.old state.new result }
{
    let Some(left) = frames_of(words) else {
        return false;
    };
    state.stage = Stage::Frame { left };
    true
}

/// Goes on by the line of a frame, where there is one to come, or by the last line.
fn take_head_or_end(state: &mut State, left: u64, words: &[&[u8]]) -> bool
    requires { IsKept state.old }
    ensures moved { Moved (frame_step left state.old (map (λ word. word.now) words.now)) state.old state.new result }
{
    if left == 0 {
        return take_end(state, words);
    }
    take_head(state, left - 1, words)
}

fn take_end(state: &mut State, words: &[&[u8]]) -> bool
    ensures { Moved (end_step state.old (map (λ word. word.now) words.now)) state.old state.new result }
{
    if !is_end(words) {
        return false;
    }
    state.stage = Stage::Done;
    true
}

fn take_head(state: &mut State, left: u64, words: &[&[u8]]) -> bool
    requires { IsKept state.old }
    ensures moved { Moved (head_step left state.old (map (λ word. word.now) words.now)) state.old state.new result }
{
    let Some(head) = frame_of(state.frames + 1, words) else {
        return false;
    };
    let bytes = u128::from(state.bytes) + pixel_bytes(head.width, head.height);
    if bytes > 268_435_456 {
        return false;
    }
    state.stage = Stage::Pixels { head, left };
    state.bytes = bytes as u64;
    true
}
