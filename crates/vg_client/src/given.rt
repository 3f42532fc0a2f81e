//! What the answer to a task says: whether it was accepted, and what follows.

ghost use Rattle.std.specs.Prelude.{◌≡◌, ◌∷◌, ◌++◌, OnOk};
ghost use Rattle.vg_tasks.specs.Table.{attach_task, create_blob_task, create_task, free_task, unref_task};
ghost use Rattle.vg_client.specs.Given as answers;

use std::alloc::{AllocError, Global};
use vg_machine::{Act, ActReply, Reply};
use vg_tasks::{Change, Tasks, act_task, attach_task, create_blob_task, create_task, unref_task};
use vg_wire::kinds::{OK_DISPLAY_INFO, OK_EDID, OK_NODATA, OK_RESOURCE_UUID};
use vg_wire::{Queue, read_header};

/// What a task was answered.
#[derive(Drop)]
pub(crate) enum Given {
    /// It was denied, by an act that was answered so.
    Denied { reply: ActReply },
    Act { reply: ActReply },
    Command { queue: Queue, reply: Reply },
}

/// What a task gave: the number of its entry in the history, from 1, and what it was answered.
#[derive(Drop)]
pub(crate) struct Added {
    pub(crate) number: u64,
    pub(crate) given: Given,
}

/// Whether a task was accepted: neither denied nor refused, and its response one of the OK ones. A cursor command has none,
/// and counts as accepted.
pub(crate) fn is_accepted(given: &Given) -> bool
    ensures { result ≡ answers.is_accepted given.now }
{
    match given {
        Given::Denied { .. } => false,
        Given::Act { reply } => !is_refused(reply),
        Given::Command { queue, reply } => is_ok(*queue, reply),
    }
}

fn is_refused(reply: &ActReply) -> bool
    ensures { result ≡ answers.is_refused reply.now }
{
    match reply {
        ActReply::Refused { .. } => true,
        _ => false,
    }
}

fn is_ok(queue: Queue, reply: &Reply) -> bool
    ensures { result ≡ answers.is_ok queue reply.now }
{
    match queue {
        Queue::Control => is_ok_reply(reply),
        Queue::Cursor => true,
    }
}

fn is_ok_reply(reply: &Reply) -> bool
    ensures { result ≡ answers.is_ok_reply reply.now }
{
    match reply {
        Reply::Response { bytes } => match read_header(bytes.as_slice()) {
            Some(header) => is_ok_kind(header.kind),
            None => false,
        },
        Reply::Fault { .. } => false,
    }
}

/// Whether a response of this kind is one of the OK ones.
fn is_ok_kind(kind: u32) -> bool
    ensures { result ≡ answers.is_ok_kind kind }
{
    kind == OK_NODATA || kind == OK_DISPLAY_INFO || kind == OK_EDID || kind == OK_RESOURCE_UUID
}

/// Whether the call goes on whatever the response is.
fn goes_on(change: &Change, given: &Given) -> bool
    ensures { result ≡ answers.goes_on change.now given.now }
{
    match (change, given) {
        (Change::GoesOn, Given::Command { .. }) => true,
        _ => false,
    }
}

/// What is left to do after a task. A call that stops does so after its first task that isn't accepted.
pub(crate) fn leave_tasks(
    alloc: Global,
    stops: bool,
    change: Change,
    given: &Given,
    left: &mut Tasks,
) -> Result<(), AllocError>
    ensures { OnOk result (left.new ≡ answers.left_after stops change given.now left.old) }
{
    if stops && !goes_on(&change, given) && !is_accepted(given) {
        left.clear();
        return Ok(());
    }
    match change {
        Change::NewBuffer {
            width,
            height,
            format,
        } => follow_reserve(alloc, width, height, format, given, left),
        Change::NewBlob { size } => follow_reserve_blob(alloc, size, given, left),
        Change::EndOfName { key, .. } => follow_release(key, given, left),
        _ => Ok(()),
    }
}

/// A reserved buffer gets a resource, with the buffer's pages as its backing.
fn follow_reserve(
    alloc: Global,
    width: u32,
    height: u32,
    format: u32,
    given: &Given,
    left: &mut Tasks,
) -> Result<(), AllocError>
    ensures { OnOk result (left.new ≡ answers.after_reserve width height format given.now ++ left.old) }
{
    match given {
        Given::Act {
            reply: ActReply::Reserved { key, pages },
        } => attach_pages(alloc, width, height, format, *key, pages.as_slice(), left),
        _ => Ok(()),
    }
}

fn attach_pages(
    alloc: Global,
    width: u32,
    height: u32,
    format: u32,
    key: u32,
    pages: &[u32],
    left: &mut Tasks,
) -> Result<(), AllocError>
    ensures { OnOk result (left.new ≡ create_task key width height format ∷ attach_task key pages.now ∷ left.old) }
{
    left.push_front(attach_task(alloc, key, pages)?)?;
    left.push_front(create_task(key, width, height, format))?;
    Ok(())
}

/// A reserved buffer of bytes gets a blob resource of its pages.
fn follow_reserve_blob(
    alloc: Global,
    size: u32,
    given: &Given,
    left: &mut Tasks,
) -> Result<(), AllocError>
    ensures { OnOk result (left.new ≡ answers.after_reserve_blob size given.now ++ left.old) }
{
    match given {
        Given::Act {
            reply: ActReply::Reserved { key, pages },
        } => create_blob(alloc, *key, size, pages.as_slice(), left),
        _ => Ok(()),
    }
}

fn create_blob(
    alloc: Global,
    key: u32,
    size: u32,
    pages: &[u32],
    left: &mut Tasks,
) -> Result<(), AllocError>
    ensures { OnOk result (left.new ≡ create_blob_task key size pages.now ∷ left.old) }
{
    left.push_front(create_blob_task(alloc, key, size, pages)?)
}

/// The resource and the pages of a buffer that no one holds are given back.
fn follow_release(key: u32, given: &Given, left: &mut Tasks) -> Result<(), AllocError>
    ensures { OnOk result (left.new ≡ answers.after_release key given.now ++ left.old) }
{
    match given {
        Given::Act {
            reply: ActReply::Last,
        } => take_down(key, left),
        _ => Ok(()),
    }
}

fn take_down(key: u32, left: &mut Tasks) -> Result<(), AllocError>
    ensures { OnOk result (left.new ≡ unref_task key ∷ free_task key ∷ left.old) }
{
    left.push_front(act_task(Act::Free { key }))?;
    left.push_front(unref_task(key))?;
    Ok(())
}
