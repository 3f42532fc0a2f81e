//! Requests and replies.

ghost use Rattle.std.specs.Prelude.{◌≡◌, map, option_map, bytes_eq, codes, if◌then◌else◌, None, IfOk};
ghost use Rattle.vg_device.specs.declared.request.Reply.TheVariants.{Fault, Response};
ghost use Rattle.vg_line_words.specs.Words.{bytes_within};
ghost use Rattle.vg_act_lines.specs.Read.{both};
ghost use Rattle.vg_command_lines.specs.Shapes.{fault_of};
ghost use Rattle.vg_command_lines.specs.Ranges.{queue_of};
ghost use Rattle.vg_command_lines.specs.Read.{command_reply_of, layout_of, request, request_of, ticket_of};

use crate::shapes::{fault_of, shape_of};
use std::alloc::{AllocError, Global};
use vg_chain::Shape;
use vg_line_words::{bytes, number, short_number};
use vg_machine::{Reply, Request};
use vg_script_words::is;
use vg_wire::Queue;

/// The request that some words are, if they are one.
#[tactic(auto, unfolding(crate::specs::Read::request_of))]
pub fn read_request(alloc: Global, words: &[&[u8]]) -> Result<Option<Request>, AllocError>
    ensures { IfOk result (λ request. request ≡ request_of (map (λ word. word.now) words.now)) }
{
    match words {
        &[lane, ordinal, room, shape, hex] => request(alloc, lane, ordinal, room, shape, hex),
        _ => Ok(None),
    }
}

/// `LANE ORDINAL ROOM SHAPE HEX`
fn request(
    alloc: Global,
    lane: &[u8],
    ordinal: &[u8],
    room: &[u8],
    shape: &[u8],
    hex: &[u8],
) -> Result<Option<Request>, AllocError>
    ensures { IfOk result (λ says. says ≡
        option_map request (both (both (ticket_of lane.now ordinal.now) (layout_of room.now shape.now)) (bytes_within 49152 hex.now))) }
{
    let Some((lane, ordinal)) = ticket(lane, ordinal) else {
        return Ok(None);
    };
    let Some((room, shape)) = layout(room, shape) else {
        return Ok(None);
    };
    let Some(bytes) = bytes(alloc, hex, 49_152)? else {
        return Ok(None);
    };
    let queue = queue_of(lane);
    Ok(Some(Request {
        queue,
        lane,
        ordinal,
        room,
        shape,
        bytes,
    }))
}

fn ticket(lane: &[u8], ordinal: &[u8]) -> Option<(u32, u64)>
    ensures { result ≡ ticket_of lane.now ordinal.now }
{
    Some((short_number(lane, 66)?, number(ordinal, 1 << 63)?))
}

fn layout(room: &[u8], shape: &[u8]) -> Option<(u32, Shape)>
    ensures { result ≡ layout_of room.now shape.now }
{
    Some((short_number(room, 8_193)?, shape_of(shape)?))
}

/// The queue of a lane.
fn queue_of(lane: u32) -> Queue
    ensures { result ≡ queue_of lane }
{
    if lane == 65 {
        Queue::Cursor
    } else {
        Queue::Control
    }
}

/// The reply to a command that some words are, if they are one.
#[tactic(auto, unfolding(crate::specs::Read::command_reply_of))]
pub fn read_command_reply(alloc: Global, words: &[&[u8]]) -> Result<Option<Reply>, AllocError>
    ensures { IfOk result (λ reply. reply ≡ command_reply_of (map (λ word. word.now) words.now)) }
{
    match words {
        &[hex] => response(alloc, hex),
        &[word, shape] => Ok(fault(word, shape)),
        _ => Ok(None),
    }
}

fn response(alloc: Global, hex: &[u8]) -> Result<Option<Reply>, AllocError>
    ensures { IfOk result (λ reply. reply ≡ option_map Response (bytes_within 8192 hex.now)) }
{
    let Some(bytes) = bytes(alloc, hex, 8_192)? else {
        return Ok(None);
    };
    Ok(Some(Reply::Response { bytes }))
}

/// `fault SHAPE`
fn fault(word: &[u8], shape: &[u8]) -> Option<Reply>
    ensures { result ≡ (if bytes_eq word.now (codes "fault") then option_map Fault (fault_of shape.now) else None) }
{
    if !is(word, b"fault") {
        return None;
    }
    let fault = fault_of(shape)?;
    Some(Reply::Fault { fault })
}
