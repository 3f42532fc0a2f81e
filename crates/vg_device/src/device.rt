//! The device on one thread.

ghost use Rattle.std.specs.Prelude.{◌≡◌, ◌==◌, ◌<◌, ◌-◌, ◌^◌, [], if◌then◌else◌, bit_and, IfErr, IfOk, None, OnErr, OnOk, Some};
ghost use Rattle.vg_wire_ext.specs.Commands.{FitsEntries};
ghost use Rattle.vg_client_holds.specs.Setup.{IsSetup};
ghost use Rattle.vg_plugs.specs.Plugs.{cleared};
ghost use Rattle.vg_device.specs.ConfigSpace.{config_of};
ghost use Rattle.vg_device.specs.State.{counted, start};
ghost use Rattle.vg_device.specs.declared.request.Reply.TheVariants as replies;
ghost use Rattle.vg_device.specs.ActStep.{KeepsIfRefused, act_step};
ghost use Rattle.vg_client_holds.specs.Holds.{update};
ghost use Rattle.vg_device.specs.FitsWithin.{IsLetIn, by_read, changes};
ghost use Rattle.vg_refusals.specs.Refusals.{refusal_of};
ghost use Rattle.vg_device.specs.RequestStep.{request_step};
ghost use Rattle.vg_device.specs.Step.{Keeps, acceptance, answer_header, answer_of, answered, command_step, effect_and_bytes, request_refusals, step, timeline_refusals};

use crate::features::{has_feature, is_usable};
use crate::request::{Reply, Request};
use crate::stop::Stop;
use std::alloc::{AllocError, Global};
use std::marker::Model;
use vg_blob::{Blobs, Uuids};
use vg_chain::Shape;
use vg_client_holds::{Act, ActReply, Holds, Setup};
use vg_config::Config;
use vg_config::features::CONTEXT_INIT;
use vg_context::Contexts;
use vg_cursor::Cursors;
use vg_list::Seq;
use vg_pages::Pages;
use vg_plugs::Plugs;
use vg_resource::Resources;
use vg_scanout::{Frame, Scanouts};
use vg_share::Share;
use vg_transfer::Backings;
use vg_wire::kinds::{ERR_INVALID_CONTEXT_ID, ERR_INVALID_PARAMETER, ERR_UNSPEC};
use vg_wire::{Command2d, Header, Queue, read_header};
use vg_wire_ext::{Command, Response, append_response, read_request, write_response};

/// A display device, and what its clients share beside it.
#[derive(Drop)]
pub struct Device {
    pub(crate) setup: Setup,
    pub(crate) entries: u64,
    pub(crate) pages: Pages,
    pub(crate) resources: Resources,
    pub(crate) backings: Backings,
    pub(crate) blobs: Blobs,
    pub(crate) contexts: Contexts,
    pub(crate) uuids: Uuids,
    pub(crate) cursors: Cursors,
    pub(crate) scanouts: Scanouts,
    pub(crate) share: Share,
    pub(crate) plugs: Plugs,
}

impl Model for Device {
    ghost use Rattle.vg_device.specs.State.{State, IsConsistent};

    ghost Value = { State };

    ghost view = { λ d. record { setup = d.setup; entries = d.entries; memory = d.pages; resources = d.resources.resources; backings = d.backings; blobs = d.blobs; contexts = d.contexts; uuids = d.uuids; cursors = d.cursors; scanouts = d.scanouts; share = d.share; plugs = d.plugs } };

    ghost invariant = { λ d. IsConsistent (record { setup = d.setup; entries = d.entries; memory = d.pages; resources = d.resources.resources; backings = d.backings; blobs = d.blobs; contexts = d.contexts; uuids = d.uuids; cursors = d.cursors; scanouts = d.scanouts; share = d.share; plugs = d.plugs }) };
}

impl Device {
    /// The display before the first entry.
    pub fn new(alloc: Global, setup: &Setup) -> Result<Device, AllocError>
        requires { IsSetup setup.now }
        ensures { IfOk result (λ device. device ≡ start setup.now) }
    {
        let count = setup.displays.len() as u32;
        Ok(Device {
            setup: copy_of(alloc, setup)?,
            pages: Pages::new(alloc, setup.pages)?,
            cursors: Cursors::new(alloc, count)?,
            scanouts: Scanouts::new(alloc, count)?,
            share: Share::new(alloc, count)?,
            plugs: Plugs::new(alloc, setup.displays.as_slice())?,
            entries: 0,
            resources: Resources::new(alloc),
            backings: Backings::new(alloc),
            blobs: Blobs::new(alloc),
            contexts: Contexts::new(alloc),
            uuids: Uuids::new(alloc),
        })
    }

    /// How many entries there are so far.
    pub fn entries(&self) -> u64
        ensures { result ≡ self.now.entries }
    {
        self.entries
    }

    /// The frames so far, in the order in which they were made.
    pub fn frames(&self) -> &[Frame]
        ensures { result.now ≡ self.now.scanouts.frames }
    {
        self.scanouts.frames()
    }

    /// Its 2D resources, with their pixels.
    pub fn resources(&self) -> &Resources
        ensures { result.now.resources ≡ self.now.resources }
    {
        &self.resources
    }

    /// What is attached to its resources.
    pub fn backings(&self) -> &Backings
        ensures { result.now ≡ self.now.backings }
    {
        &self.backings
    }

    /// Its blobs.
    pub fn blobs(&self) -> &Blobs
        ensures { result.now ≡ self.now.blobs }
    {
        &self.blobs
    }

    /// Its cursors, by their scanouts.
    pub fn cursors(&self) -> &Cursors
        ensures { result.now ≡ self.now.cursors }
    {
        &self.cursors
    }

    /// Its scanouts, and the frames so far.
    pub fn scanouts(&self) -> &Scanouts
        ensures { result.now ≡ self.now.scanouts }
    {
        &self.scanouts
    }

    /// What its clients share.
    pub fn share(&self) -> &Share
        ensures { result.now ≡ self.now.share }
    {
        &self.share
    }

    /// The displays as they are plugged, and the event bit.
    pub fn plugs(&self) -> &Plugs
        ensures { result.now ≡ self.now.plugs }
    {
        &self.plugs
    }

    /// The configuration space as the driver reads it (VIRTIO 1.2, 5.7.4): the display event waits while the event bit is set, and there
    /// are no capsets.
    pub fn config(&self) -> Config
        ensures { result ≡ config_of self.now }
    {
        Config {
            events_read: if self.plugs.changed() { 1 } else { 0 },
            events_clear: 0,
            num_scanouts: self.setup.displays.len() as u32,
            num_capsets: 0,
        }
    }

    /// Clears the event bit, as a driver does that writes it to `events_clear` (VIRTIO 1.2, 5.7.4). All else stays.
    pub fn clear_events(&mut self)
        ensures { self.new ≡ record self.old { plugs = cleared self.old.plugs } }
    {
        self.plugs.clear();
    }

    /// Gives the frames so far, in the order in which they were made, and leaves none; all else stays. How many bytes the frames of a
    /// run may have is counted of those that there are, so there is room for as many bytes again.
    pub fn take_frames(&mut self, alloc: Global) -> Result<Vec<Frame>, AllocError>
        ensures frames { IfOk result (λ frames. frames.items ≡ self.old.scanouts.frames) }
        ensures done { OnOk result (self.new ≡ record self.old { scanouts = record self.old.scanouts { frames = [] } }) }
        ensures err { OnErr result (self.new ≡ self.old) }
    {
        self.scanouts.take_frames(alloc)
    }

    /// The frames, which the display gives up.
    pub fn into_frames(self) -> Vec<Frame>
        ensures { result.items ≡ self.scanouts.frames }
    {
        self.scanouts.into_frames()
    }

    /// Runs a request, and gives its reply twice. One whose shape is bad isn't run: its reply is the fault.
    pub fn request(
        &mut self,
        alloc: Global,
        request: &Request,
    ) -> Result<(Reply, Reply), AllocError>
        requires { self.old.entries < 2 ^ 31 - 1 }
        ensures step { IfOk result (λ twice. (self.new, twice.0) ≡ request_step self.old request.now) }
        ensures same { IfOk result (λ twice. twice.1 ≡ twice.0) }
        ensures err { OnErr result (self.new ≡ self.old) }
    {
        if let Shape::Bad { fault } = request.shape {
            self.entries += 1;
            return Ok((Reply::Fault { fault }, Reply::Fault { fault }));
        }
        let bytes = request.bytes.as_slice();
        let (response, copy) = self.respond(alloc, request.queue, bytes, request.room)?;
        Ok((response_of(response), response_of(copy)))
    }

    /// Runs the request that came on this queue, and gives its response as far as `room` bytes hold it.
    /// A longer response is cut, and the command runs all the same.
    pub fn command(
        &mut self,
        alloc: Global,
        queue: Queue,
        request: &[u8],
        room: u32,
    ) -> Result<Vec<u8>, AllocError>
        requires { self.old.entries < 2 ^ 31 - 1 }
        ensures step { IfOk result (λ bytes. (self.new, bytes.items) ≡ step self.old queue request.now room) }
        ensures refused { OnOk result (Keeps (answer_of (counted self.old) queue request.now).1 (counted self.old) self.new) }
        ensures err { OnErr result (self.new ≡ self.old) }
    {
        let (response, _copy) = self.respond(alloc, queue, request, room)?;
        Ok(response)
    }

    /// Runs a request, and gives its response twice, as far as `room` bytes hold it.
    fn respond(
        &mut self,
        alloc: Global,
        queue: Queue,
        request: &[u8],
        room: u32,
    ) -> Result<(Vec<u8>, Vec<u8>), AllocError>
        requires { self.old.entries < 2 ^ 31 - 1 }
        ensures step { IfOk result (λ twice. (self.new, twice.0.items) ≡ step self.old queue request.now room) }
        ensures same { IfOk result (λ twice. twice.1.items ≡ twice.0.items) }
        ensures refused { OnOk result (Keeps (answer_of (counted self.old) queue request.now).1 (counted self.old) self.new) }
        ensures err { OnErr result (self.new ≡ self.old) }
    {
        self.entries += 1;
        let done = self.answer(alloc, queue, request, room);
        if done.is_err() {
            self.entries -= 1;
        }
        done
    }

    /// Does the act of a client, whose holds these are, and gives its reply twice. What the client holds changes with it.
    pub fn act(
        &mut self,
        alloc: Global,
        client: u32,
        holds: &mut Holds,
        act: &Act,
    ) -> Result<(ActReply, ActReply), AllocError>
        requires entries { self.old.entries < 2 ^ 31 - 1 }
        requires whose { holds.old.client ≡ client }
        ensures step { IfOk result (λ twice. (self.new, twice.0) ≡ act_step self.old client act.now) }
        ensures same { IfOk result (λ twice. twice.1 ≡ twice.0) }
        ensures refused { IfOk result (λ twice. KeepsIfRefused twice.0 (counted self.old) self.new) }
        ensures holds { IfOk result (λ twice. holds.new ≡ update holds.old act.now twice.0) }
        ensures err { OnErr result ((self.new ≡ self.old) × (holds.new ≡ holds.old)) }
    {
        self.act_as(alloc, client, holds, act)
    }

    /// Does an act in a client's name: whoever calls this sees to it that the holds are that client's.
    pub fn act_as(
        &mut self,
        alloc: Global,
        client: u32,
        holds: &mut Holds,
        act: &Act,
    ) -> Result<(ActReply, ActReply), AllocError>
        requires { self.old.entries < 2 ^ 31 - 1 }
        ensures step { IfOk result (λ twice. (self.new, twice.0) ≡ act_step self.old client act.now) }
        ensures same { IfOk result (λ twice. twice.1 ≡ twice.0) }
        ensures refused { IfOk result (λ twice. KeepsIfRefused twice.0 (counted self.old) self.new) }
        ensures holds { IfOk result (λ twice. holds.new ≡ update holds.old act.now twice.0) }
        ensures err { OnErr result ((self.new ≡ self.old) × (holds.new ≡ holds.old)) }
    {
        self.entries += 1;
        let done = self.perform(alloc, client, holds, act);
        if done.is_err() {
            self.entries -= 1;
        }
        done
    }

    /// What a request does, and its response twice, as far as the room holds it. What a command that changes something is
    /// answered is written before it runs, so that memory for it is there.
    fn answer(
        &mut self,
        alloc: Global,
        queue: Queue,
        request: &[u8],
        room: u32,
    ) -> Result<(Vec<u8>, Vec<u8>), AllocError>
        requires fresh { self.old.uuids.given < self.old.entries }
        requires entries { self.old.entries < 2 ^ 31 }
        ensures step { IfOk result (λ twice. (self.new, twice.0.items) ≡ effect_and_bytes self.old queue request.now room) }
        ensures same { IfOk result (λ twice. twice.1.items ≡ twice.0.items) }
        ensures err { OnErr result (self.new ≡ self.old) }
    {
        let (context, command) = match self.read(alloc, queue, request)? {
            Ok(read) => read,
            Err(code) => return write_answer(alloc, request, room, &Response::Error { code }),
        };
        if !changes(&command) {
            let told = self.outcome(alloc, context, &command)?;
            return write_answer(alloc, request, room, &told);
        }
        let accepted = write_answer(alloc, request, room, &self.acceptance(&command))?;
        match self.outcome(alloc, context, &command)? {
            Response::Nodata | Response::Uuid { .. } => Ok(accepted),
            other => rewrite_answer(request, room, &other, accepted),
        }
    }

    /// Runs a command for the context of its header, and gives its response, which is an error where it is refused.
    fn outcome(
        &mut self,
        alloc: Global,
        context: u32,
        command: &Command,
    ) -> Result<Response, AllocError>
        requires fresh { self.old.uuids.given < self.old.entries }
        requires entries { self.old.entries < 2 ^ 31 }
        requires count { FitsEntries command.now }
        ensures step { IfOk result (λ response. command_step self.old context command.now ≡ (self.new, response)) }
        ensures err { OnErr result (self.new ≡ self.old) }
    {
        match self.run(alloc, context, command) {
            Ok(response) => Ok(response),
            Err(Stop::Refused(code)) => Ok(Response::Error { code }),
            Err(Stop::Memory) => Err(AllocError),
        }
    }

    /// The command of a request, and the context of its header; or the code of its refusal, where it is refused before its command is
    /// looked at. Its body isn't read where its kind needs a feature that isn't accepted.
    pub(crate) fn read(
        &self,
        alloc: Global,
        queue: Queue,
        request: &[u8],
    ) -> Result<Result<(u32, Command), u32>, AllocError>
        ensures answer { IfOk result (λ read. answer_of self.now queue request.now ≡ by_read self.now read) }
        ensures let_in { IfOk result (λ read. IfOk read (λ found. IsLetIn self.now queue request.now found.1)) }
        ensures refused { IfOk result (λ read. IfErr read (λ code. refusal_of (request_refusals self.now queue request.now) ≡ Some code)) }
        ensures entries { IfOk result (λ read. IfOk read (λ found. FitsEntries found.1)) }
    {
        let header = match read_header(request) {
            Some(header) if is_usable(self.setup.accepted, header.kind) => header,
            _ => return Ok(Err(ERR_UNSPEC)),
        };
        let Ok((_, command)) = read_request(alloc, request, queue)? else {
            return Ok(Err(ERR_UNSPEC));
        };
        match self.judge_timeline(&header) {
            Ok(()) => Ok(Ok((header.ctx_id, command))),
            Err(code) => Ok(Err(code)),
        }
    }

    /// Whether there is the timeline that a header names, if it names one, or the code of the refusal.
    fn judge_timeline(&self, header: &Header) -> Result<(), u32>
        ensures ok { OnOk result (refusal_of (timeline_refusals self.now header.now) ≡ None) }
        ensures err { IfErr result (λ code. refusal_of (timeline_refusals self.now header.now) ≡ Some code) }
    {
        if !has_feature(self.setup.accepted, CONTEXT_INIT) || header.flags & 2 != 2 {
            return Ok(());
        }
        if header.ring_idx >= 64 {
            return Err(ERR_INVALID_PARAMETER);
        }
        if self.contexts.has(header.ctx_id) {
            Ok(())
        } else {
            Err(ERR_INVALID_CONTEXT_ID)
        }
    }

    /// What a command that changes something is answered where it isn't refused.
    fn acceptance(&self, command: &Command) -> Response
        requires fresh { self.now.uuids.given < self.now.entries }
        requires entries { self.now.entries < 2 ^ 31 }
        ensures { result ≡ acceptance self.now command.now }
    {
        match command {
            Command::AssignUuid { resource } => Response::Uuid {
                bytes: self.uuids.of(*resource).into_bytes(),
            },
            _ => Response::Nodata,
        }
    }
}

/// Whether a command changes something, unless it is refused.
fn changes(command: &Command) -> bool
    ensures { result ≡ changes command.now }
{
    match command {
        Command::TwoD(Command2d::DisplayInfo)
        | Command::CapsetInfo { .. }
        | Command::Capset { .. }
        | Command::Edid { .. }
        | Command::Submit { .. } => false,
        _ => true,
    }
}

/// A copy of the setup.
fn copy_of(alloc: Global, setup: &Setup) -> Result<Setup, AllocError>
    ensures { IfOk result (λ copy. copy ≡ setup.now) }
{
    let displays = setup.displays.as_slice().to_vec(alloc)?;
    Ok(Setup {
        displays: Seq::from_vec(displays),
        pages: setup.pages,
        accepted: setup.accepted,
        clients: setup.clients,
        queues: setup.queues,
        host: setup.host,
    })
}

/// The header of a response to these bytes.
fn header_of_answer(request: &[u8], kind: u32) -> Header
    ensures { result ≡ answer_header request.now kind }
{
    match read_header(request) {
        Some(header) if header.flags & 1 == 1 => Header {
            kind,
            flags: header.flags & 3,
            fence_id: header.fence_id,
            ctx_id: header.ctx_id,
            ring_idx: ring_of(&header),
        },
        _ => Header {
            kind,
            flags: 0,
            fence_id: 0,
            ctx_id: 0,
            ring_idx: 0,
        },
    }
}

/// The ring index of a header that has one, and else 0.
fn ring_of(header: &Header) -> u8
    ensures { result ≡ (if bit_and header.now.flags 2 == 2 then header.now.ring_idx else 0) }
{
    if header.flags & 2 == 2 {
        header.ring_idx
    } else {
        0
    }
}

/// The response's bytes twice, as far as `room` holds them. Without a room nothing is written, which takes no memory.
pub(crate) fn write_answer(
    alloc: Global,
    request: &[u8],
    room: u32,
    response: &Response,
) -> Result<(Vec<u8>, Vec<u8>), AllocError>
    ensures bytes { IfOk result (λ twice. twice.0.items ≡ answered request.now room response.now) }
    ensures same { IfOk result (λ twice. twice.1.items ≡ twice.0.items) }
{
    if room == 0 {
        return Ok((Vec::new(alloc), Vec::new(alloc)));
    }
    let header = header_of_answer(request, response.kind());
    let mut bytes = write_response(alloc, &header, response)?;
    bytes.truncate(room as usize);
    let copy = bytes.as_slice().to_vec(alloc)?;
    Ok((bytes, copy))
}

/// As `write_answer`, in place of what stands in these two: that takes no memory where it is no longer.
fn rewrite_answer(
    request: &[u8],
    room: u32,
    response: &Response,
    twice: (Vec<u8>, Vec<u8>),
) -> Result<(Vec<u8>, Vec<u8>), AllocError>
    ensures bytes { IfOk result (λ twice. twice.0.items ≡ answered request.now room response.now) }
    ensures same { IfOk result (λ twice. twice.1.items ≡ twice.0.items) }
{
    let (mut bytes, mut copy) = twice;
    bytes.clear();
    copy.clear();
    if room == 0 {
        return Ok((bytes, copy));
    }
    let header = header_of_answer(request, response.kind());
    append_response(&mut bytes, &header, response)?;
    bytes.truncate(room as usize);
    copy.extend_from_slice(bytes.as_slice())?;
    Ok((bytes, copy))
}

/// The reply of a command with these bytes as its response.
pub(crate) fn response_of(bytes: Vec<u8>) -> Reply
    ensures { result ≡ replies.Response bytes.items }
{
    Reply::Response {
        bytes: Seq::from_vec(bytes),
    }
}
