//! A request with the room for its response.

ghost use Rattle.std.specs.Prelude.{◌≡◌, ◌+◌, ◌≤◌, ◌^◌, Ok, false, [], length, take, min, IfErr, IfOk};
ghost use Rattle.vg_chain.specs.declared.form.Form.TheVariants.{Split};
ghost use Rattle.vg_chain.specs.Asks.{asked};
ghost use Rattle.vg_chain.specs.Space.{most_request, most_room, IsPlaced};
ghost use Rattle.vg_chain.specs.Made.{Covers, IsCount, AreTables};
ghost use Rattle.vg_cargo.specs.Cargo.{IsLane, IsExtent, Tells, asked_of};
ghost use Rattle.vg_cargo.specs.Cargo as cargo;
ghost use Rattle.vg_cargo.specs.Walked.{IsWalkOf};

use crate::gather::{read_by, scatter, total};
use std::alloc::{AllocError, Global};
use std::marker::Model;
use std::snapshot::Snapshot;
use vg_chain::{Chain, ChainFault, Extent, Form, Parts, ROOM_OFFSET, SPACE, Segment, Shape};
use vg_wire::Queue;

/// The lane of a request and its number in that lane.
#[derive(Clone, Copy, Debug, PartialEq, Eq)]
pub struct Tag {
    /// From 0 to 65.
    pub lane: u32,
    /// From 1.
    pub ordinal: u64,
}

/// What a device reads of a request through its chain.
#[derive(Drop)]
pub struct Command {
    pub queue: Queue,
    pub bytes: Vec<u8>,
    /// How many bytes there are for the response.
    pub room: u32,
    /// The shape of the chain, with the fault that the walk of a bad one comes to.
    pub shape: Shape,
}

/// A request with the room for its response, on its way to the device.
#[derive(Drop)]
pub struct Parcel {
    opened: Opened,
    request: Vec<u8>,
}

impl Model for Parcel {
    ghost use Rattle.std.specs.Prelude.{◌≡◌};
    ghost use Rattle.vg_cargo.specs.Cargo.{ParcelData};

    ghost Value = { ParcelData };

    ghost view = { λ p. p.opened };

    ghost invariant = { λ p. p.request.items ≡ p.opened.request };
}

/// A parcel whose request's bytes were taken out: the bytes of its indirect tables, and the room for its response. Which bytes
/// they were only contracts read here.
#[derive(Drop)]
pub struct Opened {
    queue: Queue,
    head: u16,
    tag: Tag,
    shape: Shape,
    request: Snapshot<Vec<u8>>,
    /// How many bytes its request has.
    size: u32,
    tables: Vec<u8>,
    room: Vec<u8>,
    /// How much of the room is filled, which the used length tells who takes the parcel back.
    filled: Snapshot<usize>,
}

impl Model for Opened {
    ghost use Rattle.std.specs.Prelude.{◌≡◌, ◌≤◌, length, take};
    ghost use Rattle.vg_cargo.specs.Cargo.{ParcelData, IsParcel, parcel_of};

    ghost Value = { ParcelData };

    ghost view = { λ p. parcel_of p.queue p.head p.tag.lane p.tag.ordinal p.shape p.request.value.items p.tables.items p.room.items p.filled.value };

    ghost invariant = { λ p. (p.filled.value ≤ length p.room.items) × (p.size ≡ length p.request.value.items) × IsParcel (parcel_of p.queue p.head p.tag.lane p.tag.ordinal p.shape p.request.value.items p.tables.items p.room.items p.filled.value) };
}

/// The address of the first byte of a request.
fn base_of(queue: Queue, head: u16) -> u64
    ensures base { result ≡ cargo.base_of queue head }
    ensures small { IsPlaced result }
{
    let from = match queue {
        Queue::Control => 0x1_0000_0000_0000,
        Queue::Cursor => 0x1_0001_0000_0000,
    };
    from + SPACE * u64::from(head)
}

/// Writes bytes into the room by its segments, which keeps its length.
fn write(room: &mut Vec<u8>, start: u64, segments: &[Segment], bytes: &[u8])
    requires segments { Covers start (length room.old.items) segments.now }
    requires few { length bytes.now ≤ length room.old.items }
    ensures front { take (length bytes.now) room.new.items ≡ bytes.now }
    ensures length { length room.new.items ≡ length room.old.items }
{
    scatter(room.as_mut_slice(), start, segments, bytes);
}

impl Parcel {
    /// A parcel whose response is empty, with the tables of its shape.
    pub fn new(
        alloc: Global,
        queue: Queue,
        head: u16,
        tag: Tag,
        shape: Shape,
        request: Vec<u8>,
        room: u32,
    ) -> Result<Parcel, AllocError>
        requires request { length request.items ≤ most_request }
        requires room { room ≤ most_room }
        requires lane { IsLane queue tag.lane }
        requires count { IsCount shape }
        ensures parcel { IfOk result (λ p. p ≡ record { queue = queue; head = head; lane = tag.lane; ordinal = tag.ordinal; shape = shape; request = request.items; room = room; tables = p.tables; response = [] }) }
        ensures tables { IfOk result (λ p. AreTables Split shape (length request.items) room (cargo.base_of queue head) p.tables) }
    {
        let size = request.len() as u32;
        let extent = Extent {
            base: base_of(queue, head),
            request: size,
            room,
        };
        let tables = shape.tables(alloc, Form::Split, &extent)?;
        let opened = Opened {
            queue,
            head,
            tag,
            shape,
            request: Snapshot::of(&request),
            size,
            tables,
            room: vec![in alloc; 0; room as usize]?,
            filled: Snapshot::of(&0),
        };
        Ok(Parcel { opened, request })
    }

    /// The lane and the ordinal.
    pub fn tag(&self) -> Tag
        ensures tag { (result.lane ≡ self.now.lane) × (result.ordinal ≡ self.now.ordinal) }
        ensures lane { IsLane self.now.queue result.lane }
    {
        self.opened.tag()
    }

    /// What is left of it without the request's bytes, and these.
    pub(crate) fn open(self) -> (Opened, Vec<u8>)
        ensures { (result.0 ≡ self) × (result.1.items ≡ self.request) }
    {
        let Parcel { opened, request } = self;
        (opened, request)
    }
}

impl Opened {
    /// Where the request and its room lie.
    pub(crate) fn extent(&self) -> Extent
        ensures { IsExtent self.now result.base result.request result.room }
    {
        Extent {
            base: base_of(self.queue, self.head),
            request: self.size,
            room: self.room.len() as u32,
        }
    }

    /// Where its parts lie, with the bytes of its tables.
    pub(crate) fn parts(&self) -> Parts
        ensures extent { IsExtent self.now result.base result.request result.room }
        ensures form { result.form ≡ Split }
        ensures tables { AreTables Split self.now.shape (length self.now.request) self.now.room (cargo.base_of self.now.queue self.now.head) result.tables.now }
    {
        let Extent {
            base,
            request,
            room,
        } = self.extent();
        Parts {
            form: Form::Split,
            base,
            request,
            room,
            tables: self.tables.as_slice(),
        }
    }

    /// The lane and the ordinal.
    pub fn tag(&self) -> Tag
        ensures tag { (result.lane ≡ self.now.lane) × (result.ordinal ≡ self.now.ordinal) }
        ensures lane { IsLane self.now.queue result.lane }
    {
        self.tag
    }

    /// What it asks for, as the walk of its chain reads it in the request's bytes. For want of memory these come back.
    pub(crate) fn read(
        &self,
        alloc: Global,
        request: Vec<u8>,
        walked: &Result<Chain, ChainFault>,
    ) -> Result<Command, Vec<u8>>
        requires request { request.items ≡ self.now.request }
        requires walk { IsWalkOf self.now walked.now }
        ensures read { IfOk result (λ read. asked_of self.now ≡ asked read.queue read.bytes.items read.room read.shape) }
        ensures err { IfErr result (λ bytes. bytes.items ≡ self.now.request) }
    {
        match walked {
            Ok(chain) => self.read_through(alloc, request, chain),
            Err(fault) => Ok(Command {
                queue: self.queue,
                bytes: request,
                room: self.room.len() as u32,
                shape: Shape::Bad { fault: *fault },
            }),
        }
    }

    /// What it asks for, as the segments of its chain have it.
    fn read_through(
        &self,
        alloc: Global,
        request: Vec<u8>,
        chain: &Chain,
    ) -> Result<Command, Vec<u8>>
        requires request { request.items ≡ self.now.request }
        requires walk { IsWalkOf self.now (Ok chain.now) }
        ensures read { IfOk result (λ read. asked_of self.now ≡ asked read.queue read.bytes.items read.room read.shape) }
        ensures err { IfErr result (λ bytes. bytes.items ≡ self.now.request) }
    {
        let base = base_of(self.queue, self.head);
        let readable = chain.readable.as_slice();
        Ok(Command {
            queue: self.queue,
            bytes: read_by(alloc, request, base, readable)?,
            room: total(chain.writable.as_slice()),
            shape: self.shape,
        })
    }

    /// Writes as many of these bytes as there is room for by the writable segments of its chain, in place of what
    /// was filled before, and answers how many.
    pub fn fill_by(&mut self, chain: &Chain, bytes: &[u8]) -> u32
        requires { IsWalkOf self.old (Ok chain.now) }
        ensures count { result ≡ min (length bytes.now) self.old.room }
        ensures response { self.new ≡ record self.old { response = take result bytes.now } }
    {
        let start = base_of(self.queue, self.head) + ROOM_OFFSET;
        let count = bytes.len().min(self.room.len());
        let writable = chain.writable.as_slice();
        write(&mut self.room, start, writable, &bytes[..count]);
        self.filled = Snapshot::of(&count);
        count as u32
    }

    /// Nothing is filled any more.
    pub fn clear(&mut self)
        ensures { self.new ≡ record self.old { response = [] } }
    {
        self.filled = Snapshot::of(&0);
    }

    /// The bytes that were filled into the room, as many as the used length says.
    pub fn response(&self, len: u32) -> &[u8]
        requires { length self.now.response ≡ len }
        ensures { result.now ≡ self.now.response }
    {
        &self.room[..len as usize]
    }

    /// The shape, and the bytes that were filled into the room, as many as the used length says. It takes no memory.
    pub fn into_response(self, len: u32) -> (Shape, Vec<u8>)
        requires { length self.response ≡ len }
        ensures shape { result.0 ≡ self.shape }
        ensures bytes { result.1.items ≡ self.response }
    {
        let Opened {
            shape,
            mut room,
            ..
        } = self;
        room.truncate(len as usize);
        (shape, room)
    }
}
