//! A display with one client, and what tests ask of it.

ghost use Rattle.std.specs.Prelude.{◌≡◌, [], ◌∷◌, IfOk, OnOk};
ghost use Rattle.vg_client_holds.specs.Setup.{IsSetup};
ghost use Rattle.vg_history.specs.Jobs.{but_lane, of_lane};
ghost use Rattle.vg_history.specs.Lists.{Has};
ghost use Rattle.vg_machine_tests.specs.Lanes.{AreOut, lane_in};

use std::alloc::{AllocError, Global};
use std::process::Abort;
use std::test::Fail;
use vg_chain::Shape;
use vg_history::{Begun, Machine};
use vg_list::Seq;
use vg_machine::{Act, ActReply, Display, Holds, Job, Reply, Request, Setup};
use vg_wire::Queue;

/// The cursor queue's lane.
const CURSOR_LANE: u32 = 65;

/// FENCE and INFO_RING_IDX (VIRTIO 1.2, 5.7.6.7).
const FENCE_ON_RING: u32 = 3;

/// A request: its name; its lane, and its ordinal there; its type, the context that its header names, and its fields. That of a lane
/// from 1 to 64 has a fence and the lane's ring index, which is one less.
pub(crate) type Row<'a> = (&'a str, (u32, u64), u32, u32, &'a [u32]);

/// An act, with its numbers in the order of its fields. A buffer has a geometry of 4 by 2 and format 1, and is stored from its
/// first byte on.
#[derive(Clone, Copy)]
pub(crate) enum Do {
    Enter,
    Reserve(u32),
    /// A key, and the first of the bytes.
    Store(u32, u8),
    Load(u32),
    Release(u32),
    Free(u32),
    Take(u32),
}

/// A display with one scanout of 4 by 2 pixels and 16 guest pages, which stand from 0x100000 to 0x110000, and what client 1 holds.
#[derive(Drop)]
pub(crate) struct Rig {
    alloc: Global,
    display: Display,
    holds: Holds,
}

fn small(alloc: Global) -> Result<Setup, AllocError>
    ensures { IfOk result IsSetup }
{
    Ok(Setup {
        displays: Seq::from_vec(vec![in alloc; (4u32, 2u32)]?),
        pages: 16,
        accepted: 0x1_1000_001f,
        clients: 1,
        queues: (256, 64),
        host: false,
    })
}

/// The bytes of a request: a header, whose fence_id is the ordinal, and its fields, each of four bytes (VIRTIO 1.2, 5.7.6.7).
fn bytes_of(alloc: Global, row: &Row<'_>) -> Result<Vec<u8>, AllocError> {
    let (_, (lane, ordinal), kind, context, fields) = *row;
    let (flags, ring) = match lane {
        1..=64 => (FENCE_ON_RING, (lane - 1) as u8),
        _ => (0, 0),
    };
    let mut bytes = kind.to_le_bytes().to_vec(alloc)?;
    bytes.extend_from_slice(&flags.to_le_bytes())?;
    bytes.extend_from_slice(&ordinal.to_le_bytes())?;
    bytes.extend_from_slice(&context.to_le_bytes())?;
    bytes.extend_from_slice(&[ring, 0, 0, 0])?;
    for field in fields {
        bytes.extend_from_slice(&field.to_le_bytes())?;
    }
    Ok(bytes)
}

/// The request in full, in a chain of this shape.
fn request_of(alloc: Global, row: &Row<'_>, shape: Shape) -> Result<Request, AllocError>
    ensures { IfOk result (λ request. request.lane ≡ row.now.1.0) }
{
    let (lane, ordinal) = row.1;
    let queue = if lane == CURSOR_LANE {
        Queue::Cursor
    } else {
        Queue::Control
    };
    Ok(Request {
        queue,
        lane,
        ordinal,
        room: 24,
        shape,
        bytes: Seq::from_vec(bytes_of(alloc, row)?),
    })
}

/// The bytes of eight pixels, which rise from this one.
fn pattern(alloc: Global, first: u8) -> Result<Vec<u8>, AllocError> {
    let mut bytes = Vec::new(alloc);
    for more in 0..32u8 {
        bytes.push(first.wrapping_add(more))?;
    }
    Ok(bytes)
}

/// The act in full.
fn act_of(alloc: Global, what: Do) -> Result<Act, AllocError> {
    let act = match what {
        Do::Enter => Act::Enter,
        Do::Reserve(bytes) => Act::Reserve {
            width: 4,
            height: 2,
            format: 1,
            bytes,
        },
        Do::Store(key, first) => Act::Store {
            key,
            offset: 0,
            bytes: Seq::from_vec(pattern(alloc, first)?),
            times: 1,
        },
        Do::Load(key) => Act::Load {
            key,
            offset: 0,
            length: 1,
        },
        Do::Release(key) => Act::Release { key },
        Do::Free(key) => Act::Free { key },
        Do::Take(scanout) => Act::Take { scanout },
    };
    Ok(act)
}

/// Whether a reply is a header of OK_NODATA alone, which is 0x1100.
fn is_done(reply: &Reply) -> bool {
    match reply {
        Reply::Response { bytes } => {
            let bytes = bytes.as_slice();
            bytes.len() == 24 && bytes.starts_with(&[0, 0x11, 0, 0])
        }
        Reply::Fault { .. } => false,
    }
}

impl Rig {
    pub(crate) fn new(alloc: Global) -> Result<Rig, AllocError>
        ensures { IfOk result (λ rig. rig.display.lent ≡ []) }
    {
        let setup = small(alloc)?;
        Ok(Rig {
            alloc,
            display: Display::new(alloc, &setup)?,
            holds: Holds::new(alloc, &setup, 1),
        })
    }

    /// Does an act of client 1, which isn't refused.
    fn act(&mut self, rt: &impl Abort, what: Do) -> Result<(), AllocError>
        ensures { self.new.display.lent ≡ self.old.display.lent }
    {
        let act = act_of(self.alloc, what)?;
        assert!(rt; self.display.entries() < 1000);
        assert!(rt; !self.display.act_blocked(&act));
        let (reply, _) = self.display.act(self.alloc, 1, &mut self.holds, &act)?;
        let refused = matches!(&reply, ActReply::Refused { .. });
        assert!(rt; !refused, "{reply:?}");
        Ok(())
    }

    /// Does acts of client 1, none of which is refused.
    pub(crate) fn act_all(&mut self, rt: &impl Abort, acts: &[Do]) -> Result<(), AllocError>
        ensures { self.new.display.lent ≡ self.old.display.lent }
    {
        for what in acts {
            self.act(rt, *what)?;
        }
        Ok(())
    }

    /// Runs a request as a whole, which is answered OK_NODATA.
    fn run(&mut self, rt: &impl Abort, row: &Row<'_>) -> Result<(), Fail>
        requires lent { self.old.display.lent ≡ [] }
        ensures lent { OnOk result (self.new.display.lent ≡ []) }
    {
        let request = request_of(self.alloc, row, Shape::Plain)?;
        assert!(rt; self.display.entries() < 1000);
        assert!(rt; !self.display.blocked(&request));
        match self.display.begin(self.alloc, &request)? {
            Begun::Whole((reply, _)) => {
                assert!(rt; is_done(&reply), "{}: {reply:?}", row.0);
                Ok(())
            }
            Begun::Lent(_) => Err("it isn't lent".into()),
        }
    }

    /// Runs requests as a whole, each of which is answered OK_NODATA.
    pub(crate) fn run_all(&mut self, rt: &impl Abort, rows: &[Row<'_>]) -> Result<(), Fail>
        requires lent { self.old.display.lent ≡ [] }
        ensures lent { OnOk result (self.new.display.lent ≡ []) }
    {
        for row in rows {
            self.run(rt, row)?;
        }
        Ok(())
    }

    /// Begins a transfer whose copy is lent.
    fn lend(&mut self, rt: &impl Abort, row: &Row<'_>) -> Result<Job, Fail>
        requires lane { of_lane lane_in row.now.1.0 self.old.display.lent ≡ [] }
        ensures lent { IfOk result (λ job. self.new.display.lent ≡ job ∷ self.old.display.lent) }
        ensures lane { IfOk result (λ job. lane_in job ≡ row.now.1.0) }
    {
        let request = request_of(self.alloc, row, Shape::Plain)?;
        assert!(rt; self.display.entries() < 1000);
        assert!(rt; !self.display.blocked(&request));
        match self.display.begin(self.alloc, &request)? {
            Begun::Lent(job) => Ok(job),
            Begun::Whole(_) => Err("it is lent".into()),
        }
    }

    /// Begins two transfers of two lanes, one after another, and neither copy is made yet.
    pub(crate) fn lend_both(
        &mut self,
        rt: &impl Abort,
        one: &Row<'_>,
        other: &Row<'_>,
    ) -> Result<(Job, Job), Fail>
        requires lent { self.old.display.lent ≡ [] }
        ensures lent { IfOk result (λ both. AreOut self.new.display.lent both.0 both.1) }
    {
        let lanes = (one.1.0, other.1.0);
        assert!(rt; lanes.0 != lanes.1);
        let entries = self.display.entries();
        let first = self.lend(rt, one)?;
        let second = self.lend(rt, other)?;
        assert_eq!(rt; self.display.entries(), entries);
        Ok((first, second))
    }

    /// Makes a copy and brings it back, upon which its request is answered OK_NODATA.
    fn bring_back(&mut self, rt: &impl Abort, job: Job)
        requires one { Has self.old.display.lent job }
        ensures lent { self.new.display.lent ≡ but_lane lane_in (lane_in job) self.old.display.lent }
    {
        let mut job = job;
        Display::work(&mut job);
        assert!(rt; self.display.entries() < 1000);
        let (reply, _) = self.display.end(job);
        assert!(rt; is_done(&reply), "{reply:?}");
    }

    /// Makes two copies and brings them back, the second first.
    pub(crate) fn end_both(&mut self, rt: &impl Abort, first: Job, second: Job)
        requires out { AreOut self.old.display.lent first second }
        ensures lent { self.new.display.lent ≡ [] }
    {
        self.bring_back(rt, second);
        self.bring_back(rt, first);
    }

    /// Whether a request in a chain of this shape has to wait.
    pub(crate) fn waits(&self, row: &Row<'_>, shape: Shape) -> Result<bool, AllocError> {
        let request = request_of(self.alloc, row, shape)?;
        Ok(self.display.blocked(&request))
    }

    /// Whether an act has to wait.
    pub(crate) fn act_waits(&self, what: Do) -> Result<bool, AllocError> {
        let act = act_of(self.alloc, what)?;
        Ok(self.display.act_blocked(&act))
    }

    /// The frame of this number, from 0, is one of scanout 0 and has the bytes that rise from this one.
    fn shows(&self, rt: &impl Abort, number: usize, first: u8) -> Result<(), Fail> {
        let pixels = pattern(self.alloc, first)?;
        let frame = self.display.frames().get(number).ok_or("a frame")?;
        let shown = frame.pixels.to_vec(self.alloc)?;
        assert_eq!(rt; (frame.scanout, frame.width, frame.height), (0, 4, 2));
        assert_eq!(rt; shown.as_slice(), pixels.as_slice());
        Ok(())
    }

    /// The frames are these, by the first bytes of each.
    pub(crate) fn shows_all(&self, rt: &impl Abort, firsts: &[u8]) -> Result<(), Fail> {
        assert_eq!(rt; self.display.frames().len(), firsts.len());
        for (number, first) in firsts.iter().enumerate() {
            self.shows(rt, number, *first)?;
        }
        Ok(())
    }
}
