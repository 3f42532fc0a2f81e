//! A display machine for tests, and the calls that they make of it.

use std::alloc::{AllocError, Global};
use std::process::Abort;
use vg_device::{Act, ActReply, Device, Holds, Setup, ShareRefusal};
use vg_list::Seq;
use vg_wire::Queue;

/// RESOURCE_CREATE_2D, the low byte of its type (VIRTIO 1.2, 5.7.6.7), whose fields are resource, format, width, height.
pub(crate) const CREATE: u8 = 1;

/// RESOURCE_UNREF, whose fields are resource, 0.
pub(crate) const UNREF: u8 = 2;

/// OK_NODATA.
pub(crate) const OK: u32 = 0x1100;

/// An act with its numbers in the order of its fields. A buffer has a geometry of 4 by 2 and format 1.
#[derive(Clone, Copy)]
pub(crate) enum Do<'a> {
    Reserve(u32),
    Store(u32, u32, &'a [u8], u32),
    Load(u32, u32, u32),
    Release(u32),
    Free(u32),
    Take(u32),
    Drop(u32),
}

/// The reply that is due.
#[derive(Clone, Copy)]
pub(crate) enum Due<'a> {
    Ok,
    /// A key, and pages.
    Key(u32, &'a [u32]),
    Bytes(&'a [u8]),
    Last,
    Unknown,
    NotHeld,
    /// The scanout is leased to this client.
    HeldBy(u32),
    /// The scanout shows something.
    InUse(u32),
    Live,
}

/// A display machine with displays of 4 by 2 and 640 by 480 and with 16 guest pages, which stand from 0x100000 to 0x110000,
/// and what its clients 1 and 2 hold.
#[derive(Drop)]
struct Rig {
    alloc: Global,
    device: Device,
    first: Holds,
    second: Holds,
}

/// An entry of a test: a command, which is what it shows, its type, its fields and the type of its response; an UPDATE_CURSOR,
/// which has no type; or an act, which is what it shows, its client, which is 1 or 2, and its reply.
#[derive(Clone, Copy)]
pub(crate) enum Row<'a> {
    Command(&'a str, u8, &'a [u32], u32),
    UpdateCursor(&'a str, &'a [u32], u32),
    Act(&'a str, u32, Do<'a>, Due<'a>),
}

impl Rig {
    fn new(alloc: Global) -> Result<Rig, AllocError> {
        let displays = vec![in alloc; (4u32, 2u32), (640, 480)]?;
        let setup = Setup {
            displays: Seq::from_vec(displays),
            pages: 16,
            accepted: 0x11000001f,
            clients: 2,
            queues: (256, 64),
            host: false,
        };
        Ok(Rig {
            alloc,
            device: Device::new(alloc, &setup)?,
            first: Holds::new(alloc, &setup, 1),
            second: Holds::new(alloc, &setup, 2),
        })
    }

    /// Runs a row, whose answer is the one that is due.
    fn row(&mut self, rt: &impl Abort, row: &Row<'_>) -> Result<(), AllocError> {
        match *row {
            Row::Command(name, kind, fields, code) => {
                self.command(rt, name, Queue::Control, [kind, 1], fields, code)
            }
            Row::UpdateCursor(name, fields, code) => {
                self.command(rt, name, Queue::Cursor, [0, 3], fields, code)
            }
            Row::Act(name, client, what, due) => self.act_once(rt, name, client, what, due),
        }
    }

    /// Runs a command, which is answered by a header alone, of this type and without a fence.
    fn command(
        &mut self,
        rt: &impl Abort,
        name: &str,
        queue: Queue,
        kind: [u8; 2],
        fields: &[u32],
        code: u32,
    ) -> Result<(), AllocError> {
        let request = request(self.alloc, kind, fields)?;
        assert!(rt; self.device.entries() < 1000);
        let answer = self
            .device
            .command(self.alloc, queue, request.as_slice(), 408)?;
        assert_eq!(rt; answer.as_slice(), plain_header(code).as_slice(), "{name}");
        Ok(())
    }

    /// Does an act of client 1 or 2, and gives its reply.
    fn act(&mut self, rt: &impl Abort, client: u32, act: &Act) -> Result<ActReply, AllocError> {
        assert!(rt; self.device.entries() < 1000);
        let (reply, _) = if client == 1 {
            assert!(rt; self.first.client == 1);
            self.device.act(self.alloc, 1, &mut self.first, act)?
        } else {
            assert!(rt; self.second.client == 2);
            self.device.act(self.alloc, 2, &mut self.second, act)?
        };
        Ok(reply)
    }

    /// Does an act of client 1 or 2, whose reply is the one that is due.
    fn act_once(
        &mut self,
        rt: &impl Abort,
        name: &str,
        client: u32,
        what: Do<'_>,
        due: Due<'_>,
    ) -> Result<(), AllocError> {
        let act = act_of(self.alloc, what)?;
        let reply = self.act(rt, client, &act)?;
        assert!(rt; is_due(&reply, due), "{name}: {reply:?}");
        Ok(())
    }
}

/// Runs the rows on a new machine, each of which is counted.
pub(crate) fn run(rt: &impl Abort, alloc: Global, rows: &[Row<'_>]) -> Result<(), AllocError> {
    let mut rig = Rig::new(alloc)?;
    for row in rows {
        rig.row(rt, row)?;
    }
    assert_eq!(rt; rig.device.entries(), rows.len() as u64);
    Ok(())
}

/// The bytes of a request with no flags, of a type with these low bytes.
fn request(alloc: Global, kind: [u8; 2], fields: &[u32]) -> Result<Vec<u8>, AllocError> {
    let mut bytes = kind.to_vec(alloc)?;
    bytes.extend_from_slice(&[0; 22])?;
    for field in fields {
        bytes.extend_from_slice(&field.to_le_bytes())?;
    }
    Ok(bytes)
}

/// The header of a response without a fence.
fn plain_header(code: u32) -> [u8; 24] {
    let [low, high, _, _] = code.to_le_bytes();
    [
        low, high, 0, 0, 0, 0, 0, 0, 0, 0, 0, 0, 0, 0, 0, 0, 0, 0, 0, 0, 0, 0, 0, 0,
    ]
}

/// The act in full.
fn act_of(alloc: Global, what: Do<'_>) -> Result<Act, AllocError> {
    let act = match what {
        Do::Reserve(bytes) => Act::Reserve {
            width: 4,
            height: 2,
            format: 1,
            bytes,
        },
        Do::Store(key, offset, bytes, times) => Act::Store {
            key,
            offset,
            bytes: Seq::from_vec(bytes.to_vec(alloc)?),
            times,
        },
        Do::Load(key, offset, length) => Act::Load {
            key,
            offset,
            length,
        },
        Do::Release(key) => Act::Release { key },
        Do::Free(key) => Act::Free { key },
        Do::Take(scanout) => Act::Take { scanout },
        Do::Drop(scanout) => Act::Drop { scanout },
    };
    Ok(act)
}

/// Whether a reply is the one that is due.
fn is_due(reply: &ActReply, due: Due<'_>) -> bool {
    match (reply, due) {
        (ActReply::Ok, Due::Ok) | (ActReply::Last, Due::Last) => true,
        (ActReply::Reserved { key, pages }, Due::Key(number, list)) => {
            *key == number && pages.as_slice() == list
        }
        (ActReply::Bytes { bytes }, Due::Bytes(list)) => bytes.as_slice() == list,
        (ActReply::Refused { refusal }, due) => is_due_refusal(*refusal, due),
        _ => false,
    }
}

fn is_due_refusal(refusal: ShareRefusal, due: Due<'_>) -> bool {
    match (refusal, due) {
        (ShareRefusal::ScanoutHeld { by: n }, Due::HeldBy(m))
        | (ShareRefusal::InUse { scanout: n }, Due::InUse(m)) => n == m,
        (ShareRefusal::UnknownKey, Due::Unknown)
        | (ShareRefusal::NotHeld, Due::NotHeld)
        | (ShareRefusal::ResourceLive, Due::Live) => true,
        _ => false,
    }
}
