//! From whose bytes each frame of a history comes, entry by entry.

ghost use Rattle.std.specs.Prelude.{◌≡◌, ◌≤◌, ◌<◌, ◌-◌, ◌^◌, [], replicate, IfOk, OnOk};
ghost use Rattle.vg_client_holds.specs.Setup.{IsSetup};
ghost use Rattle.vg_machine.specs.Replay.{after};
ghost use Rattle.vg_drawers.specs.Drawers.{act_by_client, by_client};
ghost use Rattle.vg_device.specs.ActStep.{act_step};
ghost use Rattle.vg_drawn.specs.Drawn.{GoesOver, HasRoom, IsDrawn, IsOfFew};

use crate::made::add_sets;
use std::alloc::{AllocError, Global};
use vg_device::{Act, Device, Holds, Setup};
use vg_linked::replayed_states_are_consistent;
use vg_list::Seq;
use vg_machine::Entry;
use vg_painted::numbers_are_the_bytes;

/// A display that goes through a history again, in which each client stores its own number in place of its bytes, and the clients of
/// each frame so far. So each of the display's bytes tells who stored the byte that is there in truth.
#[derive(Drop)]
pub struct Drawn {
    display: Device,
    /// Of nobody: acts change it.
    holds: Holds,
    /// Of each frame the set of its clients.
    frames: Vec<u64>,
}

impl Drawn {
    /// There are no entries yet.
    pub fn new(alloc: Global, setup: &Setup) -> Result<Drawn, AllocError>
        requires { IsSetup setup.now }
        ensures { IfOk result (IsDrawn setup.now []) }
    {
        Ok(Drawn {
            display: Device::new(alloc, setup)?,
            holds: Holds::new(alloc, setup, 1),
            frames: Vec::new(alloc),
        })
    }

    /// Goes over one entry more. It fails only for want of memory.
    pub fn next(&mut self, alloc: Global, entry: &Entry) -> Result<(), AllocError>
        requires before { HasRoom self.old }
        requires client { IsOfFew entry.now }
        ensures { OnOk result (GoesOver self.old entry.now self.new) }
    {
        replayed_states_are_consistent();
        numbers_are_the_bytes();
        step(alloc, &mut self.display, &mut self.holds, entry)?;
        add_sets(alloc, &self.display, &mut self.frames)?;
        Ok(())
    }

    /// Of each frame so far, the set of the clients whose bytes it has.
    pub fn frames(&self) -> &[u64]
        ensures { result.now ≡ self.now.frames.items }
    {
        self.frames.as_slice()
    }

    /// The same, where the display is given up.
    pub fn into_frames(self) -> Vec<u64>
        ensures { result.items ≡ self.frames.items }
    {
        self.frames
    }
}

/// An entry, once more, with its client's number in place of what it stores.
fn step(
    alloc: Global,
    display: &mut Device,
    holds: &mut Holds,
    entry: &Entry,
) -> Result<(), AllocError>
    requires entries { display.old.entries < 2 ^ 31 - 1 }
    requires client { IsOfFew entry.now }
    ensures { OnOk result (display.new ≡ after display.old (by_client entry.now)) }
{
    match entry {
        Entry::Act { client, act, .. } => act_again(alloc, display, holds, *client, act),
        Entry::Command { request, .. } => {
            display.request(alloc, request)?;
            Ok(())
        }
    }
}

/// As many bytes, each of which is the client's number.
fn numbers(alloc: Global, client: u32, count: usize) -> Result<Seq<u8>, AllocError>
    requires { client ≤ 33 }
    ensures { IfOk result (λ bytes. bytes ≡ replicate count client) }
{
    let bytes = vec![in alloc; client as u8; count]?;
    Ok(Seq::from_vec(bytes))
}

/// A client's act, once more, with its number in place of what it stores.
fn act_again(
    alloc: Global,
    display: &mut Device,
    holds: &mut Holds,
    client: u32,
    act: &Act,
) -> Result<(), AllocError>
    requires entries { display.old.entries < 2 ^ 31 - 1 }
    requires client { client ≤ 33 }
    ensures { OnOk result (display.new ≡ (act_step display.old client (act_by_client client act.now)).0) }
{
    match act {
        Act::Store {
            key,
            offset,
            bytes,
            times,
        } => {
            let store = Act::Store {
                key: *key,
                offset: *offset,
                bytes: numbers(alloc, client, bytes.len())?,
                times: *times,
            };
            display.act_as(alloc, client, holds, &store)?;
        }
        _ => {
            display.act_as(alloc, client, holds, act)?;
        }
    }
    Ok(())
}
