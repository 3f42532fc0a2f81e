//! What is said of the clients of frames.

ghost use Rattle.std.specs.Prelude.{◌≡◌, ◌++◌, ℕ, decimal, IfOk, OnOk};
ghost use Rattle.vg_tracing.specs.Text.{clients_text, frame_line, listed, origins_text};
ghost use Rattle.vg_text.specs.Text.{numbered};

use itoa::Buffer;
use std::alloc::{AllocError, Global};
use vg_drawn::clients_of;

/// A line `frame I clients L` for each frame, with its number from 1 and the numbers of its clients, rising, with commas between them,
/// or `-` where it has none, and the line `origins F frames`. A frame is given as the set of its clients: bit c - 1 stands for client c.
pub fn origins_text(alloc: Global, frames: &[u64]) -> Result<Vec<u8>, AllocError>
    ensures { IfOk result (λ text. text.items ≡ origins_text frames.now) }
{
    let mut text = Vec::new(alloc);
    put_frames(alloc, &mut text, frames)?;
    put(&mut text, b"origins ")?;
    put_number(&mut text, frames.len() as u64)?;
    put(&mut text, b" frames\n")?;
    Ok(text)
}

fn put_frames(alloc: Global, out: &mut Vec<u8>, frames: &[u64]) -> Result<(), AllocError>
    ensures { OnOk result (out.new.items ≡ out.old.items ++ numbered frame_line 1 frames.now) }
{
    for (at, set) in frames.iter().enumerate() {
        put_frame(alloc, out, at as u64 + 1, *set)?;
    }
    Ok(())
}

/// The line of the frame with this number.
#[tactic(auto, unfolding(crate::specs::Text::frame_line))]
fn put_frame(alloc: Global, out: &mut Vec<u8>, number: u64, set: u64) -> Result<(), AllocError>
    ensures { OnOk result (out.new.items ≡ out.old.items ++ frame_line number set) }
{
    put(out, b"frame ")?;
    put_number(out, number)?;
    put(out, b" clients ")?;
    put_clients(out, clients_of(alloc, set)?.as_slice())?;
    put(out, b"\n")
}

fn put_clients(out: &mut Vec<u8>, clients: &[u32]) -> Result<(), AllocError>
    ensures { OnOk result (out.new.items ≡ out.old.items ++ clients_text clients.now) }
{
    match clients {
        [] => put(out, b"-"),
        [first, more @ ..] => {
            put_number(out, u64::from(*first))?;
            put_more(out, more)
        }
    }
}

/// Each of these behind a comma.
fn put_more(out: &mut Vec<u8>, clients: &[u32]) -> Result<(), AllocError>
    ensures { OnOk result (out.new.items ≡ out.old.items ++ numbered listed 0 clients.now) }
{
    for client in clients {
        put_one_more(out, *client)?;
    }
    Ok(())
}

fn put_one_more(out: &mut Vec<u8>, client: u32) -> Result<(), AllocError>
    ensures { (n : ℕ) → OnOk result (out.new.items ≡ out.old.items ++ listed n client) }
{
    put(out, b",")?;
    put_number(out, u64::from(client))
}

fn put_number(out: &mut Vec<u8>, number: u64) -> Result<(), AllocError>
    ensures { OnOk result (out.new.items ≡ out.old.items ++ decimal number) }
{
    let mut digits = Buffer::new();
    put(out, digits.format(number).as_bytes())
}

fn put(out: &mut Vec<u8>, bytes: &[u8]) -> Result<(), AllocError>
    ensures { OnOk result (out.new.items ≡ out.old.items ++ bytes.now) }
{
    out.extend_from_slice(bytes)
}
