//! All of some bytes into a sink.

ghost use Rattle.std.specs.Prelude.{◌≡◌, ◌≤◌, OnOk, OnErr};
ghost use Rattle.vg_io.specs.Streams.{Rose, Takes, TakesSome};

use super::{Failed, Sink};

/// How many bytes are given to a sink at once, at the most.
const PIECE: usize = 65_536;

/// Writes all of `bytes`, in pieces of at most 65,536 bytes. Where it fails, the sink has taken a front
/// of them.
#[tactic(auto, using(crate::proofs::StreamLemmas::takes_next))]
pub fn write_all<K: Sink>(sink: &mut K, bytes: &[u8]) -> Result<(), Failed>
    ensures ok { OnOk result (Takes (K.held sink.old) (K.held sink.new) bytes.now) }
    ensures failed { OnErr result (TakesSome (K.held sink.old) (K.held sink.new) bytes.now) }
    ensures cause { OnErr result (Rose (K.faults sink.old) (K.faults sink.new)) }
    ensures same { OnOk result (K.faults sink.new ≡ K.faults sink.old) }
    ensures count { K.faults sink.old ≤ K.faults sink.new }
{
    let mut at = 0;
    while at < bytes.len() {
        let end = at + (bytes.len() - at).min(PIECE);
        at += sink.write(&bytes[at..end])?;
    }
    Ok(())
}
