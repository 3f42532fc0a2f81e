//! What stands in a journal's line for an act, and for a command.

ghost use Rattle.std.specs.Prelude.{◌≡◌, ◌++◌, codes, decimal, OnErr, OnOk};
ghost use Rattle.vg_list.specs.Front.{HasFront};
ghost use Rattle.vg_text.specs.Text.{hex_text};
ghost use Rattle.vg_journal_words.specs.Text.{act_text, act_reply_text, fault_text, shape_text};
ghost use Rattle.vg_machine.specs.Lines.{reply_text, request_text, rest_of_act, rest_of_command};

use std::alloc::AllocError;
use vg_chain::ChainFault;
use vg_client_holds::{Act, ActReply};
use vg_device::{Reply, Request};
use vg_journal_words::{put_act, put_act_reply, put_fault, put_shape};
use vg_text::Packed;

/// Adds what stands in the line of an act behind its numbers, with the line's end. For want of memory, here and below, a front of
/// it is added.
#[tactic(auto, unfolding(crate::specs::Lines::rest_of_act), using(vg_list::proofs::FrontLemmas::fronts))]
pub(crate) fn put_rest_of_act(
    out: &mut Packed,
    act: &Act,
    reply: &ActReply,
) -> Result<(), AllocError>
    ensures ok { OnOk result (out.new ≡ out.old ++ rest_of_act act.now reply.now) }
    ensures err { OnErr result (HasFront out.old out.new (rest_of_act act.now reply.now)) }
{
    out.put(b" act ")?;
    put_act(out, act)?;
    out.put(b" = ")?;
    put_act_reply(out, reply)?;
    out.put(b"\n")
}

/// The same of a command.
#[tactic(auto, unfolding(crate::specs::Lines::rest_of_command), using(vg_list::proofs::FrontLemmas::fronts))]
pub(crate) fn put_rest_of_command(
    out: &mut Packed,
    request: &Request,
    reply: &Reply,
) -> Result<(), AllocError>
    ensures ok { OnOk result (out.new ≡ out.old ++ rest_of_command request.now reply.now) }
    ensures err { OnErr result (HasFront out.old out.new (rest_of_command request.now reply.now)) }
{
    out.put(b" cmd ")?;
    put_request(out, request)?;
    out.put(b" = ")?;
    put_reply(out, reply)?;
    out.put(b"\n")
}

#[tactic(auto, unfolding(crate::specs::Lines::request_text), using(vg_list::proofs::FrontLemmas::fronts))]
fn put_request(out: &mut Packed, request: &Request) -> Result<(), AllocError>
    ensures ok { OnOk result (out.new ≡ out.old ++ request_text request.now) }
    ensures err { OnErr result (HasFront out.old out.new (request_text request.now)) }
{
    out.put_three(
        u64::from(request.lane),
        request.ordinal,
        u64::from(request.room),
    )?;
    out.put(b" ")?;
    put_shape(out, &request.shape)?;
    out.put_bytes(b" ", request.bytes.as_slice())
}

#[tactic(auto, using(vg_list::proofs::FrontLemmas::fronts))]
fn put_reply(out: &mut Packed, reply: &Reply) -> Result<(), AllocError>
    ensures ok { OnOk result (out.new ≡ out.old ++ reply_text reply.now) }
    ensures err { OnErr result (HasFront out.old out.new (reply_text reply.now)) }
{
    match reply {
        Reply::Response { bytes } => out.put_hex(bytes.as_slice()),
        Reply::Fault { fault } => put_fault_reply(out, *fault),
    }
}

#[tactic(auto, using(vg_list::proofs::FrontLemmas::fronts))]
fn put_fault_reply(out: &mut Packed, fault: ChainFault) -> Result<(), AllocError>
    ensures ok { OnOk result (out.new ≡ out.old ++ (codes "fault " ++ fault_text fault)) }
    ensures err { OnErr result (HasFront out.old out.new (codes "fault " ++ fault_text fault)) }
{
    out.put(b"fault ")?;
    put_fault(out, fault)
}
