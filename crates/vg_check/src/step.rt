//! One entry more of a client: whether it is right, and then what changes.

ghost use Rattle.std.specs.Prelude.{◌≡◌, ◌<◌, ◌-◌, ◌^◌, true, false, IfOk};
ghost use Rattle.vg_check.specs.TestsWithin.{HasActed, HasAsked, PassesAct, PassesCommand};

use crate::counts::put_number;
use crate::same::{same_act_reply, same_reply};
use crate::seen::{Seen, is_leaving};
use std::alloc::{AllocError, Global};
use vg_machine::{Act, ActReply, Device, Reply, Request};

/// Whether the act is right, with its reply. Where it is, the display does it, and it is kept.
pub(crate) fn check_act(
    alloc: Global,
    display: &mut Device,
    lanes: &[u64],
    seen: &mut Seen,
    client: u32,
    call: u64,
    act: &Act,
    reply: &ActReply,
) -> Result<bool, AllocError>
    requires entries { display.old.entries < 2 ^ 31 - 1 }
    requires call { call < 2 ^ 63 }
    ensures right { IfOk result (λ right. right ≡ true → HasActed display.old lanes.now seen.old client call act.now reply.now display.new seen.new) }
    ensures wrong { IfOk result (λ right. right ≡ false → PassesAct display.old lanes.now seen.old client call act.now reply.now → ⊥) }
{
    if !seen.may_act(alloc, lanes, call, act)? {
        return Ok(false);
    }
    let (given, _copy) = display.act_as(alloc, client, &mut seen.holds, act)?;
    if !same_act_reply(reply, &given) {
        return Ok(false);
    }
    seen.numbers.add(call)?;
    seen.left = seen.left || is_leaving(act);
    Ok(true)
}

/// The same of a command.
pub(crate) fn check_command(
    alloc: Global,
    display: &mut Device,
    lanes: &[u64],
    seen: &mut Seen,
    call: u64,
    request: &Request,
    reply: &Reply,
) -> Result<bool, AllocError>
    requires entries { display.old.entries < 2 ^ 31 - 1 }
    requires call { call < 2 ^ 63 }
    ensures right { IfOk result (λ right. right ≡ true → HasAsked display.old lanes.now seen.old call request.now reply.now display.new seen.new) }
    ensures wrong { IfOk result (λ right. right ≡ false → PassesCommand display.old lanes.now seen.old call request.now reply.now → ⊥) }
{
    if !seen.may_ask(alloc, lanes, call, request)? {
        return Ok(false);
    }
    let (given, _copy) = display.request(alloc, request)?;
    if !same_reply(reply, &given) {
        return Ok(false);
    }
    seen.numbers.add(call)?;
    put_number(&mut seen.last, request.lane, call);
    Ok(true)
}
