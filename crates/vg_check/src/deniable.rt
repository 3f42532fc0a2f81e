//! Whether a client may be denied what it was.

ghost use Rattle.std.specs.Prelude.{◌≡◌, ◌↔◌, ◌==◌, ◌&&◌, [], not, IfOk, IsTrue};
ghost use Rattle.vg_client_holds.specs.declared.act.What.TheVariants.{Context, Scanout};
ghost use Rattle.std.specs.List.{list_any};
ghost use Rattle.vg_client_holds.specs.Holds.{Deniable, has_key, is_own_context};
ghost use Rattle.vg_machine.specs.Order.{MayBeDenied};

use std::alloc::{AllocError, Global};
use std::mem::replace;
use vg_list::Seq;
use vg_machine::{Act, Holds, What, denied_command};
use vg_wire::{Command2d, Header};
use vg_wire_ext::Command;

/// Whether an act that says that its client was denied something says so rightly. The holds stay as they are.
pub(crate) fn is_deniable_act(
    alloc: Global,
    holds: &mut Holds,
    act: &Act,
) -> Result<bool, AllocError>
    ensures right { IfOk result (λ right. IsTrue right ↔ MayBeDenied holds.old act.now) }
    ensures same { holds.new ≡ holds.old }
{
    match act {
        Act::Denied { what } => is_deniable(alloc, holds, *what),
        _ => Ok(true),
    }
}

/// Whether a client with these holds may be denied this. The holds stay as they are.
fn is_deniable(alloc: Global, holds: &mut Holds, what: What) -> Result<bool, AllocError>
    ensures right { IfOk result (λ right. IsTrue right ↔ Deniable holds.old what) }
    ensures same { holds.new ≡ holds.old }
{
    match what {
        What::Name => Ok(true),
        What::Resource { n } => is_unheld(alloc, holds, n),
        What::Scanout { n } => Ok(is_unleased(holds, n)),
        What::Context { n } => Ok(is_foreign(holds, n)),
        What::Page { n } => Ok(n < holds.pages),
    }
}

/// Whether it is a resource of which the client holds no buffer. A client with its holds that takes nothing down could not create
/// it.
fn is_unheld(alloc: Global, holds: &mut Holds, n: u32) -> Result<bool, AllocError>
    ensures right { IfOk result (λ right. right ≡ (not (n == 0) && not (list_any (has_key n) holds.old.buffers))) }
    ensures same { holds.new ≡ holds.old }
{
    let none = Seq::from_vec(Vec::new(alloc));
    let taking_down = replace(&mut holds.taking_down, none);
    let unheld = is_denied(alloc, holds, n);
    holds.taking_down = taking_down;
    unheld
}

/// Whether a client with these holds that takes nothing down is denied to create the resource.
fn is_denied(alloc: Global, holds: &Holds, n: u32) -> Result<bool, AllocError>
    requires { holds.now.taking_down ≡ [] }
    ensures { IfOk result (λ right. right ≡ (not (n == 0) && not (list_any (has_key n) holds.now.buffers))) }
{
    let header = Header {
        kind: 0,
        flags: 0,
        fence_id: 0,
        ctx_id: 0,
        ring_idx: 0,
    };
    let command = Command::TwoD(Command2d::Create2d {
        resource: n,
        format: 0,
        width: 0,
        height: 0,
    });
    Ok(denied_command(alloc, holds, &header, &command)?.is_some())
}

/// Whether there is such a scanout, and it isn't leased to the client.
fn is_unleased(holds: &Holds, n: u32) -> bool
    ensures { IsTrue result ↔ Deniable holds.now (Scanout n) }
{
    n < holds.displays && !holds.scanouts.as_slice().contains(&n)
}

/// Whether it is a context that may be another client's.
fn is_foreign(holds: &Holds, n: u32) -> bool
    ensures { IsTrue result ↔ Deniable holds.now (Context n) }
{
    n != 0 && n < 0x8000_0000 && !is_own(holds, n)
}

/// Whether it is one of the client's contexts.
fn is_own(holds: &Holds, n: u32) -> bool
    ensures { result ≡ is_own_context holds.now n }
{
    let first = 256 * u64::from(holds.client) + 1;
    first <= u64::from(n) && u64::from(n) <= first + 254
}
