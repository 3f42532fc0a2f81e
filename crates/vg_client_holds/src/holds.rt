//! What a client holds, and what it may ask of the device.

ghost use Rattle.std.specs.Prelude.{◌≡◌, false, not, if◌then◌else◌, map, Some, None, IfOk, IfSome};
ghost use Rattle.vg_wire_ext.specs.declared.command.Command.TheVariants as commands;
ghost use Rattle.vg_client_holds.specs.declared.act.What.TheVariants as whats;
ghost use Rattle.vg_client_holds.specs.Setup.{IsSetup};
ghost use Rattle.vg_client_holds.specs.Holds as holding;
ghost use Rattle.vg_client_holds.specs.Holds.{Deniable, context_in, denied_of, entries_in, first_holds, is_allowed_resource, is_allowed_scanout, names_in, names_of_2d, pages_in};

use crate::act::What;
use crate::buffers::Buffers;
use crate::foreign::first_foreign;
use crate::setup::Setup;
use std::alloc::{AllocError, Global};
use vg_list::Seq;
use vg_wire::{Command2d, Header, Queue};
use vg_wire_ext::{Command, read_request};

/// What a client holds, by its own acts and their replies.
#[derive(Drop)]
pub struct Holds {
    /// The client's number.
    pub client: u32,
    /// Whether it is the host, which plugs and unplugs displays.
    pub host: bool,
    /// How many displays there are.
    pub displays: u32,
    /// How many guest pages there are.
    pub pages: u32,
    /// Keys and pages of the buffers that it holds or takes down.
    pub buffers: Buffers,
    /// The keys of the buffers that it takes down.
    pub taking_down: Seq<u32>,
    /// The scanouts leased to it.
    pub scanouts: Seq<u32>,
}

impl Holds {
    /// What a client holds before its first act.
    pub fn new(alloc: Global, setup: &Setup, client: u32) -> Holds
        requires { IsSetup setup.now }
        ensures { result ≡ first_holds setup.now client }
    {
        Holds {
            client,
            host: setup.host && client == setup.clients + 1,
            displays: setup.displays.len() as u32,
            pages: setup.pages,
            buffers: Buffers::new(alloc),
            taking_down: Seq::from_vec(Vec::new(alloc)),
            scanouts: Seq::from_vec(Vec::new(alloc)),
        }
    }
}

/// The first thing that a request names and that isn't allowed to a client with these holds: its resource, its scanout, its
/// context, or one of its pages, in this order. None where the request is allowed, as one is that is malformed.
pub fn denied(
    alloc: Global,
    holds: &Holds,
    queue: Queue,
    request: &[u8],
) -> Result<Option<What>, AllocError>
    ensures first { IfOk result (λ what. what ≡ denied_of holds.now queue request.now) }
    // What is denied is something that may be.
    ensures deniable { IfOk result (λ what. IfSome what (Deniable holds.now)) }
{
    match read_request(alloc, request, queue)? {
        Ok((header, command)) => denied_command(alloc, holds, &header, &command),
        Err(_) => Ok(None),
    }
}

/// The first thing that a request with this header and command names and that isn't allowed, as `denied` has it.
pub fn denied_command(
    alloc: Global,
    holds: &Holds,
    header: &Header,
    command: &Command,
) -> Result<Option<What>, AllocError>
    ensures first { IfOk result (λ what. what ≡ holding.denied_command holds.now header.now command.now) }
    // What is denied is something that may be.
    ensures deniable { IfOk result (λ what. IfSome what (Deniable holds.now)) }
{
    first_denied(alloc, holds, header, command)
}

/// The same, part by part.
fn first_denied(
    alloc: Global,
    holds: &Holds,
    header: &Header,
    command: &Command,
) -> Result<Option<What>, AllocError>
    ensures { IfOk result (λ what. what ≡ holding.denied_command holds.now header.now command.now) }
{
    if let Some(what) = denied_name(holds, command) {
        return Ok(Some(what));
    }
    if let Some(what) = denied_context(holds, header, command) {
        return Ok(Some(what));
    }
    denied_page(alloc, holds, command)
}

/// The resource or the scanout of a command, if it isn't allowed.
fn denied_name(holds: &Holds, command: &Command) -> Option<What>
    ensures { result ≡ holding.first_denied holds.now command.now (names_in command.now) }
{
    match command {
        Command::TwoD(command) => denied_2d(holds, command),
        Command::CreateBlob { resource, .. } => denied_resource(holds, true, *resource),
        Command::AssignUuid { resource }
        | Command::CtxAttach { resource }
        | Command::CtxDetach { resource } => denied_resource(holds, false, *resource),
        Command::SetScanoutBlob {
            scanout,
            resource,
            ..
        } => denied_both(holds, *resource, *scanout),
        Command::UpdateCursor {
            scanout,
            resource,
            ..
        } => denied_both(holds, *resource, *scanout),
        Command::MoveCursor { scanout, .. } => denied_scanout(holds, *scanout),
        _ => None,
    }
}

/// The resource or the scanout of a 2D command, if it isn't allowed.
fn denied_2d(holds: &Holds, command: &Command2d) -> Option<What>
    ensures { result ≡ holding.first_denied holds.now (commands.TwoD command.now) (names_of_2d command.now) }
{
    match command {
        Command2d::DisplayInfo => None,
        Command2d::Create2d { resource, .. } => denied_resource(holds, true, *resource),
        Command2d::SetScanout {
            scanout,
            resource,
            ..
        } => denied_both(holds, *resource, *scanout),
        Command2d::Unref { resource }
        | Command2d::Flush { resource, .. }
        | Command2d::Transfer { resource, .. }
        | Command2d::Attach { resource, .. }
        | Command2d::Detach { resource } => denied_resource(holds, false, *resource),
    }
}

/// The resource, and else the scanout, if it isn't allowed.
fn denied_both(holds: &Holds, resource: u32, scanout: u32) -> Option<What>
    ensures { result
        ≡ (if not (is_allowed_resource holds.now false resource) then Some (whats.Resource resource)
        else if is_allowed_scanout holds.now scanout then None
        else Some (whats.Scanout scanout)) }
{
    match denied_resource(holds, false, resource) {
        Some(what) => Some(what),
        None => denied_scanout(holds, scanout),
    }
}

/// The resource, if it isn't allowed.
fn denied_resource(holds: &Holds, creating: bool, n: u32) -> Option<What>
    ensures { result ≡ (if is_allowed_resource holds.now creating n then None else Some (whats.Resource n)) }
{
    if is_allowed_resource(holds, creating, n) {
        None
    } else {
        Some(What::Resource { n })
    }
}

/// Whether the client may name a resource. No buffer has a key of 2^31 or more, so such a number may be named, but not
/// created.
fn is_allowed_resource(holds: &Holds, creating: bool, n: u32) -> bool
    ensures { result ≡ holding.is_allowed_resource holds.now creating n }
{
    let is_free = n == 0 || (n >= 0x8000_0000 && !creating);
    is_free || holds.buffers.has(n) || holds.taking_down.as_slice().contains(&n)
}

/// The scanout, if it isn't allowed.
fn denied_scanout(holds: &Holds, n: u32) -> Option<What>
    ensures { result ≡ (if is_allowed_scanout holds.now n then None else Some (whats.Scanout n)) }
{
    if is_allowed_scanout(holds, n) {
        None
    } else {
        Some(What::Scanout { n })
    }
}

/// Whether the client may name a scanout.
fn is_allowed_scanout(holds: &Holds, n: u32) -> bool
    ensures { result ≡ holding.is_allowed_scanout holds.now n }
{
    holds.displays <= n || holds.scanouts.as_slice().contains(&n)
}

/// The context of a request, if it names one and that isn't allowed.
fn denied_context(holds: &Holds, header: &Header, command: &Command) -> Option<What>
    ensures { result ≡ holding.first_denied holds.now command.now (context_in header.now command.now) }
{
    let n = header.ctx_id;
    let is_named = is_of_context(command) || header.flags & 2 == 2;
    if is_named && !is_allowed_context(holds, n) {
        Some(What::Context { n })
    } else {
        None
    }
}

/// Whether the command is one of contexts.
fn is_of_context(command: &Command) -> bool
    ensures { result ≡ holding.is_of_context command.now }
{
    match command {
        Command::CtxCreate { .. } | Command::CtxDestroy => true,
        Command::CtxAttach { .. } | Command::CtxDetach { .. } => true,
        Command::Submit { .. } => true,
        _ => false,
    }
}

/// Whether the client may name a context.
fn is_allowed_context(holds: &Holds, n: u32) -> bool
    ensures { result ≡ holding.is_allowed_context holds.now n }
{
    let first = 256 * u64::from(holds.client) + 1;
    let is_own = (first..=first + 254).contains(&u64::from(n));
    n == 0 || n >= 0x8000_0000 || is_own
}

/// The first page that a command gives to a resource, if it isn't allowed.
fn denied_page(alloc: Global, holds: &Holds, command: &Command) -> Result<Option<What>, AllocError>
    ensures { IfOk result (λ what.
        what ≡ holding.first_denied holds.now command.now (map whats.Page (pages_in holds.now.pages (entries_in command.now)))) }
{
    match command {
        Command::TwoD(Command2d::Attach { resource, entries }) => {
            first_foreign(alloc, holds, *resource, entries.as_slice())
        }
        Command::CreateBlob {
            resource,
            entries,
            ..
        } => first_foreign(alloc, holds, *resource, entries.as_slice()),
        _ => Ok(None),
    }
}
