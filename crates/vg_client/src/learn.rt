//! What a client learns from what a task was answered.

ghost use Rattle.std.specs.Prelude.{◌≡◌, ◌<◌, ◌^◌, OnOk};
ghost use Rattle.vg_client.specs.Calls.{contexts_after, names_after, names_imported, names_reserved, shows_after};
ghost use Rattle.vg_tasks.specs.Fits.{IsFitChange};
ghost use Rattle.vg_tasks.specs.declared.task.Change.TheVariants as changes;

use crate::caller::Caller;
use crate::given::{Given, is_accepted};
use std::alloc::AllocError;
use vg_book::Naming;
use vg_machine::ActReply;
use vg_names::{Contexts, Names};
use vg_tasks::Change;

/// What the client knows after a task was answered.
pub(crate) fn learn<B: Naming>(
    client: &mut Caller<B>,
    change: Change,
    given: &Given,
) -> Result<(), AllocError>
    requires fit { IsFitChange change }
    requires room { client.old.names.made < 2 ^ 31 }
    requires room_for_contexts { client.old.contexts.made < 2 ^ 31 }
    ensures kept { client.new.token ≡ client.old.token }
    ensures begun { client.new.begun ≡ client.old.begun }
    ensures names { OnOk result (client.new.names ≡ names_after change given.now client.old.names) }
    ensures contexts { OnOk result (client.new.contexts ≡ contexts_after change given.now client.old.contexts) }
    ensures shows { OnOk result (client.new.shows.items ≡ shows_after change given.now client.old.shows.items) }
{
    match change {
        Change::NewBuffer { width, height, .. } => {
            name_reserved(&mut client.names, width, height, given)
        }
        Change::NewBlob { .. } => name_reserved(&mut client.names, 0, 0, given),
        Change::Imported => name_imported(&mut client.names, given),
        Change::EndOfName { number, .. } => {
            if is_accepted(given) {
                client.names.end(number);
            }
            Ok(())
        }
        Change::Shows { scanout, key } => {
            show(&mut client.shows, scanout, key, given);
            Ok(())
        }
        Change::NewContext => make_context(&mut client.contexts, given),
        Change::EndOfContext { number } => {
            client.contexts.end(number);
            Ok(())
        }
        Change::Nothing | Change::GoesOn => Ok(()),
    }
}

/// The next name: that of a buffer that was reserved, or one that never is current.
fn name_reserved(
    names: &mut Names,
    width: u32,
    height: u32,
    given: &Given,
) -> Result<(), AllocError>
    requires { names.old.made < 2 ^ 31 }
    ensures { OnOk result (names.new ≡ names_reserved width height given.now names.old) }
{
    match given {
        Given::Act {
            reply: ActReply::Reserved { key, .. },
        } => names.make(*key, width, height),
        _ => names.make_none(),
    }
}

/// The next name: that of the buffer that was imported, or one that never is current.
fn name_imported(names: &mut Names, given: &Given) -> Result<(), AllocError>
    requires { names.old.made < 2 ^ 31 }
    ensures { OnOk result (names.new ≡ names_imported given.now names.old) }
{
    match given {
        Given::Act {
            reply: ActReply::Imported { key, geometry, .. },
        } => names.make(*key, geometry.width, geometry.height),
        _ => names.make_none(),
    }
}

/// The next context: one that was made, or one that never is current.
fn make_context(contexts: &mut Contexts, given: &Given) -> Result<(), AllocError>
    requires { contexts.old.made < 2 ^ 31 }
    ensures { OnOk result (contexts.new ≡ contexts_after changes.NewContext given.now contexts.old) }
{
    if is_accepted(given) {
        return contexts.make();
    }
    contexts.make_none();
    Ok(())
}

/// What a scanout shows after a task that is accepted.
fn show(shows: &mut Vec<Option<u32>>, scanout: u32, key: Option<u32>, given: &Given)
    ensures { shows.new.items ≡ shows_after (changes.Shows scanout key) given.now shows.old.items }
{
    if is_accepted(given) && (scanout as usize) < shows.len() {
        shows[scanout as usize] = key;
    }
}
