//! What a client does by its token: an act, a wait for a fence, and commands that go to the device and come back.

ghost use Rattle.std.specs.Prelude.{◌≡◌, ℕ, ◌+◌, [], false, None, IfOk, OnErr, OnOk};
ghost use Rattle.vg_history.specs.declared.entry.Entry.TheVariants as entries;
ghost use Rattle.vg_client_holds.specs.declared.act.Act.TheVariants as acts;
ghost use Rattle.vg_client_holds.specs.declared.act.ActReply.TheVariants as act_replies;
ghost use Rattle.vg_driver.specs.Asks.{IsAsk, denied_for, request_for};
ghost use Rattle.vg_driver.specs.Tickets.{IsOut};
ghost use Rattle.vg_client.specs.Accounts.{AreOut, ComesBack, HasNothingOut, IsActive, IsAdded, IsAddedAct, IsBegun, IsIdle, IsUnadded, MayAct};

use crate::tickets::Tickets;
use std::alloc::{AllocError, Global};
use std::sync::Wait;
use vg_book::{Book, ClientToken, Naming, calls_stand_behind};
use vg_driver::{Answer, Ask, Driver, Ticket};
use vg_history::Fence;
use vg_machine::{Act, ActReply, Display};
use vg_ring::Rings;

/// What a client acts by: its number, how many call numbers it has drawn, and what it holds.
pub(crate) type Token<B> = ClientToken<Display, B>;

/// An act of the client: the number of its entry in the history, and its reply. For want of memory there is no entry.
pub(crate) fn act<B: Naming, R: Wait>(
    rt: &R,
    alloc: Global,
    book: &Book<Display, B>,
    token: &mut Token<B>,
    act: Act,
) -> Result<(u64, ActReply), AllocError>
    requires { MayAct token.old act }
    ensures added { IfOk result (λ done. IsAddedAct token.old done.0 act done.1 token.new) }
    ensures err { OnErr result (IsUnadded token.old token.new) }
{
    // A law, and no work: the client's next call stands behind all of its calls before but those that are begun.
    calls_stand_behind::<Display>();
    let done = token.act(rt, alloc, book, act)?;
    Ok(done)
}

/// Waits for a fence, and adds the act that tells so: the number of its entry. It answers want of memory also where a command of
/// the fence's lane up to it came back without having been run.
pub(crate) fn wait<B: Naming, N: Rings, R: Wait>(
    rt: &R,
    alloc: Global,
    book: &Book<Display, B>,
    driver: &Driver<B, N>,
    token: &mut Token<B>,
    fence: &Fence,
) -> Result<u64, AllocError>
    requires { IsActive token.old }
    ensures added { IfOk result (λ entry. IsAddedAct token.old entry (acts.Await fence.now.lane fence.now.ordinal) act_replies.Ok token.new) }
    ensures err { OnErr result (IsUnadded token.old token.new) }
{
    // A law, and no work: the client's next call stands behind all of its calls before but those that are begun.
    calls_stand_behind::<Display>();
    let entry = driver.wait(rt, alloc, book, token, fence)?;
    Ok(entry)
}

/// Submits what the client asks of the device, and doesn't wait for it. `begun` has the tickets of what it has begun before. For
/// want of memory nothing is changed.
pub(crate) fn begin<B: Naming, N: Rings, R: Wait>(
    rt: &R,
    alloc: Global,
    book: &Book<Display, B>,
    driver: &Driver<B, N>,
    token: &mut Token<B>,
    begun: &Tickets,
    ask: &Ask,
) -> Result<Ticket, AllocError>
    requires active { IsActive token.old }
    requires out { AreOut token.old.account.out begun.now.items }
    requires ask { IsAsk ask.now }
    requires allowed { denied_for token.old.account.holds ask.now ≡ None }
    requires guest { token.old.account.holds.host ≡ false }
    ensures begun { IfOk result (λ ticket. IsBegun token.old (request_for ask.now) ticket token.new) }
    ensures err { OnErr result (token.new ≡ token.old) }
{
    // A law, and no work: the client's next call stands behind all of its calls before but those that are begun.
    calls_stand_behind::<Display>();
    let ticket = driver.submit(rt, alloc, book, token, ask)?;
    begun.see_last(rt, &ticket);
    Ok(ticket)
}

/// What the client asks of the device, from its submission to its answer, while what it has begun stays out. For want of memory
/// there is no entry, and the number of the call may be spent.
pub(crate) fn ask<B: Naming, N: Rings, R: Wait>(
    rt: &R,
    alloc: Global,
    book: &Book<Display, B>,
    driver: &Driver<B, N>,
    token: &mut Token<B>,
    begun: &Tickets,
    ask: &Ask,
) -> Result<Answer, AllocError>
    requires active { IsActive token.old }
    requires out { AreOut token.old.account.out begun.now.items }
    requires ask { IsAsk ask.now }
    requires allowed { denied_for token.old.account.holds ask.now ≡ None }
    requires guest { token.old.account.holds.host ≡ false }
    ensures added { IfOk result (λ answer. (ordinal : ℕ)
        × IsAdded token.old answer.entry (entries.Command token.old.account.number (token.old.account.used + 1) (request_for ask.now ordinal) answer.reply) token.new) }
    ensures err { OnErr result (IsUnadded token.old token.new) }
{
    let ticket = begin(rt, alloc, book, driver, token, begun, ask)?;
    let answer = driver.finish(rt, book, token, ticket)?;
    Ok(answer)
}

/// Waits for a command that the client has begun, and takes it back: whether it was run.
fn was_run<B: Naming, N: Rings, R: Wait>(
    rt: &R,
    book: &Book<Display, B>,
    driver: &Driver<B, N>,
    token: &mut Token<B>,
    ticket: Ticket,
) -> bool
    requires { IsOut token.old.account ticket }
    ensures { ComesBack token.old ticket result token.new }
{
    match driver.finish(rt, book, token, ticket) {
        Ok(_) => true,
        Err(_) => false,
    }
}

/// Waits for all that the client has begun, in the order in which it began it, and takes it back. It answers want of memory where
/// some of it came back without having been run; then too nothing is out any more.
pub(crate) fn finish_all<B: Naming, N: Rings, R: Wait>(
    rt: &R,
    book: &Book<Display, B>,
    driver: &Driver<B, N>,
    token: &mut Token<B>,
    begun: &mut Tickets,
) -> Result<(), AllocError>
    requires out { AreOut token.old.account.out begun.old.items }
    ensures done { OnOk result (IsActive token.old → IsIdle token.old token.new × IsActive token.new) }
    ensures idle { HasNothingOut token.old token.new }
    ensures begun { begun.new.items ≡ [] }
{
    let mut all_run = true;
    while let Some(ticket) = begun.pop_front() {
        let run = was_run(rt, book, driver, token, ticket);
        all_run &= run;
    }
    if all_run { Ok(()) } else { Err(AllocError) }
}
