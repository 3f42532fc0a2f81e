//! A law of where a client's calls stand, as the contract of a function without work.

ghost use Rattle.std.specs.Prelude.{◌≡◌, ℕ, ◌+◌, ◌≤◌, ◌<◌, true, [], List};
ghost use mathlib.Core.List.{IsPrefix};
ghost use Rattle.vg_history.specs.declared.entry.Entry.{Entry as Entries};
ghost use Rattle.vg_history.specs.Lists.{Has};
ghost use Rattle.vg_book.specs.Own.{own};
ghost use Rattle.vg_book.specs.Places.{HasCall, IsCurrent, IsPlaced, begun_of};
ghost use Rattle.vg_book.specs.Tokens.{Acted, Client as Clients, Done, Drawn, IsClosed, MakesClient, Passed, Rooted, TakesBack, Watched};

use vg_history::Machine;

/// A law, and no work: where a client draws a number, all of its earlier calls but those that are begun stand in what it has
/// seen, and the new call doesn't; so that call stands behind them, in every history that goes on from there. Where nothing is
/// out, each of its numbers is that of an entry; and of a client that has joined the root so the closed history has no entry of
/// it but those that it has seen, in their order.
///
/// A client is current when it is made, and stays so by each act, by what it sees more, by a request that it may make, and by
/// each one that was run and taken back. One that came back unrun leaves a number without an entry.
pub fn calls_stand_behind<M: Machine>()
    ensures made { (r s : Rooted M M.State M.Act M.ActReply M.Request M.Reply M.Holds M.Job) (h : M.Holds) (c : _) → MakesClient M.Machine r h s c → IsCurrent M.Machine c }
    ensures watched { (c d : Clients M M.State M.Act M.ActReply M.Request M.Reply M.Holds M.Job) → IsCurrent M.Machine c → Watched M.Machine c d → IsCurrent M.Machine d }
    ensures act { (c d : Clients M M.State M.Act M.ActReply M.Request M.Reply M.Holds M.Job) (a : M.Act) (n : ℕ) (reply : M.ActReply)
        → IsCurrent M.Machine c → Acted M.Machine c a d n reply
        → IsCurrent M.Machine d × IsPlaced d.seen c.account.number (begun_of c.account) (c.account.used + 1) }
    ensures drawn { (c d : Clients M M.State M.Act M.ActReply M.Request M.Reply M.Holds M.Job) (q : M.Request) (p : _)
        → IsCurrent M.Machine c → Drawn M.Machine c q d p → M.allows c.account.holds q ≡ true → IsCurrent M.Machine d }
    ensures back { (b d : Clients M M.State M.Act M.ActReply M.Request M.Reply M.Holds M.Job) (f : _)
        → b.account.spent ≡ [] → TakesBack M.Machine b f d → IsCurrent M.Machine d }
    ensures apart { (c : Clients M M.State M.Act M.ActReply M.Request M.Reply M.Holds M.Job) (i : ℕ)
        → IsCurrent M.Machine c → c.account.used < i → HasCall c.seen c.account.number i → ⊥ }
    ensures placed { (c : Clients M M.State M.Act M.ActReply M.Request M.Reply M.Holds M.Job) (es : _)
        → IsCurrent M.Machine c → IsPrefix c.seen es → IsPlaced es c.account.number (begun_of c.account) (c.account.used + 1) }
    ensures all { (c : Clients M M.State M.Act M.ActReply M.Request M.Reply M.Holds M.Job) (i : ℕ)
        → IsCurrent M.Machine c → c.account.out ≡ [] → 0 < i → i ≤ c.account.used → HasCall c.seen c.account.number i }
    ensures closed { (r : Rooted M M.State M.Act M.ActReply M.Request M.Reply M.Holds M.Job) (machine : M) (es : _) (c : Clients M M.State M.Act M.ActReply M.Request M.Reply M.Holds M.Job)
        → IsClosed M.Machine r machine es → Has r.accounts c.account → IsPrefix c.seen r.seen → IsCurrent M.Machine c
        → own c.account.number es ≡ own c.account.number c.seen }
{}
