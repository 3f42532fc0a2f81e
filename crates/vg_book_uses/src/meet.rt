//! Clients that leave notes for each other.

ghost use Rattle.std.specs.Prelude.{◌≡◌, ◌≢◌, [], map, Some, IfOk, OnOk};
ghost use Rattle.vg_book.specs.Tokens.{Watched};
ghost use Rattle.vg_book_uses.specs.Adding.{AreNew, IsRootWith, IsWhole};
ghost use Rattle.vg_book_uses.specs.Meeting.{HasCall, HasMet, posted};
ghost use Rattle.vg_book_uses.specs.Sharing.{HaveShared, MayTalk};

use crate::add::join_all;
use crate::counter::{Act, Counter};
use crossbeam_utils::Backoff;
use std::alloc::{AllocError, Global};
use std::marker::{Model, Send, Sync};
use std::sync::{Mutex, Wait};
use std::thread::Threads;
use vg_book::{Book, ClientToken, Naming, Note, Opened, Root};
use vg_history::{History, Machine};
use vg_jobs::{Job, each};

/// A note that has seen this call of this client.
#[derive(Drop)]
pub struct Post<B: Naming> {
    client: u32,
    call: u64,
    note: Note<Counter, B>,
}

impl<B: Naming> Model for Post<B> {
    ghost use Rattle.vg_book_uses.specs.Meeting.{Posted, HasCall, posted};

    ghost Value = { Posted };

    ghost view = { λ p. posted p.client p.call p.note.seen };

    ghost invariant = { λ p. HasCall p.client p.call p.note.seen };
}

impl<B: Naming> Post<B> {
    /// A note of the client's last call, which it has seen.
    pub fn of(book: &Book<Counter, B>, client: &mut ClientToken<Counter, B>) -> Post<B>
        requires { HasCall client.old.account.number client.old.account.used client.old.seen }
        ensures same { client.new ≡ client.old }
        ensures post { result ≡ posted client.old.account.number client.old.account.used client.old.seen }
    {
        let (number, call) = (client.number(), client.used());
        Post {
            client: number,
            call,
            note: client.note(book),
        }
    }

    /// The number of the client that left it.
    pub fn client(&self) -> u32
        ensures { result ≡ self.now.client }
    {
        self.client
    }

    /// The client sees the call that the note names, and gives whose it is, and its number.
    pub fn meet(self, book: &Book<Counter, B>, client: &mut ClientToken<Counter, B>) -> (u32, u64)
        ensures met { Watched ⟦<Counter as Machine>⟧ client.old client.new }
        ensures whose { (result.0 ≡ self.client) × (result.1 ≡ self.call) }
        ensures heard { HasCall result.0 result.1 client.new.seen }
    {
        let Post {
            client: number,
            call,
            note,
        } = self;
        client.meet(book, note);
        (number, call)
    }
}

/// Waits for a note of another client.
fn wait_for_other<B: Naming, R: Wait>(
    rt: &R,
    board: &Mutex<Option<Post<B>>>,
    number: u32,
) -> Post<B>
    ensures { result.client ≢ number }
{
    let backoff = Backoff::new();
    for _ in rt.forever() {
        if let Some(post) = board.lock(rt).take() {
            if post.client() != number {
                return post;
            }
        }
        backoff.snooze();
    }
    unreachable!()
}

/// Adds 1, leaves a note, meets the other's, and adds 1 once more.
fn exchange<B: Naming, R: Wait>(
    rt: &R,
    alloc: Global,
    book: &Book<Counter, B>,
    mine: &Mutex<Option<Post<B>>>,
    theirs: &Mutex<Option<Post<B>>>,
    client: ClientToken<Counter, B>,
) -> Result<ClientToken<Counter, B>, AllocError>
    requires { MayTalk ⟦<Counter as Machine>⟧ client }
    ensures { IfOk result (λ c. HasMet ⟦<Counter as Machine>⟧ client c) }
{
    let mut client = client;
    client.act(rt, alloc, book, Act::Add { n: 1 })?;
    let post = Post::of(book, &mut client);
    *mine.lock(rt) = Some(post);
    let other = wait_for_other(rt, theirs, client.number());
    other.meet(book, &mut client);
    client.act(rt, alloc, book, Act::Add { n: 1 })?;
    Ok(client)
}

/// A client that meets another, on a thread.
#[derive(Drop)]
struct Meeting<'a, B: Naming> {
    alloc: Global,
    book: &'a Book<Counter, B>,
    mine: &'a Mutex<Option<Post<B>>>,
    theirs: &'a Mutex<Option<Post<B>>>,
    client: ClientToken<Counter, B>,
}

impl<'a, B: Naming> Job<Result<ClientToken<Counter, B>, AllocError>> for Meeting<'a, B> {
    ghost use Rattle.std.specs.Prelude.{IfOk};
    ghost use Rattle.vg_book_uses.specs.Meeting.{HasMet};
    ghost use Rattle.vg_book_uses.specs.Sharing.{MayTalk};

    ghost is_ready = { λ job. MayTalk ⟦<Counter as Machine>⟧ job.client };

    ghost gives = { λ job result. IfOk result (λ c. HasMet ⟦<Counter as Machine>⟧ job.client c) };

    fn run<R: Threads + Wait + Sync>(self, rt: &R) -> Result<ClientToken<Counter, B>, AllocError> {
        exchange(
            rt,
            self.alloc,
            self.book,
            self.mine,
            self.theirs,
            self.client,
        )
    }
}

/// Two clients act, leave notes for each other, meet them, and act again, on threads.
pub fn both_meet<B: Naming + Send + Sync, R: Threads + Wait + Sync>(
    rt: &R,
    alloc: Global,
    opened: Opened<Counter>,
) -> Result<(Counter, History<Counter>), AllocError>
    requires { (opened.table ≡ B.table) × (opened.lanes ≡ 0) }
    ensures whole { IfOk result (λ r. (s : _) → opened.start ≡ Some s → IsWhole ⟦<Counter as Machine>⟧ s r.0 r.1) }
    ensures shared { IfOk result (λ r. HaveShared ⟦<Counter as Machine>⟧ 2 2 r.1) }
{
    let Ok((book, mut root, _)) = opened.named::<B>(alloc) else {
        return Err(AllocError);
    };
    let boards = (Mutex::new(None), Mutex::new(None));
    let Ok(jobs) = meetings(alloc, &book, &mut root, &boards.0, &boards.1) else {
        return Err(AllocError);
    };
    let Ok(clients) = each(rt, jobs) else {
        return Err(AllocError);
    };
    join_all(&book, &mut root, clients)?;
    Ok(book.close(root))
}

/// Two new clients, which are to meet.
fn meetings<'a, B: Naming>(
    alloc: Global,
    book: &'a Book<Counter, B>,
    root: &mut Root<Counter, B>,
    left: &'a Mutex<Option<Post<B>>>,
    right: &'a Mutex<Option<Post<B>>>,
) -> Result<Vec<Meeting<'a, B>>, AllocError>
    requires { (root.old.given ≡ 0) × (root.old.accounts ≡ []) × (root.old.lanes ≡ []) }
    ensures root { OnOk result (IsRootWith 2 root.old root.new) }
    ensures clients { IfOk result (λ v. AreNew ⟦<Counter as Machine>⟧ root.old.start 1 2 (map (λ job. job.client) v.items)) }
{
    let mut jobs = Vec::new(alloc);
    let mut mine = left;
    let mut theirs = right;
    for _made in 0..2u32 {
        let client = root.client(book, 1);
        jobs.push(Meeting {
            alloc,
            book,
            mine,
            theirs,
            client,
        })?;
        mine = right;
        theirs = left;
    }
    Ok(jobs)
}
