//! A machine that adds up, whose lane 0 lends: the work of a job looks whether a request of another lane is run meanwhile.

ghost use Rattle.std.specs.Prelude.{◌≡◌, ◌<◌, ◌-◌, ◌^◌, None};
ghost use Rattle.vg_lend.specs.Lending.{plus};

use std::alloc::{AllocError, Global};
use std::marker::Model;
use std::sync::Arc;
use std::sync::atomic::{AtomicBool, Ordering};
use vg_history::{Begun, Machine};
use vg_text::Packed;

/// How often a flag is looked for at most, so that nobody waits for ever.
const LOOKS: u32 = 100_000_000;

/// A command that adds so much, on a lane under its ordinal.
#[derive(Drop)]
pub struct Request {
    pub lane: u32,
    pub ordinal: u64,
    pub n: u64,
}

/// How many entries there were, and what they added up to, modulo 2^64.
#[derive(Drop)]
pub struct Sums {
    pub entries: u64,
    pub total: u64,
}

/// What was done so far, for who has to know it without the turn.
#[derive(Drop)]
pub struct Flags {
    /// Whether a job was lent.
    lent: AtomicBool,
    /// Whether a request was run as a whole.
    run: AtomicBool,
    /// Whether the work of a job has seen that.
    seen: AtomicBool,
}

impl Flags {
    pub fn new() -> Flags {
        Flags {
            lent: AtomicBool::new(false),
            run: AtomicBool::new(false),
            seen: AtomicBool::new(false),
        }
    }

    /// Looks until a job was lent, but not for ever.
    pub(crate) fn await_loan(&self) {
        look_for(&self.lent);
    }

    /// Whether the work of a job has seen that a request was run.
    pub fn has_seen(&self) -> bool {
        self.seen.load(Ordering::SeqCst)
    }
}

/// Looks for a flag until it is up, but not for ever, and says whether it is.
fn look_for(flag: &AtomicBool) -> bool {
    for _look in 0..LOOKS {
        if flag.load(Ordering::SeqCst) {
            return true;
        }
    }
    false
}

/// A request that was lent. A clause sees it as the request.
#[derive(Drop)]
pub struct Job {
    request: Request,
    flags: Arc<Flags>,
}

impl Model for Job {
    ghost use Rattle.vg_lend.specs.declared.waiter.Request.{Request};

    ghost Value = { Request };

    ghost view = { λ j. j.request };
}

/// Adds up what requests say. Those of lane 0 are lent, and all others are run as a whole.
#[derive(Drop)]
pub struct Waiter {
    pub sums: Sums,
    /// The request whose job is lent.
    pub out: Option<Request>,
    flags: Arc<Flags>,
}

fn copy_of(request: &Request) -> Request
    ensures { result ≡ request.now }
{
    Request {
        lane: request.lane,
        ordinal: request.ordinal,
        n: request.n,
    }
}

impl Waiter {
    /// A machine that has lent nothing. It and its jobs raise these flags.
    pub fn new(flags: Arc<Flags>) -> Waiter
        ensures { (result.sums ≡ record { entries = 0; total = 0 }) × (result.out ≡ None) }
    {
        Waiter {
            sums: Sums {
                entries: 0,
                total: 0,
            },
            out: None,
            flags,
        }
    }

    fn add(&mut self, n: u64)
        requires { self.old.sums.entries < 2 ^ 31 - 1 }
        ensures sums { self.new.sums ≡ plus self.old.sums n }
        ensures out { self.new.out ≡ self.old.out }
    {
        self.sums.entries += 1;
        self.sums.total = self.sums.total.wrapping_add(n);
    }
}

impl Machine for Waiter {
    type State = Sums;

    type Act = u64;

    type ActReply = u64;

    type Request = Request;

    type Reply = u64;

    type Holds = ();

    type Job = Job;

    ghost use Rattle.std.specs.Prelude.{true, false, slice_index, [], ◌∷◌, refl};
    ghost use Rattle.vg_lend.specs.Lending.{asks_of, plus, those, adds_one};

    ghost state = { λ w. w.sums };

    ghost count = { λ s. s.entries };

    ghost acted = { λ s client a. plus s a };

    ghost replied = { λ s client a. (plus s a).total };

    ghost update = { λ h a r. h };

    ghost requested = { λ s q. plus s q.n };

    ghost answered = { λ s q. (plus s q.n).total };

    ghost allows = { λ h q. true };

    ghost ends_hold = { λ a. false };

    ghost tagged = { λ q. (q.lane, q.ordinal) };

    ghost asks = { asks_of };

    ghost written = { λ q r. r ∷ [] };

    ghost read = { λ q bytes. slice_index bytes 0 };

    ghost lent = { λ w. those w.out };

    ghost asked = { λ j. j };

    ghost worked = { λ j. j };

    ghost blocks = { λ w q. false };

    ghost blocks_act = { λ w a. false };

    ghost is_first = { λ q. true };

    ghost act_text = { λ a r. [] };

    ghost command_text = { λ q r. [] };

    fn act(
        &mut self,
        _alloc: Global,
        _client: u32,
        _holds: &mut (),
        act: &u64,
    ) -> Result<(u64, u64), AllocError> {
        self.add(*act);
        Ok((self.sums.total, self.sums.total))
    }

    fn begin(
        &mut self,
        _alloc: Global,
        request: &Request,
    ) -> Result<Begun<Job, (u64, u64)>, AllocError> {
        if request.lane == 0 && self.out.is_none() {
            let flags = Arc::try_clone(&self.flags)?;
            self.out = Some(copy_of(request));
            flags.lent.store(true, Ordering::SeqCst);
            let request = copy_of(request);
            return Ok(Begun::Lent(Job { request, flags }));
        }
        self.add(request.n);
        self.flags.run.store(true, Ordering::SeqCst);
        Ok(Begun::Whole((self.sums.total, self.sums.total)))
    }

    fn work(job: &mut Job) {
        let seen = look_for(&job.flags.run);
        job.flags.seen.store(seen, Ordering::SeqCst);
    }

    fn end(&mut self, job: Job) -> (u64, u64) {
        self.out = None;
        self.add(job.request.n);
        (self.sums.total, self.sums.total)
    }

    fn blocked(&self, _request: &Request) -> bool {
        false
    }

    fn act_blocked(&self, _act: &u64) -> bool {
        false
    }

    fn gives_up(_act: &u64) -> bool {
        false
    }

    fn tag(request: &Request) -> (u32, u64) {
        (request.lane, request.ordinal)
    }

    fn by_first(_request: &Request) -> bool {
        true
    }

    // Nobody prints this history: none of its entries is spelled, so that all are held whole.
    #[tactic(auto, using(vg_list::proofs::FrontLemmas::fronts))]
    fn put_act(_out: &mut Packed, _act: &u64, _reply: &u64) -> Result<(), AllocError> {
        Err(AllocError)
    }

    #[tactic(auto, using(vg_list::proofs::FrontLemmas::fronts))]
    fn put_command(_out: &mut Packed, _request: &Request, _reply: &u64) -> Result<(), AllocError> {
        Err(AllocError)
    }

    ghost acts_count = { λ s c a. adds_one s a };

    ghost requests_count = { λ s q. adds_one s q.n };

    ghost keeps_holds = { λ h a r q stays may. may };

    ghost work_asks = { λ j. refl };

    ghost reads = { λ s q. λ i. (plus s q.n).total };
}
