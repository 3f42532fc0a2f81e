//! A counter: acts add to it or give up what their client holds, and requests add to it too.

ghost use Rattle.std.specs.Prelude.{◌≡◌, ◌+◌, ◌-◌, ◌^◌, ◌<◌};
ghost use Rattle.vg_book_uses.specs.Counting.{amount_of, held_of, plus};

use std::alloc::{AllocError, Global};
use vg_history::{Begun, Machine};
use vg_text::Packed;

#[derive(Debug, Drop)]
pub enum Act {
    /// Adds this much.
    Add { n: u64 },
    /// Gives up the right to make requests.
    Stop,
}

/// A command that adds so much, on a lane under its ordinal.
#[derive(Debug, Drop)]
pub struct Request {
    pub lane: u32,
    pub ordinal: u64,
    pub n: u64,
}

/// How many entries there were, and what they added up to, modulo 2^64.
#[derive(Debug, Drop)]
pub struct Counter {
    pub entries: u64,
    pub total: u64,
}

/// How much the act adds.
fn amount(act: &Act) -> u64
    ensures { result ≡ amount_of act.now }
{
    match act {
        Act::Add { n } => *n,
        Act::Stop => 0,
    }
}

/// What a client holds after the act: the most that a request of it may add.
fn held(holds: u64, act: &Act) -> u64
    ensures { result ≡ held_of holds act.now }
{
    match act {
        Act::Add { .. } => holds,
        Act::Stop => 0,
    }
}

impl Counter {
    pub fn new() -> Counter
        ensures { result ≡ record { entries = 0; total = 0 } }
    {
        Counter {
            entries: 0,
            total: 0,
        }
    }

    fn add(&mut self, n: u64)
        requires { self.old.entries < 2 ^ 31 - 1 }
        ensures { self.new ≡ plus self.old n }
    {
        self.entries += 1;
        self.total = self.total.wrapping_add(n);
    }
}

impl Machine for Counter {
    type State = Counter;

    type Act = Act;

    type ActReply = u64;

    type Request = Request;

    type Reply = u64;

    type Holds = u64;

    type Job = Request;

    ghost use Rattle.std.specs.Prelude.{true, false, nat_le, slice_index, [], ◌∷◌, refl};
    ghost use Rattle.vg_book_uses.specs.Counting.{amount_of, asks_of, held_of, plus, is_stop, adds_one, keeps};

    ghost state = { λ c. c };

    ghost count = { λ s. s.entries };

    ghost acted = { λ s client a. plus s (amount_of a) };

    ghost replied = { λ s client a. (plus s (amount_of a)).total };

    ghost update = { λ h a r. held_of h a };

    ghost requested = { λ s q. plus s q.n };

    ghost answered = { λ s q. (plus s q.n).total };

    ghost allows = { λ h q. nat_le q.n h };

    ghost ends_hold = { is_stop };

    ghost tagged = { λ q. (q.lane, q.ordinal) };

    ghost asks = { asks_of };

    ghost written = { λ q r. r ∷ [] };

    ghost read = { λ q bytes. slice_index bytes 0 };

    ghost lent = { λ c. [] };

    ghost asked = { λ j. j };

    ghost worked = { λ j. j };

    ghost blocks = { λ c q. false };

    ghost blocks_act = { λ c a. false };

    ghost is_first = { λ q. true };

    ghost act_text = { λ a r. [] };

    ghost command_text = { λ q r. [] };

    fn act(
        &mut self,
        _alloc: Global,
        _client: u32,
        holds: &mut u64,
        act: &Act,
    ) -> Result<(u64, u64), AllocError> {
        self.add(amount(act));
        *holds = held(*holds, act);
        Ok((self.total, self.total))
    }

    // Each request is run as a whole.
    fn begin(
        &mut self,
        _alloc: Global,
        request: &Request,
    ) -> Result<Begun<Request, (u64, u64)>, AllocError> {
        self.add(request.n);
        Ok(Begun::Whole((self.total, self.total)))
    }

    fn work(_job: &mut Request) {}

    fn end(&mut self, job: Request) -> (u64, u64) {
        self.add(job.n);
        (self.total, self.total)
    }

    fn blocked(&self, _request: &Request) -> bool {
        false
    }

    fn act_blocked(&self, _act: &Act) -> bool {
        false
    }

    fn gives_up(act: &Act) -> bool {
        matches!(act, Act::Stop)
    }

    fn tag(request: &Request) -> (u32, u64) {
        (request.lane, request.ordinal)
    }

    fn by_first(_request: &Request) -> bool {
        true
    }

    // Nobody prints a counter's history: none of its entries is spelled, so that all are held whole.
    #[tactic(auto, using(vg_list::proofs::FrontLemmas::fronts))]
    fn put_act(_out: &mut Packed, _act: &Act, _reply: &u64) -> Result<(), AllocError> {
        Err(AllocError)
    }

    #[tactic(auto, using(vg_list::proofs::FrontLemmas::fronts))]
    fn put_command(_out: &mut Packed, _request: &Request, _reply: &u64) -> Result<(), AllocError> {
        Err(AllocError)
    }

    ghost acts_count = { λ s c a. adds_one s (amount_of a) };

    ghost requests_count = { λ s q. adds_one s q.n };

    ghost keeps_holds = { λ h a r q. keeps h a q };

    ghost work_asks = { λ j. refl };

    ghost reads = { λ s q. λ i. (plus s q.n).total };
}
