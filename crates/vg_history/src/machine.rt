//! The machine that a history is about, and what can be asked of what travels to it.

ghost use Rattle.std.specs.Prelude.{◌≡◌, ℕ, ◌+◌, ◌<◌, ◌^◌, ◌-◌, Bool, true, false, Option, List, [], ◌∷◌, ◌++◌, IfOk, OnOk, OnErr};
ghost use Rattle.vg_chain.specs.declared.asked.Asked.{Asked};
ghost use Rattle.vg_list.specs.Front.{HasFront};
ghost use Rattle.vg_history.specs.Jobs.{IsBack, of_lane, but_lane, lane_by};
ghost use Rattle.vg_history.specs.Begins.{IfLent, IfWhole};

use crate::begun::Begun;
use std::alloc::{AllocError, Global};
use vg_text::Packed;

/// A thing with a state, which acts and requests change, one at a time.
///
/// Its definitions are members that only contracts read: the state after an act or a request and what each is answered,
/// what a request asks for as bytes and what its reply writes, and how a client's holds change with an act. `act`, `begin`
/// and `end` give their reply twice, since one stands in the history and the other goes to the caller. A machine counts its
/// entries, and takes fewer than 2^31 - 1. It says how a journal spells its entries, and by which of two queues a request
/// goes.
///
/// A request is run as a whole, or its job is lent: `begin` takes out of the machine what the job needs, `work` does it
/// beside the machine, and `end` brings it back, runs the request and gives its reply. Meanwhile the machine runs what the
/// jobs that are lent don't block, and of a lane it lends one job at a time.
pub trait Machine: Drop {
    type State;

    type Act: Drop;

    type ActReply: Drop;

    type Request: Drop;

    type Reply: Drop;

    type Holds: Drop;

    type Job: Drop;

    // The state that a machine is in.
    ghost state: { Self → Self.State };

    // The number of entries that led to a state.
    ghost count: { Self.State → ℕ };

    // The state after an act of a client, and the act's reply.
    ghost acted: { Self.State → ℕ → Self.Act → Self.State };

    ghost replied: { Self.State → ℕ → Self.Act → Self.ActReply };

    // What a client holds after its act was replied.
    ghost update: { Self.Holds → Self.Act → Self.ActReply → Self.Holds };

    // The state after a request, and what the request is answered.
    ghost requested: { Self.State → Self.Request → Self.State };

    ghost answered: { Self.State → Self.Request → Self.Reply };

    // A client with these holds may make the request.
    ghost allows: { Self.Holds → Self.Request → Bool };

    // The act gives up something that its client holds.
    ghost ends_hold: { Self.Act → Bool };

    // The lane of a request, and its ordinal there, from 1.
    ghost tagged: { Self.Request → ℕ × ℕ };

    // What a request asks for: all that the guest makes available for it and that the device reads.
    ghost asks: { Self.Request → Asked };

    // What a reply to a request writes into the room for it, and the reply that is read there.
    ghost written: { Self.Request → Self.Reply → List ℕ };

    ghost read: { Self.Request → List ℕ → Self.Reply };

    // The jobs that are lent, as they were lent, and the request for which each was.
    ghost lent: { Self → List Self.Job };

    ghost asked: { Self.Job → Self.Request };

    // A job after it was worked.
    ghost worked: { Self.Job → Self.Job };

    // What is lent stands in the way of a request, and of an act.
    ghost blocks: { Self → Self.Request → Bool };

    ghost blocks_act: { Self → Self.Act → Bool };

    // A request goes by the first of two queues, and not by the second.
    ghost is_first: { Self.Request → Bool };

    // What stands in the line of an act or of a command behind its numbers, with the line's end.
    ghost act_text: { Self.Act → Self.ActReply → List ℕ };

    ghost command_text: { Self.Request → Self.Reply → List ℕ };

    /// Does the act of a client, and gives the reply twice. For want of memory nothing changes.
    fn act(
        &mut self,
        alloc: Global,
        client: u32,
        holds: &mut Self::Holds,
        act: &Self::Act,
    ) -> Result<(Self::ActReply, Self::ActReply), AllocError>
        requires count { count (state self.old) < 2 ^ 31 - 1 }
        requires blocked { blocks_act self.old act.now ≡ false }
        ensures state { IfOk result (λ r. state self.new ≡ acted (state self.old) client act.now) }
        ensures reply { IfOk result (λ r. (r.0 ≡ replied (state self.old) client act.now) × (r.1 ≡ r.0)) }
        ensures holds { IfOk result (λ r. holds.new ≡ update holds.old act.now r.0) }
        ensures lent { lent self.new ≡ lent self.old }
        ensures err { OnErr result ((state self.new ≡ state self.old) × (holds.new ≡ holds.old)) };

    /// Runs a request as a whole, and gives the reply twice, or lends its job. For want of memory nothing changes.
    fn begin(
        &mut self,
        alloc: Global,
        request: &Self::Request,
    ) -> Result<Begun<Self::Job, (Self::Reply, Self::Reply)>, AllocError>
        requires count { count (state self.old) < 2 ^ 31 - 1 }
        requires blocked { blocks self.old request.now ≡ false }
        requires lane { of_lane (lane_by asked tagged) (tagged request.now).0 (lent self.old) ≡ [] }
        ensures whole { IfOk result (λ b. IfWhole b (λ r. (state self.new ≡ requested (state self.old) request.now) × (lent self.new ≡ lent self.old))) }
        ensures reply { IfOk result (λ b. IfWhole b (λ r. (r.0 ≡ answered (state self.old) request.now) × (r.1 ≡ r.0))) }
        ensures job { IfOk result (λ b. IfLent b (λ j. (state self.new ≡ state self.old) × (lent self.new ≡ j ∷ lent self.old) × (asked j ≡ request.now))) }
        ensures err { OnErr result ((state self.new ≡ state self.old) × (lent self.new ≡ lent self.old)) };

    /// Works a job that is lent, beside the machine.
    fn work(job: &mut Self::Job)
        ensures { job.new ≡ worked job.old };

    /// Brings back a job: where it was lent and worked, its request is run, and the reply is given twice. It takes no memory. Of
    /// any other job nothing is said, so that a machine that lends nothing has this call too.
    fn end(&mut self, job: Self::Job) -> (Self::Reply, Self::Reply)
        requires count { count (state self.old) < 2 ^ 31 - 1 }
        ensures state { IsBack worked (lent self.old) job → state self.new ≡ requested (state self.old) (asked job) }
        ensures lent { IsBack worked (lent self.old) job → lent self.new ≡ but_lane (lane_by asked tagged) (tagged (asked job)).0 (lent self.old) }
        ensures reply { IsBack worked (lent self.old) job → (result.0 ≡ answered (state self.old) (asked job)) × (result.1 ≡ result.0) };

    /// Whether what is lent stands in the way of the request.
    fn blocked(&self, request: &Self::Request) -> bool
        ensures { result ≡ blocks self.now request.now };

    /// Whether what is lent stands in the way of the act.
    fn act_blocked(&self, act: &Self::Act) -> bool
        ensures { result ≡ blocks_act self.now act.now };

    /// Whether the act gives up something that its client holds.
    fn gives_up(act: &Self::Act) -> bool
        ensures { result ≡ ends_hold act.now };

    /// The lane of the request, and its ordinal there, from 1.
    fn tag(request: &Self::Request) -> (u32, u64)
        ensures { result ≡ tagged request.now };

    /// Whether the request goes by the first of two queues.
    fn by_first(request: &Self::Request) -> bool
        ensures { result ≡ is_first request.now };

    /// Adds what stands in the line of an act behind its numbers, with the line's end. For want of memory a front of it is added.
    fn put_act(out: &mut Packed, act: &Self::Act, reply: &Self::ActReply) -> Result<(), AllocError>
        ensures ok { OnOk result (out.new ≡ out.old ++ act_text act.now reply.now) }
        ensures err { OnErr result (HasFront out.old out.new (act_text act.now reply.now)) };

    /// The same of a command.
    fn put_command(
        out: &mut Packed,
        request: &Self::Request,
        reply: &Self::Reply,
    ) -> Result<(), AllocError>
        ensures ok { OnOk result (out.new ≡ out.old ++ command_text request.now reply.now) }
        ensures err { OnErr result (HasFront out.old out.new (command_text request.now reply.now)) };

    // Each entry is counted.
    ghost acts_count: { (s : Self.State) (c : ℕ) (a : Self.Act) → count (acted s c a) ≡ count s + 1 };

    ghost requests_count: { (s : Self.State) (q : Self.Request) → count (requested s q) ≡ count s + 1 };

    // What may be asked may be asked still after an act that gives nothing up.
    ghost keeps_holds: { (h : Self.Holds) (a : Self.Act) (r : Self.ActReply) (q : Self.Request) → ends_hold a ≡ false → allows h q ≡ true → allows (update h a r) q ≡ true };

    // Work changes nothing of the request.
    ghost work_asks: { (j : Self.Job) → asked (worked j) ≡ asked j };

    // What the reply writes is read as the reply.
    ghost reads: { (s : Self.State) (q : Self.Request) → read q (written q (answered s q)) ≡ answered s q };
}

/// What travels on a lane under an ordinal, on its way out or on its way back.
pub trait Tagged: Drop {
    ghost tagged: { Self → ℕ × ℕ };

    ghost is_wanted: { Self → Bool };

    // What it asks for.
    ghost asks: { Self → Asked };

    // What its response is, once it was run: nothing is told before, nor where it wasn't.
    ghost told: { Self → Option (List ℕ) };

    /// Its lane, and its ordinal there, from 1.
    fn tag(&self) -> (u32, u64)
        ensures { result ≡ tagged self.now };

    /// Whether it is on its way out.
    fn wanted(&self) -> bool
        ensures { result ≡ is_wanted self.now };
}

/// The right to run the commands of a lane, one after another.
pub trait Turn {
    ghost lane_of: { Self → ℕ };

    ghost count_of: { Self → ℕ };

    /// The lane, from 0.
    fn lane(&self) -> u32
        ensures { result ≡ lane_of self.now };

    /// How many of its commands were run.
    fn count(&self) -> u64
        ensures { result ≡ count_of self.now };
}
