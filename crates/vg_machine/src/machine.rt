//! The display as a machine of which a history is kept.

use crate::display::Display;
use crate::job::Job;
use crate::spelled::{put_rest_of_act, put_rest_of_command};
use std::alloc::{AllocError, Global};
use vg_client_holds::{Act, ActReply, Holds};
use vg_device::{Device, Reply, Request};
use vg_history::{Begun, Machine};
use vg_text::Packed;

/// An entry of a display's history.
pub type Entry = vg_history::Entry<Display>;

/// A display's history.
pub type History = vg_history::History<Display>;

impl Machine for Display {
    type State = Device;

    type Act = Act;

    type ActReply = ActReply;

    type Request = Request;

    type Reply = Reply;

    type Holds = Holds;

    type Job = Job;

    ghost use Rattle.std.specs.Prelude.{◌&&◌, is_none, not};
    ghost use Rattle.vg_machine.specs.Jobs as jobs;
    ghost use Rattle.vg_machine.specs.Blocks as blocking;
    ghost use Rattle.vg_device.specs.ActStep.{act_step};
    ghost use Rattle.vg_client_holds.specs.Holds as holding;
    ghost use Rattle.vg_client_holds.specs.Holds.{denied_of};
    ghost use Rattle.vg_device.specs.RequestStep.{request_step};
    ghost use Rattle.vg_wire.specs.Queues.{is_control};
    ghost use Rattle.vg_machine.specs.Lines.{rest_of_act, rest_of_command};
    ghost use Rattle.vg_machine.specs.CountedWithin.{act-counts, request-counts, worked-asks};
    ghost use Rattle.vg_client_holds.proofs.GrowingLemmas.{keeps-allowed};
    ghost use Rattle.vg_machine.specs.Written.{asks_of, read_by, written_in};
    ghost use Rattle.vg_machine.specs.ReadWithin.{reads-request};

    ghost state = { λ d. d.state };

    ghost count = { λ s. s.entries };

    ghost acted = { λ s client a. (act_step s client a).0 };

    ghost replied = { λ s client a. (act_step s client a).1 };

    ghost update = { holding.update };

    ghost requested = { λ s q. (request_step s q).0 };

    ghost answered = { λ s q. (request_step s q).1 };

    ghost allows = { λ h q. not h.host && is_none (denied_of h q.queue q.bytes) };

    ghost ends_hold = { holding.gives_up };

    ghost tagged = { λ q. (q.lane, q.ordinal) };

    ghost asks = { asks_of };

    ghost written = { λ q r. written_in q.room r };

    ghost read = { λ q bytes. read_by q.shape bytes };

    ghost lent = { λ d. d.lent };

    ghost asked = { λ j. j.asked };

    ghost worked = { jobs.worked };

    ghost blocks = { λ d q. blocking.blocks d.lent d.state q };

    ghost blocks_act = { λ d a. blocking.blocks_act d.lent d.state a };

    ghost is_first = { λ q. is_control q.queue };

    ghost act_text = { rest_of_act };

    ghost command_text = { rest_of_command };

    fn act(
        &mut self,
        alloc: Global,
        client: u32,
        holds: &mut Holds,
        act: &Act,
    ) -> Result<(ActReply, ActReply), AllocError> {
        self.do_act(alloc, client, holds, act)
    }

    /// It lends the job of a transfer that copies something, and runs each other request as a whole.
    fn begin(
        &mut self,
        alloc: Global,
        request: &Request,
    ) -> Result<Begun<Job, (Reply, Reply)>, AllocError> {
        self.start(alloc, request)
    }

    fn work(job: &mut Job) {
        job.work();
    }

    fn end(&mut self, job: Job) -> (Reply, Reply) {
        self.bring_back(job)
    }

    fn blocked(&self, request: &Request) -> bool {
        self.keeps_from(request)
    }

    fn act_blocked(&self, act: &Act) -> bool {
        self.keeps_from_act(act)
    }

    fn gives_up(act: &Act) -> bool {
        match act {
            Act::Release { .. } | Act::Free { .. } | Act::Drop { .. } | Act::Leave => true,
            _ => false,
        }
    }

    fn tag(request: &Request) -> (u32, u64) {
        (request.lane, request.ordinal)
    }

    fn by_first(request: &Request) -> bool {
        request.queue.is_control()
    }

    fn put_act(out: &mut Packed, act: &Act, reply: &ActReply) -> Result<(), AllocError> {
        put_rest_of_act(out, act, reply)
    }

    fn put_command(out: &mut Packed, request: &Request, reply: &Reply) -> Result<(), AllocError> {
        put_rest_of_command(out, request, reply)
    }

    ghost acts_count = { λ s c a. act-counts s c a };

    ghost requests_count = { λ s q. request-counts s q };

    ghost keeps_holds = { λ h a r q. keeps-allowed h a r q.queue q.bytes };

    ghost work_asks = { λ j. worked-asks j };

    ghost reads = { λ s q. reads-request s q };
}
