//! What becomes of a pass.

use crate::board::Naming;
use crate::pass::{DonePass, Pass};
use vg_history::{Machine, Tagged};

/// A pass on its way out, or one on its way back, run or unrun.
#[derive(Drop)]
pub enum Carried<M: Machine, B: Naming> {
    Wanted(Pass<M, B>),
    Done(DonePass<M, B>),
    Unrun(Pass<M, B>),
}

impl<M: Machine, B: Naming> Tagged for Carried<M, B> {
    ghost use Rattle.vg_book.specs.Outcomes.{tag_of, is_wanted_pass, asks_of, told_by};

    ghost tagged = { tag_of M.Machine };

    ghost is_wanted = { is_wanted_pass M.Machine };

    ghost asks = { asks_of M.Machine };

    ghost told = { told_by M.Machine };

    fn tag(&self) -> (u32, u64) {
        match self {
            Carried::Wanted(pass) | Carried::Unrun(pass) => pass.tag(),
            Carried::Done(done) => done.tag(),
        }
    }

    fn wanted(&self) -> bool {
        matches!(self, Carried::Wanted(_))
    }
}
