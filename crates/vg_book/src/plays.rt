//! What each step at the table tells, and how seats are cut in two and joined.

use crate::board::{Slot, View};
use atomic_table::{Join, Play, Split};
use vg_history::Machine;

/// A look at the history.
pub(crate) struct Look;

impl<M: Machine> Play<Slot<M>, View<M>> for Look {
    ghost use Rattle.vg_book.specs.Tells.{Looks};

    ghost then = { Looks M.Machine };
}

/// The turn taken, or missed.
pub(crate) struct Take;

impl<M: Machine> Play<Slot<M>, View<M>> for Take {
    ghost use Rattle.vg_book.specs.Tells.{Takes};

    ghost then = { Takes M.Machine };
}

/// The turn given back without an entry.
pub(crate) struct Give;

impl<M: Machine> Play<Slot<M>, View<M>> for Give {
    ghost use Rattle.vg_book.specs.Tells.{Gives};

    ghost then = { Gives M.Machine };
}

/// The turn given back with an act.
pub(crate) struct Enter;

impl<M: Machine> Play<Slot<M>, View<M>> for Enter {
    ghost use Rattle.vg_book.specs.Tells.{Enters};

    ghost then = { Enters M.Machine };
}

/// The turn given back with a command.
pub(crate) struct Answer;

impl<M: Machine> Play<Slot<M>, View<M>> for Answer {
    ghost use Rattle.vg_book.specs.Tells.{Answers};

    ghost then = { Answers M.Machine };
}

/// The turn given back with a job lent.
pub(crate) struct Lend;

impl<M: Machine> Play<Slot<M>, View<M>> for Lend {
    ghost use Rattle.vg_book.specs.Tells.{Lends};

    ghost then = { Lends M.Machine };
}

/// What the next client holds is told.
pub(crate) struct Tell;

impl<M: Machine> Play<Slot<M>, View<M>> for Tell {
    ghost use Rattle.vg_book.specs.Tells.{Tells};

    ghost then = { Tells M.Machine };
}

/// A client's next number is drawn for a request.
pub(crate) struct Draw;

impl<M: Machine> Play<Slot<M>, View<M>> for Draw {
    ghost use Rattle.vg_book.specs.Tells.{Draws};

    ghost then = { Draws M.Machine };
}

/// A client's order that was run is settled.
pub(crate) struct Settle;

impl<M: Machine> Play<Slot<M>, View<M>> for Settle {
    ghost use Rattle.vg_book.specs.Tells.{Settles};

    ghost then = { Settles M.Machine };
}

/// A client's order that came back unrun is given up.
pub(crate) struct Return;

impl<M: Machine> Play<Slot<M>, View<M>> for Return {
    ghost use Rattle.vg_book.specs.Tells.{Returns};

    ghost then = { Returns M.Machine };
}

/// The root makes a client.
pub(crate) struct MakeClient;

impl<M: Machine> Split<View<M>> for MakeClient {
    ghost use Rattle.vg_book.specs.Views.{with_client, client_made};

    ghost left = { with_client };

    ghost right = { client_made };
}

/// The root makes a lane.
pub(crate) struct MakeLane;

impl<M: Machine> Split<View<M>> for MakeLane {
    ghost use Rattle.vg_book.specs.Views.{with_lane, lane_made};

    ghost left = { with_lane };

    ghost right = { lane_made };
}

/// What a seat carries goes to a new one.
pub(crate) struct Hand;

impl<M: Machine> Split<View<M>> for Hand {
    ghost use Rattle.vg_book.specs.Views.{emptied, handed};

    ghost left = { emptied };

    ghost right = { handed };
}

/// A seat that knows the same, and has nothing.
pub(crate) struct Twin;

impl<M: Machine> Split<View<M>> for Twin {
    ghost use Rattle.vg_book.specs.Views.{noted};

    ghost left = { λ v. v };

    ghost right = { noted };
}

/// All that a seat has goes to another.
pub(crate) struct All;

impl<M: Machine> Join<View<M>> for All {
    ghost use Rattle.vg_book.specs.Views.{joined, nothing};

    ghost both = { joined };

    ghost spent = { nothing };
}
