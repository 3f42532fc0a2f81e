//! The half of a bell that waits for it.

ghost use Rattle.std.specs.Prelude.{◌≡◌, ◌<◌, true, []};
ghost use Rattle.vg_notify.specs.declared.views.View.TheVariants.{Sleeps, Note};
ghost use Rattle.vg_notify.specs.Plays.{new_sleeper, count_noted, rung_noted};
ghost use Rattle.vg_notify.specs.Halves.{Arms, Listens, IsOnBell, sleeper_data};

use crate::law::{Line, Pass};
use crate::sleeping::{hear, load_count, load_kicks, store_event, take_rung};
use std::marker::Model;
use std::sync::Arc;

/// The half of who fetches what was published: while it is asleep it looks for a kick alone.
#[derive(Drop)]
pub struct Sleeper {
    line: Arc<Line>,
    pass: Pass,
    loaded: u64,
    asleep: bool,
}

impl Model for Sleeper {
    ghost use Rattle.vg_notify.specs.Halves.{SleeperData, sleeper_data, IsSleeper};
    ghost use Rattle.vg_notify.specs.Plays.{sleeper_of};

    ghost Value = { SleeperData };

    ghost view = { λ t. sleeper_data t.line.value.shared.table_id (sleeper_of t.pass.me.0) };

    ghost invariant = { λ t. IsSleeper t.line.value.shared.table_id t.pass.table_id t.pass.me t.loaded t.asleep };
}

impl Sleeper {
    /// Whether it is asleep, so that it may be asked for a kick.
    pub fn asleep(&self) -> bool
        ensures { result ≡ self.now.asleep }
    {
        self.asleep
    }

    /// Asks to be kicked once more than `fetched` is published, and answers whether it is asleep: it is not where there is more already.
    pub fn arm(&mut self, fetched: u64) -> bool
        ensures { Arms self.old fetched result self.new }
    {
        self.loaded = load_kicks(&self.line, &mut self.pass);
        store_event(&self.line, &mut self.pass, fetched);
        self.asleep = load_count(&self.line, &mut self.pass) == fetched;
        self.asleep
    }

    /// Whether it was kicked since it was armed: then it is awake.
    pub fn called(&mut self) -> bool
        requires asleep { self.old.asleep ≡ true }
        ensures { Listens self.old result self.new }
    {
        let kicks = hear(&self.line, &mut self.pass);
        let kicked = self.loaded < kicks;
        self.asleep = !kicked;
        kicked
    }

    /// Takes in a note of the ringer.
    pub(crate) fn take_note(&mut self, note: Pass)
        requires table { IsOnBell self.old.bell note.table_id }
        requires note { note.me ≡ (Note (count_noted note.me.0) (rung_noted note.me.0), []) }
        ensures kick { self.old.asleep ≡ true → self.old.event < count_noted note.me.0 → self.old.loaded < rung_noted note.me.0 }
        ensures same { self.new ≡ self.old }
    {
        take_rung(&self.line, &mut self.pass, note);
    }

    pub(crate) fn of(line: Arc<Line>, pass: Pass) -> Sleeper
        requires line { IsOnBell line.value.shared.table_id pass.table_id }
        requires view { pass.me ≡ (Sleeps new_sleeper, []) }
        ensures { result ≡ sleeper_data line.value.shared.table_id new_sleeper }
    {
        Sleeper {
            line,
            pass,
            loaded: 0,
            asleep: false,
        }
    }
}
