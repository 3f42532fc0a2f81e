//! The half of a bell that rings it.

ghost use Rattle.std.specs.Prelude.{◌≡◌, ◌+◌, ◌≤◌, []};
ghost use Rattle.vg_notify.specs.declared.views.View.TheVariants.{Rings, Note};
ghost use Rattle.vg_notify.specs.Plays.{new_ringer};
ghost use Rattle.vg_notify.specs.Halves.{Publishes, IsOnBell, ringer_data};

use crate::law::{Line, Pass};
use crate::need::passes;
use crate::ringing::{load_event, note_rung, raise, store_count};
use std::marker::Model;
use std::sync::Arc;

/// The half of who publishes: it kicks the sleeper where that waits for it.
#[derive(Drop)]
pub struct Ringer {
    line: Arc<Line>,
    pass: Pass,
    count: u64,
    rung: u64,
}

impl Model for Ringer {
    ghost use Rattle.vg_notify.specs.Halves.{RingerData, ringer_data, IsRinger};
    ghost use Rattle.vg_notify.specs.Plays.{ringer_of};

    ghost Value = { RingerData };

    ghost view = { λ t. ringer_data t.line.value.shared.table_id (ringer_of t.pass.me.0) };

    ghost invariant = { λ t. IsRinger t.line.value.shared.table_id t.pass.table_id t.pass.me t.count t.rung };
}

impl Ringer {
    /// How much was published.
    pub fn count(&self) -> u64
        ensures { result ≡ self.now.count }
    {
        self.count
    }

    /// How many kicks there were.
    pub fn rung(&self) -> u64
        ensures { result ≡ self.now.rung }
    {
        self.rung
    }

    /// Says that so much is published now, and kicks the sleeper where its event calls for that. Answers whether it did.
    pub fn published(&mut self, count: u64) -> bool
        requires later { self.old.count ≤ count }
        requires near { count ≤ self.old.count + 32768 }
        ensures { Publishes self.old count result self.new }
    {
        let old = self.count;
        store_count(&self.line, &mut self.pass, count);
        let event = load_event(&self.line, &mut self.pass);
        self.count = count;
        let called_for = passes(event, count, old);
        if called_for {
            self.rung += 1;
            raise(&self.line, &mut self.pass, self.rung);
        }
        called_for
    }

    /// A note of what it has.
    pub(crate) fn note(&mut self) -> Pass
        ensures table { IsOnBell self.old.bell result.table_id }
        ensures note { result.me ≡ (Note self.old.count self.old.rung, []) }
        ensures same { self.new ≡ self.old }
    {
        note_rung(&self.line, &mut self.pass)
    }

    pub(crate) fn of(line: Arc<Line>, pass: Pass) -> Ringer
        requires line { IsOnBell line.value.shared.table_id pass.table_id }
        requires view { pass.me ≡ (Rings new_ringer, []) }
        ensures { result ≡ ringer_data line.value.shared.table_id new_ringer }
    {
        Ringer {
            line,
            pass,
            count: 0,
            rung: 0,
        }
    }
}
