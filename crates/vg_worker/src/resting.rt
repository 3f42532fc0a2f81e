//! What a worker does while it finds nothing to do.

use crossbeam_utils::Backoff;
use std::sync::Wait;
use std::thread::Parker;
use std::time::Duration;

/// How often a worker that dozes looks for a kick, one look soon behind the other, before it sleeps between two looks.
const LOOKS: u32 = 1000;

/// How long it sleeps then, in microseconds.
const NAP: u64 = 100;

/// How long a worker has found nothing.
#[derive(Drop)]
pub(crate) struct Rest {
    backoff: Backoff,
    /// Nobody unparks it: it only serves to sleep on for a time.
    parker: Parker,
    looks: u32,
}

impl Rest {
    pub(crate) fn new() -> Rest {
        Rest {
            backoff: Backoff::new(),
            parker: Parker::new(),
            looks: 0,
        }
    }

    /// Something was found.
    pub(crate) fn end(&mut self) {
        self.backoff.reset();
        self.looks = 0;
    }

    /// Nothing was found. It waits a moment; and once the worker has dozed for long, so long that looks cost next to nothing.
    pub(crate) fn go_on<R: Wait>(&mut self, rt: &R, dozing: bool) {
        if !dozing {
            self.looks = 0;
        }
        if self.looks < LOOKS {
            self.looks += 1;
            self.backoff.snooze();
        } else {
            self.parker.park_timeout(rt, Duration::from_micros(NAP));
        }
    }
}
