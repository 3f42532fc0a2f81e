//! The ends of a ring, its rights and its cargoes may go to other threads, where their passes may.

use crate::device_end::DeviceEnd;
use crate::driver_end::DriverEnd;
use crate::naming::Naming;
use crate::right::Right;
use vg_cargo::Cargo;
use vg_history::Tagged;

/// Does nothing: it can be called where T may go to another thread.
fn may_be_sent<T: Send>() {}

/// Does nothing: that it calls `may_be_sent` is the proof that these types may go to another thread.
pub fn ends_may_be_sent<P: Tagged + Send, N: Naming + Send>() {
    may_be_sent::<Cargo<P>>();
    may_be_sent::<Right<N>>();
    may_be_sent::<DriverEnd<P, N>>();
    may_be_sent::<DeviceEnd<P, N>>();
}
