//! A front and what it lends may go to other threads, where passes and tokens may.

use crate::front::Front;
use crate::loan::Loan;
use vg_history::{Tagged, Turn};
use vg_ring::Rings;

/// Does nothing: it can be called where T may go to another thread.
fn may_be_sent<T: Send>() {}

/// Does nothing: that it calls `may_be_sent` is the proof that these types may go to another thread.
pub fn fronts_may_be_sent<P: Tagged + Send, T: Turn + Drop + Send, N: Rings + Send>() {
    may_be_sent::<Loan<N>>();
    may_be_sent::<Front<P, T, N>>();
}
