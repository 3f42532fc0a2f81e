//! A job that is lent is worked while another lane has the turn.

ghost use Rattle.std.specs.Prelude.{◌≡◌};

use std::alloc::Global;
use std::marker::{Brand, Send, Sync};
use std::process::Abort;
use std::sync::{Arc, Wait};
use std::test::*;
use std::thread::Threads;
use vg_book::{Naming, Opened};
use vg_lend::{Flags, Waiter, both_run};

#[test]
fn a_job_is_worked_while_another_lane_runs(rt: HostRuntime) -> Result<(), Fail> {
    let flags = Arc::new(rt.alloc(), Flags::new()).ok().ok_or("memory")?;
    let waiter = Waiter::new(Arc::try_clone(&flags)?);
    let opened = Opened::new(rt.alloc(), waiter, 2)?;
    lends::<Brand, _>(&rt, rt.alloc(), opened, flags)
}

fn lends<B: Naming + Send + Sync, R: Threads + Wait + Abort + Sync>(
    rt: &R,
    alloc: Global,
    opened: Opened<Waiter>,
    flags: Arc<Flags>,
) -> Result<(), Fail>
    requires { opened.table ≡ B.table }
{
    let replies = both_run::<B, R>(rt, alloc, opened, Arc::try_clone(&flags)?)
        .ok()
        .ok_or("memory")?;
    assert_eq!(rt; (replies.0, replies.1, flags.has_seen()), (11, 10, true));
    Ok(())
}
