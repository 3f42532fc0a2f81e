//! When a kick is called for.

ghost use Rattle.std.specs.Prelude.{◌≡◌};
ghost use Rattle.vg_notify.specs.Need.{needs_event, calls_for};

/// Whether a kick is called for where the published index goes from `old` to `new`, and the other side asked for one when it passes
/// `event` (VIRTIO 1.2, 2.7.7.2 and 2.7.10; virtq_need_event of its appendix A).
pub fn need_event(event: u16, new: u16, old: u16) -> bool
    ensures { result ≡ needs_event event new old }
{
    new.wrapping_sub(event).wrapping_sub(1) < new.wrapping_sub(old)
}

/// The same of whole counts.
pub(crate) fn passes(event: u64, new: u64, old: u64) -> bool
    ensures { result ≡ calls_for event new old }
{
    need_event(
        (event % 65536) as u16,
        (new % 65536) as u16,
        (old % 65536) as u16,
    )
}
