//! Why a command does nothing.

ghost use Rattle.vg_device.specs.FitsWithin as fits;
ghost use Rattle.std.specs.Prelude.{◌≡◌};

use std::alloc::AllocError;
use vg_wire_ext::Response;

/// Why a command does nothing.
#[derive(Clone, Copy)]
pub(crate) enum Stop {
    /// Want of memory; or of pixels, which are lent.
    Memory,
    /// It is refused, and answered the error of this code (VIRTIO 1.2, 5.7.6.7).
    Refused(u32),
}

impl From<AllocError> for Stop {
    ghost use Rattle.std.specs.Prelude.{◌≡◌};
    ghost use Rattle.vg_device.specs.declared.stop.Stop.TheVariants.{Memory};

    ghost from_gives = { λ _ stop. stop ≡ Memory };

    fn from(_: AllocError) -> Stop {
        Stop::Memory
    }
}

/// OK_NODATA, or the refusal of a part of the display or of a command that takes no memory.
pub(crate) fn nodata(done: Result<(), u32>) -> Result<Response, Stop>
    ensures { result ≡ fits.nodata done }
{
    match done {
        Ok(()) => Ok(Response::Nodata),
        Err(code) => Err(Stop::Refused(code)),
    }
}

/// A response, or the refusal of a command that takes no memory.
pub(crate) fn or_refused(done: Result<Response, u32>) -> Result<Response, Stop>
    ensures { result ≡ fits.or_refused done }
{
    match done {
        Ok(response) => Ok(response),
        Err(code) => Err(Stop::Refused(code)),
    }
}
