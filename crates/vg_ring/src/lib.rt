//! The two ends of a virtqueue that threads share.
#![tactic(auto)]

mod agree;
mod device_end;
mod driver_end;
mod naming;
mod right;
mod ring;
mod rings;
mod threads;

pub use agree::ends_agree;
pub use device_end::{DeviceEnd, Fetched};
pub use driver_end::{DriverEnd, Reaped};
pub use naming::Naming;
pub use right::Right;
pub use ring::{Made, Ring};
pub use rings::{ControlOf, CursorOf, OfQueue, Rings};
pub use threads::ends_may_be_sent;
