//! The display device: what a virtio-gpu device answers on one thread (VIRTIO 1.2, 5.7.6), beside the
//! acts of the clients that share it.
#![tactic(auto)]

mod acts;
mod blobs;
mod commands;
mod contexts;
mod copies;
mod cursors;
mod device;
mod features;
mod laws;
mod receive;
mod request;
mod stop;

pub use copies::Copy;
pub use device::Device;
pub use laws::each_pixel_tells_the_flush;
pub use request::{Reply, Request};
pub use vg_client_holds::{Act, ActReply, Buffers, Holds, Setup, What};
pub use vg_resource::Resource;
pub use vg_scanout::{Binding, Frame};
pub use vg_share::{Geometry, PageList, ShareRefusal};
