//! The display machine: the display device as a machine of which a history is kept, what a journal says of it, and in which order
//! its commands run.
#![tactic(auto)]

mod display;
mod job;
mod lane;
mod laws;
mod loans;
mod machine;
mod spelled;

pub use display::Display;
pub use job::Job;
pub use lane::lane_of;
pub use laws::{plugs_stay, syncs_stand_behind_the_host};
pub use machine::{Entry, History};
pub use vg_client_holds::{
    Act, ActReply, Buffers, Holds, Setup, What, denied, denied_command, holds_only_grow, is_part,
    parties,
};
pub use vg_device::{Device, Reply, Request};
pub use vg_resource::Resource;
pub use vg_scanout::{Binding, Frame};
pub use vg_share::{Geometry, PageList, ShareRefusal};
