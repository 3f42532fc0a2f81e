//! The EDID base block of a display (VESA E-EDID 1.4, section 3), as GET_EDID answers it (VIRTIO 1.2, 5.7.6.8).
#![tactic(auto)]

mod block;

pub use block::edid;
