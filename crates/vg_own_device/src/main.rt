//! A device of one's own: the display device alone, without scripts, threads and rings, is asked for its display information.
#![tactic(auto)]

use std::io;
use vg_device::{Device, Setup};
use vg_list::Seq;
use vg_wire::Queue;

/// GET_DISPLAY_INFO: its kind, and the rest of a header of 24 bytes (VIRTIO 1.2, 5.7.6.7).
const REQUEST: [u8; 24] = [
    0, 1, 0, 0, 0, 0, 0, 0, 0, 0, 0, 0, 0, 0, 0, 0, 0, 0, 0, 0, 0, 0, 0, 0,
];

/// All features that can be accepted (VIRTIO 1.2, 5.7.3 and 6).
const FEATURES: u64 = 0x1_1000_001f;

fn main(rt: HostRuntime) -> io::Result<()> {
    let mut displays = Vec::new(rt.alloc());
    displays.push((640, 480))?;
    let setup = Setup {
        displays: Seq::from_vec(displays),
        pages: 16,
        accepted: FEATURES,
        clients: 0,
        queues: (256, 64),
        host: false,
    };
    let mut device = Device::new(rt.alloc(), &setup)?;
    // The room for a response is 48 bytes: its header, and what is told of scanout 0.
    let response = device.command(rt.alloc(), Queue::Control, &REQUEST, 48)?;
    println!(rt; "{:?}", response.as_slice())
}
