//! The device configuration (VIRTIO 1.2, 5.7.4).

ghost use Rattle.std.specs.Prelude.{◌≡◌};
ghost use Rattle.vg_config.specs.Config.{config_bytes};

use byteorder::{ByteOrder, LittleEndian};

/// What a driver reads of the device (VIRTIO 1.2, 5.7.4, struct virtio_gpu_config).
#[derive(Clone, Copy, Debug, PartialEq, Eq)]
pub struct Config {
    /// Events that wait for the driver: bit 0 is DISPLAY.
    pub events_read: u32,
    /// Events that the driver clears.
    pub events_clear: u32,
    /// How many scanouts there are, 1 to 16.
    pub num_scanouts: u32,
    /// How many sets of capabilities there are.
    pub num_capsets: u32,
}

impl Config {
    /// The 16 bytes of the configuration: the fields in their order, each of four bytes, the lowest first.
    #[tactic(auto, unfolding(crate::specs::Config::config_bytes, vg_numbers::specs::Numbers::le))]
    pub fn bytes(&self) -> [u8; 16]
        ensures { result ≡ config_bytes self.now }
    {
        let mut bytes = [0; 16];
        LittleEndian::write_u32(&mut bytes, self.events_read);
        LittleEndian::write_u32(&mut bytes[4..], self.events_clear);
        LittleEndian::write_u32(&mut bytes[8..], self.num_scanouts);
        LittleEndian::write_u32(&mut bytes[12..], self.num_capsets);
        bytes
    }
}
