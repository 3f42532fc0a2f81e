//! Ranges of guest memory.

/// A range of guest memory, as a backing lists it (VIRTIO 1.2, 5.7.6.8, struct virtio_gpu_mem_entry):
/// its first byte's address, and how many bytes it has.
#[derive(Clone, Copy, Debug, PartialEq, Eq)]
pub struct MemEntry {
    pub addr: u64,
    pub length: u32,
}
