//! The forms of a virtqueue.

/// The two forms of a virtqueue (VIRTIO 1.2, 2.7 and 2.8).
#[derive(Clone, Copy, Debug, PartialEq, Eq)]
pub enum Form {
    /// A table of descriptors, which name the next one, beside two rings of heads.
    Split,
    /// One ring of descriptors, which follow each other by place.
    Packed,
}
