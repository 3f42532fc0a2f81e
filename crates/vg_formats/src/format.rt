//! The formats of pixels.

/// The pixel formats of VIRTIO 1.2, 5.7.6.8 (enum virtio_gpu_formats). The order of a name is the order of
/// the bytes in memory, one byte a letter. X is a byte without a meaning.
#[derive(Clone, Copy, Debug, PartialEq, Eq)]
pub enum Format {
    B8G8R8A8,
    B8G8R8X8,
    A8R8G8B8,
    X8R8G8B8,
    R8G8B8A8,
    X8B8G8R8,
    A8B8G8R8,
    R8G8B8X8,
}

impl Format {
    ghost use Rattle.std.specs.Prelude.{◌≡◌, ◌≢◌, IfSome, IfNone, Some};
    ghost use Rattle.vg_formats.specs.declared.format.Format.{Format};
    ghost use Rattle.vg_formats.specs.Formats.{code_of, format_of, shown_bytes};

    /// The format with this code of the standard.
    pub fn of(code: u32) -> Option<Format>
        ensures exact { result ≡ format_of code }
        ensures known { IfSome result (λ format. code_of format ≡ code) }
        ensures each { (format : Format) → code_of format ≡ code → result ≡ Some format }
        ensures none { IfNone result ((format : Format) → code_of format ≢ code) }
    {
        match code {
            1 => Some(Format::B8G8R8A8),
            2 => Some(Format::B8G8R8X8),
            3 => Some(Format::A8R8G8B8),
            4 => Some(Format::X8R8G8B8),
            67 => Some(Format::R8G8B8A8),
            68 => Some(Format::X8B8G8R8),
            121 => Some(Format::A8B8G8R8),
            134 => Some(Format::R8G8B8X8),
            _ => None,
        }
    }

    /// The standard's code of the format.
    pub fn code(&self) -> u32
        ensures { result ≡ code_of self.now }
    {
        match self {
            Format::B8G8R8A8 => 1,
            Format::B8G8R8X8 => 2,
            Format::A8R8G8B8 => 3,
            Format::X8R8G8B8 => 4,
            Format::R8G8B8A8 => 67,
            Format::X8B8G8R8 => 68,
            Format::A8B8G8R8 => 121,
            Format::R8G8B8X8 => 134,
        }
    }

    /// The pixel that has these four bytes in memory, as its bytes B, G, R and A. A is 255 where the format
    /// has X.
    pub fn shown(&self, bytes: [u8; 4]) -> [u8; 4]
        ensures { result ≡ shown_bytes self.now bytes }
    {
        let [first, second, third, fourth] = bytes;
        match self {
            Format::B8G8R8A8 => [first, second, third, fourth],
            Format::B8G8R8X8 => [first, second, third, 255],
            Format::A8R8G8B8 => [fourth, third, second, first],
            Format::X8R8G8B8 => [fourth, third, second, 255],
            Format::R8G8B8A8 => [third, second, first, fourth],
            Format::X8B8G8R8 => [second, third, fourth, 255],
            Format::A8B8G8R8 => [second, third, fourth, first],
            Format::R8G8B8X8 => [third, second, first, 255],
        }
    }
}
