//! The orders of a pixel's bytes, each with the operation that shows one pixel.
//!
//! Each pixel goes through one word: a loop over such pixels is nearly as fast as a copy, where one over
//! four single bytes can take four times as long.

ghost use Rattle.vg_formats.specs.declared.format.Format.{Format};
ghost use Rattle.vg_formats.specs.declared.format.Format.TheVariants.{B8G8R8X8, A8R8G8B8, X8R8G8B8, R8G8B8A8, X8B8G8R8, A8B8G8R8, R8G8B8X8};

/// How a pixel of one format is shown.
pub(crate) trait Order {
    ghost use Rattle.std.specs.Prelude.{◌≡◌};
    ghost use Rattle.vg_formats.specs.Formats.{shown_bytes};

    ghost format: { Format };

    /// The pixel that has these four bytes in memory, as its bytes B, G, R and A.
    fn shown(bytes: [u8; 4]) -> [u8; 4]
        ensures { result ≡ shown_bytes format bytes };
}

/// Shows B8G8R8X8.
pub(crate) struct Bgrx;

/// Shows A8R8G8B8.
pub(crate) struct Argb;

/// Shows X8R8G8B8.
pub(crate) struct Xrgb;

/// Shows R8G8B8A8.
pub(crate) struct Rgba;

/// Shows X8B8G8R8.
pub(crate) struct Xbgr;

/// Shows A8B8G8R8.
pub(crate) struct Abgr;

/// Shows R8G8B8X8.
pub(crate) struct Rgbx;

impl Order for Bgrx {
    ghost format = { B8G8R8X8 };

    fn shown([first, second, third, _]: [u8; 4]) -> [u8; 4] {
        u32::from_le_bytes([first, second, third, 255]).to_le_bytes()
    }
}

impl Order for Argb {
    ghost format = { A8R8G8B8 };

    fn shown([first, second, third, fourth]: [u8; 4]) -> [u8; 4] {
        u32::from_be_bytes([first, second, third, fourth]).to_le_bytes()
    }
}

impl Order for Xrgb {
    ghost format = { X8R8G8B8 };

    fn shown([_, second, third, fourth]: [u8; 4]) -> [u8; 4] {
        u32::from_be_bytes([255, second, third, fourth]).to_le_bytes()
    }
}

impl Order for Rgba {
    ghost format = { R8G8B8A8 };

    fn shown([first, second, third, fourth]: [u8; 4]) -> [u8; 4] {
        u32::from_be_bytes([fourth, first, second, third]).to_le_bytes()
    }
}

impl Order for Xbgr {
    ghost format = { X8B8G8R8 };

    fn shown([_, second, third, fourth]: [u8; 4]) -> [u8; 4] {
        u32::from_le_bytes([second, third, fourth, 255]).to_le_bytes()
    }
}

impl Order for Abgr {
    ghost format = { A8B8G8R8 };

    fn shown([first, second, third, fourth]: [u8; 4]) -> [u8; 4] {
        u32::from_le_bytes([second, third, fourth, first]).to_le_bytes()
    }
}

impl Order for Rgbx {
    ghost format = { R8G8B8X8 };

    fn shown([first, second, third, _]: [u8; 4]) -> [u8; 4] {
        u32::from_be_bytes([255, first, second, third]).to_le_bytes()
    }
}
