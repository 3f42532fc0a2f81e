//! The block, part by part.

ghost use Rattle.std.specs.Prelude.{◌≡◌, ◌≤◌, ◌<◌, ◌++◌, ◌%◌, ◌∷◌, [], List, length, sum};
ghost use Rattle.vg_edid.specs.Edid.{edid_bytes, pixel_clock, unsummed};
ghost use Rattle.vg_edid.specs.Edid as parts;

use byteorder::{ByteOrder, LittleEndian};

/// Bytes 0 to 126 without what depends on the display, which is 0 here.
static FRONT: [u8; 127] = [
    0x00, 0xff, 0xff, 0xff, 0xff, 0xff, 0xff, 0x00, // header
    0x58, 0xf0, 0x01, 0x00, // product
    0x00, 0x00, 0x00, 0x00, // serial number
    0x01, 0x20, 0x01, 0x04, // year, version
    0x80, 0x00, 0x00, 0x78, 0x06, // features
    0xee, 0x91, 0xa3, 0x54, 0x4c, 0x99, 0x26, 0x0f, 0x50, 0x54, // chromaticity
    0x00, 0x00, 0x00, // established timings
    0x01, 0x01, 0x01, 0x01, 0x01, 0x01, 0x01, 0x01, // standard timings
    0x01, 0x01, 0x01, 0x01, 0x01, 0x01, 0x01, 0x01, //
    0x00, 0x00, 0x00, 0xa0, 0x00, 0x00, 0x17, 0x00, 0x30, // detailed timing
    0x20, 0x35, 0x00, 0x00, 0x00, 0x00, 0x00, 0x00, 0x18, //
    0x00, 0x00, 0x00, 0x10, 0x00, 0x00, 0x00, 0x00, 0x00, // dummy descriptors
    0x00, 0x00, 0x00, 0x00, 0x00, 0x00, 0x00, 0x00, 0x00, //
    0x00, 0x00, 0x00, 0x10, 0x00, 0x00, 0x00, 0x00, 0x00, //
    0x00, 0x00, 0x00, 0x00, 0x00, 0x00, 0x00, 0x00, 0x00, //
    0x00, 0x00, 0x00, 0x10, 0x00, 0x00, 0x00, 0x00, 0x00, //
    0x00, 0x00, 0x00, 0x00, 0x00, 0x00, 0x00, 0x00, 0x00, //
    0x00, // extension blocks
];

/// The pixel clock in 10 kHz.
fn clock(width: u32, height: u32) -> u16
    requires width { width ≤ 1920 }
    requires height { height ≤ 1200 }
    ensures { result ≡ pixel_clock width height }
{
    ((width + 160) * (height + 23) * 60 / 10_000) as u16
}

/// The last byte: what is missing of these bytes' sum to a multiple of 256.
#[tactic(auto, unfolding(crate::specs::Edid::checksum))]
fn checksum(bytes: &[u8]) -> u8
    ensures { result ≡ parts.checksum bytes.now }
{
    let mut total = 0u8;
    for byte in bytes {
        total = total.wrapping_add(*byte);
    }
    0u8.wrapping_sub(total)
}

/// Bytes 0 to 126.
#[tactic(auto, unfolding(crate::specs::Edid::unsummed, vg_numbers::specs::Numbers::le))]
fn front(width: u32, height: u32, scanout: u32) -> [u8; 127]
    requires width { width ≤ 1920 }
    requires height { height ≤ 1200 }
    requires scanout { scanout < 16 }
    ensures { result ≡ unsummed width height scanout }
{
    let mut front = FRONT;
    LittleEndian::write_u32(&mut front[12..], scanout + 1);
    LittleEndian::write_u16(&mut front[54..], clock(width, height));
    front[56] = (width % 256) as u8;
    front[58] = (width / 256 * 16) as u8;
    front[59] = (height % 256) as u8;
    front[61] = (height / 256 * 16) as u8;
    front
}

/// The EDID base block of a display of `width` by `height` pixels, 1 to 1,920 by 1 to 1,200, on a
/// scanout below 16 (E-EDID 1.4, section 3): one detailed timing of that size at 60 frames in a second,
/// and the scanout's number plus 1 as serial number.
#[tactic(auto, unfolding(crate::specs::Edid::edid_bytes))]
pub fn edid(width: u32, height: u32, scanout: u32) -> [u8; 128]
    requires width { (1 ≤ width) × (width ≤ 1920) }
    requires height { (1 ≤ height) × (height ≤ 1200) }
    requires scanout { scanout < 16 }
    ensures block { result ≡ edid_bytes width height scanout }
    // The checksum by its meaning.
    ensures sum { sum result % 256 ≡ 0 }
{
    let front = front(width, height, scanout);
    let mut block = [0; 128];
    block[..127].copy_from_slice(&front);
    block[127] = checksum(&front);
    block
}
