//! The modes of the scanouts, as GET_DISPLAY_INFO answers them.

ghost use Rattle.std.specs.Prelude.{◌≡◌, ◌++◌, ◌+◌, ◌≤◌, ◌^◌, ◌<◌, None, length, replicate, OnErr, OnOk, IfOk};
ghost use Rattle.std.specs.List.{flat_map};
ghost use Rattle.vg_list.specs.Front.{HasFront};
ghost use Rattle.vg_wire.specs.Modes.{IsModes, mode_bytes, modes_bytes, slot_at, slots_of, trimmed};

use std::alloc::{AllocError, Global};
use std::marker::Model;
use vg_numbers::{put_u32, u32_at};

/// The size in pixels of each scanout's display, or none where a scanout is disabled, for at most 16
/// scanouts from number 0. The last isn't none: scanouts after it are disabled.
#[derive(Debug, Drop)]
pub struct Modes {
    items: Vec<Option<(u32, u32)>>,
}

impl Model for Modes {
    ghost use Rattle.std.specs.Prelude.{List};
    ghost use Rattle.vg_list.specs.Front.{HasFront};
    ghost use Rattle.vg_wire.specs.Modes.{Mode, IsModes};

    ghost Value = { List Mode };

    ghost view = { λ m. m.items.items };

    ghost invariant = { λ m. IsModes m.items.items };
}

impl Modes {
    /// These modes.
    pub fn from_vec(items: Vec<Option<(u32, u32)>>) -> Modes
        requires { IsModes items.items }
        ensures { result ≡ items.items }
    {
        Modes { items }
    }

    /// The modes, from scanout 0.
    pub fn as_slice(&self) -> &[Option<(u32, u32)>]
        ensures items { result.now ≡ self.now }
        ensures valid { IsModes self.now }
    {
        self.items.as_slice()
    }
}

/// Adds the 24 bytes of a mode: its rectangle, enabled and flags; zeros for none.
#[tactic(auto, unfolding(crate::specs::Modes::mode_bytes), using(vg_list::proofs::FrontLemmas::fronts))]
fn put_mode(out: &mut Vec<u8>, mode: Option<(u32, u32)>) -> Result<(), AllocError>
    ensures bytes { OnOk result (out.new.items ≡ out.old.items ++ mode_bytes mode) }
    ensures err { OnErr result (HasFront out.old.items out.new.items (mode_bytes mode)) }
{
    let Some((width, height)) = mode else {
        return out.extend_from_slice(&[0; 24]);
    };
    put_u32(out, 0)?;
    put_u32(out, 0)?;
    put_u32(out, width)?;
    put_u32(out, height)?;
    put_u32(out, 1)?;
    put_u32(out, 0)
}

/// Adds the bytes of these modes.
fn put_each(out: &mut Vec<u8>, modes: &[Option<(u32, u32)>]) -> Result<(), AllocError>
    ensures bytes { OnOk result (out.new.items ≡ out.old.items ++ flat_map mode_bytes modes.now) }
    ensures err { OnErr result (HasFront out.old.items out.new.items (flat_map mode_bytes modes.now)) }
{
    for mode in modes {
        put_mode(out, *mode)?;
    }
    Ok(())
}

/// Adds the bytes of as many nones.
fn put_nones(out: &mut Vec<u8>, count: usize) -> Result<(), AllocError>
    ensures bytes { OnOk result (out.new.items ≡ out.old.items ++ flat_map mode_bytes (replicate count None)) }
    ensures err { OnErr result (HasFront out.old.items out.new.items (flat_map mode_bytes (replicate count None))) }
{
    for _none in 0..count {
        put_mode(out, None)?;
    }
    Ok(())
}

/// Adds the bytes of 16 modes: these, and none for each scanout past the last. For want of memory a front of them is added.
pub fn put_modes(out: &mut Vec<u8>, modes: &Modes) -> Result<(), AllocError>
    ensures bytes { OnOk result (out.new.items ≡ out.old.items ++ modes_bytes modes.now) }
    ensures err { OnErr result (HasFront out.old.items out.new.items (modes_bytes modes.now)) }
{
    let modes = modes.as_slice();
    put_each(out, modes)?;
    put_nones(out, 16 - modes.len())?;
    Ok(())
}

/// The mode whose 24 bytes stand from place `at`.
fn read_slot(bytes: &[u8], at: usize) -> Option<(u32, u32)>
    requires { at + 24 ≤ length bytes.now }
    ensures { result ≡ slot_at bytes.now at }
{
    if u32_at(bytes, at + 16) != 1 {
        return None;
    }
    Some((u32_at(bytes, at + 8), u32_at(bytes, at + 12)))
}

/// The modes whose 16 times 24 bytes follow a header.
pub fn read_modes(alloc: Global, bytes: &[u8]) -> Result<Modes, AllocError>
    requires { length bytes.now ≡ 408 }
    ensures { IfOk result (λ modes. modes ≡ trimmed (slots_of bytes.now)) }
{
    let mut modes = Vec::with_capacity(alloc, 16)?;
    let mut enabled = 0;
    for slot in 0..16 {
        let mode = read_slot(bytes, 24 + 24 * slot);
        if mode.is_some() {
            enabled = slot + 1;
        }
        modes.push(mode)?;
    }
    modes.truncate(enabled);
    Ok(Modes::from_vec(modes))
}
