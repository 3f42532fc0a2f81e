//! Reading a ring's descriptor table.

ghost use Rattle.std.specs.Prelude.{◌≡◌, ◌+◌, ◌*◌, ◌<◌, [], length, OnOk};
ghost use Rattle.vg_split.specs.Plays.{device_of, resting_device};
ghost use Rattle.vg_split.specs.Tells.{TellsDescriptor, TellsTable};

use crate::device::read_word;
use crate::law::{Line, Pass};
use crate::words::descriptor_of;
use std::alloc::AllocError;
use vg_chain::Descriptor;
use vg_history::Tagged;

/// The descriptor at a place.
fn read_descriptor<P: Tagged>(
    line: &Line<P>,
    pass: &mut Pass<P>,
    size: u16,
    place: u16,
) -> Descriptor
    requires line { (pass.old.table_id ≡ line.now.shared.table_id) × (line.now.shared.table_id.slots ≡ size) × (line.now.shared.table_id.words ≡ 2 + 4 * size) × (line.now.shared.key.count ≡ size) }
    requires place { place < size }
    requires view { pass.old.me ≡ (resting_device pass.old.me.0, []) }
    ensures line { (pass.new.table_id ≡ pass.old.table_id) × (pass.new.id ≡ pass.old.id) × (pass.new.me ≡ pass.old.me) }
    ensures descriptor { TellsDescriptor size place result (device_of pass.old.me.0).held }
{
    let addr = read_word(line, pass, 2 + 2 * place as usize);
    let rest = read_word(line, pass, 3 + 2 * place as usize);
    descriptor_of(addr, rest)
}

/// Reads the ring's descriptor table, one descriptor after another, in place of what was read before.
pub fn read_table<P: Tagged>(
    table: &mut Vec<Descriptor>,
    line: &Line<P>,
    pass: &mut Pass<P>,
    size: u16,
) -> Result<(), AllocError>
    requires line { (pass.old.table_id ≡ line.now.shared.table_id) × (line.now.shared.table_id.slots ≡ size) × (line.now.shared.table_id.words ≡ 2 + 4 * size) × (line.now.shared.key.count ≡ size) }
    requires view { pass.old.me ≡ (resting_device pass.old.me.0, []) }
    ensures line { (pass.new.table_id ≡ pass.old.table_id) × (pass.new.id ≡ pass.old.id) × (pass.new.me ≡ pass.old.me) }
    ensures length { OnOk result (length table.new.items ≡ size) }
    ensures table { OnOk result (TellsTable size size table.new.items (device_of pass.old.me.0).held) }
{
    table.clear();
    table.reserve(size as usize)?;
    for place in 0..size {
        table.push(read_descriptor(line, pass, size, place))?;
    }
    Ok(())
}
