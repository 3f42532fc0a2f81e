//! The lines about buffers, their bytes and their pixels, one function for each word.

ghost use Rattle.std.specs.Prelude.{◌≡◌, ◌+◌, ◌-◌, ◌<◌, ◌≤◌, ◌^◌, true, OnErr};
ghost use Rattle.vg_script_words.specs.Words.{is_number, value};
ghost use Rattle.vg_call_lines.specs.Rows.{judged_row, is_format, are_times, buffer_row, blob_row, store_row, load_row, send_row, flush_row};
ghost use Rattle.vg_script_words.specs.Code.{Yields};
ghost use Rattle.vg_call_lines.specs.Code.{table_of, Judges};

use crate::begun;
use crate::names::Names;
use crate::rows::known;
use std::alloc::Global;
use vg_calls::Call;
use vg_formats::Format;
use vg_limits::version_2::{MOST_BYTES, MOST_TIMES};
use vg_script_words::{
    Kind, Stop, both_spelled, hex_bytes, is_name, is_number, limited, size, spelled, value,
};

/// `buffer A W H F`
#[tactic(auto, unfolding(crate::specs::Rows::buffer_row))]
pub(crate) fn buffer<'a>(
    names: &mut Names<'a>,
    name: &'a [u8],
    width: &[u8],
    height: &[u8],
    format: &[u8],
) -> Result<Call, Stop>
    requires { (table_of names.old).count < 2 ^ 32 - 1 }
    ensures call { Judges (table_of names.new) result
        (judged_row (buffer_row (table_of names.old) name.now width.now height.now format.now)) }
    ensures err { OnErr result (table_of names.new ≡ table_of names.old) }
    ensures count { (table_of names.new).count ≤ (table_of names.old).count + 1 }
{
    both_spelled(width, height)?;
    spelled(format)?;
    let (width, height) = size(width, height)?;
    let format = format_code(format)?;
    if !is_name(name) || names.has(name) {
        return Err(Stop::Fault(Kind::Name));
    }
    names.define(name)?;
    Ok(Call::Buffer {
        width,
        height,
        format,
    })
}

/// `blob A SIZE`
#[tactic(auto, unfolding(crate::specs::Rows::blob_row))]
pub(crate) fn blob<'a>(names: &mut Names<'a>, name: &'a [u8], size: &[u8]) -> Result<Call, Stop>
    requires { (table_of names.old).count < 2 ^ 32 - 1 }
    ensures call { Judges (table_of names.new) result
        (judged_row (blob_row (table_of names.old) name.now size.now)) }
    ensures err { OnErr result (table_of names.new ≡ table_of names.old) }
    ensures count { (table_of names.new).count ≤ (table_of names.old).count + 1 }
{
    spelled(size)?;
    let size = limited(size, 1, MOST_BYTES)?;
    if !is_name(name) || names.has(name) {
        return Err(Stop::Fault(Kind::Name));
    }
    names.define(name)?;
    Ok(Call::Blob { size })
}

/// `store A OFFSET HEX TIMES`
#[tactic(auto, unfolding(crate::specs::Rows::store_row))]
pub(crate) fn store(
    alloc: Global,
    names: &Names,
    name: &[u8],
    offset: &[u8],
    hex: &[u8],
    times: &[u8],
) -> Result<Call, Stop>
    ensures { Judges (table_of names.now) result
        (judged_row (store_row (table_of names.now) name.now offset.now hex.now times.now)) }
{
    both_spelled(offset, times)?;
    let bytes = hex_bytes(alloc, hex)?;
    let offset = limited(offset, 0, MOST_BYTES - 1)?;
    let times = times_of(hex.len() / 2, times)?;
    let name = known(names, name)?;
    Ok(Call::Store {
        name,
        offset,
        bytes,
        times,
    })
}

/// How many times some bytes are stored, of which there are so many.
fn times_of(count: usize, number: &[u8]) -> Result<u32, Kind>
    requires { is_number number.now ≡ true }
    ensures { Yields (are_times count number.now) (value number.now) Kind.Limit result }
{
    if count < 1 || count > 4_096 {
        return Err(Kind::Limit);
    }
    let times = limited(number, 1, MOST_TIMES)?;
    if count * times as usize > MOST_BYTES as usize {
        return Err(Kind::Limit);
    }
    Ok(times)
}

/// `load A OFFSET LEN`
#[tactic(auto, unfolding(crate::specs::Rows::load_row))]
pub(crate) fn load(names: &Names, name: &[u8], offset: &[u8], size: &[u8]) -> Result<Call, Stop>
    ensures { Judges (table_of names.now) result
        (judged_row (load_row (table_of names.now) name.now offset.now size.now)) }
{
    both_spelled(offset, size)?;
    let offset = limited(offset, 0, MOST_BYTES - 1)?;
    let length = limited(size, 1, 1_024)?;
    let name = known(names, name)?;
    Ok(Call::Load {
        name,
        offset,
        length,
    })
}

/// `send A X Y W H`
#[tactic(auto, unfolding(crate::specs::Rows::send_row), using(crate::proofs::BegunLemmas::alone_judges))]
pub(crate) fn send(
    names: &Names,
    name: &[u8],
    x: &[u8],
    y: &[u8],
    width: &[u8],
    height: &[u8],
) -> Result<Call, Stop>
    ensures { Judges (table_of names.now) result
        (judged_row (send_row (table_of names.now) name.now x.now y.now width.now height.now)) }
{
    begun::alone(begun::send(names, name, x, y, width, height))
}

/// `flush A X Y W H`
#[tactic(auto, unfolding(crate::specs::Rows::flush_row), using(crate::proofs::BegunLemmas::alone_judges))]
pub(crate) fn flush(
    names: &Names,
    name: &[u8],
    x: &[u8],
    y: &[u8],
    width: &[u8],
    height: &[u8],
) -> Result<Call, Stop>
    ensures { Judges (table_of names.now) result
        (judged_row (flush_row (table_of names.now) name.now x.now y.now width.now height.now)) }
{
    begun::alone(begun::flush(names, name, x, y, width, height))
}

/// The code of a format.
fn format_code(number: &[u8]) -> Result<u32, Kind>
    requires { is_number number.now ≡ true }
    ensures { Yields (is_format number.now) (value number.now) Kind.Limit result }
{
    let code = limited(number, 0, u32::MAX)?;
    match Format::of(code) {
        Some(_) => Ok(code),
        None => Err(Kind::Limit),
    }
}
