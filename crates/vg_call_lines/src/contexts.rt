//! The lines about contexts, one function for each word.

ghost use Rattle.std.specs.Prelude.{◌≡◌, OnErr};
ghost use Rattle.vg_call_lines.specs.Rows.{judged_row, context_row, endcontext_row, attach_row, detach_row, submit_row};
ghost use Rattle.vg_call_lines.specs.Code.{table_of, Judges};

use crate::begun;
use crate::names::Names;
use crate::rows::{known, known_context};
use vg_calls::Call;
use vg_script_words::{Kind, Stop, is_name};

/// How many contexts a client may make.
const MOST_CONTEXTS: u32 = 255;

/// `context K`
#[tactic(auto, unfolding(crate::specs::Rows::context_row))]
pub(crate) fn context<'a>(names: &mut Names<'a>, name: &'a [u8]) -> Result<Call, Stop>
    ensures call { Judges (table_of names.new) result
        (judged_row (context_row (table_of names.old) name.now)) }
    ensures err { OnErr result (table_of names.new ≡ table_of names.old) }
    ensures count { (table_of names.new).count ≡ (table_of names.old).count }
{
    if names.contexts >= MOST_CONTEXTS {
        return Err(Stop::Fault(Kind::Limit));
    }
    if !is_name(name) || names.has(name) {
        return Err(Stop::Fault(Kind::Name));
    }
    names.define_context(name)?;
    Ok(Call::Context)
}

/// `endcontext K`
#[tactic(auto, unfolding(crate::specs::Rows::endcontext_row))]
pub(crate) fn end_context(names: &mut Names, name: &[u8]) -> Result<Call, Stop>
    ensures call { Judges (table_of names.new) result
        (judged_row (endcontext_row (table_of names.old) name.now)) }
    ensures err { OnErr result (table_of names.new ≡ table_of names.old) }
    ensures count { (table_of names.new).count ≡ (table_of names.old).count }
{
    let context = known_context(names, name)?;
    names.end(name);
    Ok(Call::EndContext { context })
}

/// `attach K A`
#[tactic(auto, unfolding(crate::specs::Rows::attach_row))]
pub(crate) fn attach(names: &Names, context: &[u8], name: &[u8]) -> Result<Call, Stop>
    ensures { Judges (table_of names.now) result
        (judged_row (attach_row (table_of names.now) context.now name.now)) }
{
    let context = known_context(names, context)?;
    let name = known(names, name)?;
    Ok(Call::Attach { context, name })
}

/// `detach K A`
#[tactic(auto, unfolding(crate::specs::Rows::detach_row))]
pub(crate) fn detach(names: &Names, context: &[u8], name: &[u8]) -> Result<Call, Stop>
    ensures { Judges (table_of names.now) result
        (judged_row (detach_row (table_of names.now) context.now name.now)) }
{
    let context = known_context(names, context)?;
    let name = known(names, name)?;
    Ok(Call::Detach { context, name })
}

/// `submit K R`
#[tactic(auto, unfolding(crate::specs::Rows::submit_row), using(crate::proofs::BegunLemmas::alone_judges))]
pub(crate) fn submit(names: &Names, context: &[u8], ring: &[u8]) -> Result<Call, Stop>
    ensures { Judges (table_of names.now) result
        (judged_row (submit_row (table_of names.now) context.now ring.now)) }
{
    begun::alone(begun::submit(names, context, ring))
}
