//! The features that a script can leave out.

ghost use Rattle.std.specs.Prelude.{◌≡◌};
ghost use Rattle.std.specs.List.{list_any};
ghost use Rattle.vg_script.specs.Features.{feature_of, is_same};
ghost use Rattle.vg_call_lines.specs.Code.{Finds};

use crate::types::Feature;
use vg_script_words::{Kind, is};

/// The feature that a word spells.
#[tactic(auto, unfolding(crate::specs::Features::feature_of))]
pub(crate) fn feature_of(word: &[u8]) -> Result<Feature, Kind>
    ensures { Finds (feature_of word.now) Kind.Word result }
{
    if is(word, b"edid") {
        return Ok(Feature::Edid);
    }
    if is(word, b"uuid") {
        return Ok(Feature::Uuid);
    }
    if is(word, b"blob") {
        return Ok(Feature::Blob);
    }
    if is(word, b"context") {
        return Ok(Feature::Context);
    }
    Err(Kind::Word)
}

/// Whether a feature is one of these.
pub(crate) fn is_among(features: &[Feature], feature: Feature) -> bool
    ensures { result ≡ list_any (λ other. is_same other feature) features.now }
{
    features.contains(&feature)
}
