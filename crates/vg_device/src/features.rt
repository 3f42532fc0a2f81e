//! The features that commands need (VIRTIO 1.2, 5.7.3).

ghost use Rattle.std.specs.Prelude.{◌≡◌};
ghost use Rattle.vg_device.specs.Features as features;

use vg_config::features::{EDID, RESOURCE_BLOB, RESOURCE_UUID, VIRGL};
use vg_wire::kinds::{
    CTX_CREATE, GET_CAPSET, GET_CAPSET_INFO, GET_EDID, RESOURCE_ASSIGN_UUID, RESOURCE_CREATE_BLOB,
    SET_SCANOUT_BLOB, SUBMIT_3D,
};

/// Whether commands of this kind may come where these features are accepted.
pub(crate) fn is_usable(accepted: u64, kind: u32) -> bool
    ensures { result ≡ features.is_usable accepted kind }
{
    match feature_of(kind) {
        Some(feature) => has_feature(accepted, feature),
        None => true,
    }
}

/// The feature that the commands of a kind need, if they need one.
#[tactic(auto, unfolding(crate::specs::Features::feature_of))]
fn feature_of(kind: u32) -> Option<u64>
    ensures { result ≡ features.feature_of kind }
{
    match kind {
        GET_CAPSET_INFO | GET_CAPSET => Some(VIRGL),
        GET_EDID => Some(EDID),
        RESOURCE_ASSIGN_UUID => Some(RESOURCE_UUID),
        RESOURCE_CREATE_BLOB | SET_SCANOUT_BLOB => Some(RESOURCE_BLOB),
        CTX_CREATE..=SUBMIT_3D => Some(VIRGL),
        _ => None,
    }
}

/// Whether a feature is among those that are accepted.
pub(crate) fn has_feature(accepted: u64, feature: u64) -> bool
    ensures { result ≡ features.has_feature accepted feature }
{
    accepted & feature == feature
}
