//! The limits of scripts and of journals, for code, by the version of the journal; contracts have them as `version_1` and
//! `version_2` (specs/Limits.antt).
#![tactic(auto)]

pub mod version_1;
pub mod version_2;
