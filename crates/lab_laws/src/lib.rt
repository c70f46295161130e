//! Laws of sessions: what is promised of the whole.
#![tactic(auto)]

pub mod sessions;
