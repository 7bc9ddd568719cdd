// The decimal that stands behind a sign.
#![tactic(auto)]

pub mod inner;
