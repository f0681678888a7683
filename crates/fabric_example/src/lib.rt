// A fabric of one's own, and a pile of it with the fabrics of the other crate.
#![tactic(auto)]

pub mod patch;
pub mod pile;
