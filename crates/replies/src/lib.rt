// The replies of the protocol, without a unit: what a reply says, how it is written and how it is read; with the change queue and the
// short texts that replies carry.
#![tactic(auto)]

pub mod change;
pub mod reply;
pub mod text;
