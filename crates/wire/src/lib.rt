// What goes over a line, for programs with a unit and without one: address bytes and control characters, lists of the first
// elements that came, the fields of packets and replies, and replies as bytes.
#![tactic(auto)]

pub mod address;
pub mod control;
pub mod fields;
pub mod list;
pub mod reply;
