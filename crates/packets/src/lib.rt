// The packets of the protocol, without a unit: how a line makes packets of bytes, whom a packet addresses, and which command it is.
#![tactic(auto)]

pub mod address;
pub mod command;
pub mod packet;
pub mod receiver;
