// The unit: its calls, over any fabric. It allocates nothing.
#![tactic(auto)]

mod answering;
mod checks;
mod commands;
mod fault;
mod lines;
mod panel;
mod ports;
mod service;
mod state;
mod switching;
mod user_entry;

pub use state::Unit;
