// Lists of calls, served by a unit one after the other.
#![tactic(auto)]

mod list;
mod serving;

pub use list::{Call, ListedCall};
pub use serving::serve;
