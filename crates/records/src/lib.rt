// What the unit keeps, below its calls: locks, group masks, users and the records of the ports; with the tests on names and passwords.
// Each function answers for every input, also for numbers that no unit has.
// `new` says how service starts, so a `Default` beside it would be no plainer.
// No Model for types that are Copy: it would have to give all fields back (inverse), which is no plainer.
#![tactic(auto)]

pub mod locks;
pub mod masks;
pub mod names;
pub mod record;
pub mod table;
pub mod users;

// The most outputs of a fabric.
const MOST_OUTPUTS: usize = 256;

// The most users that can be entered.
const MOST_USERS: u8 = 8;
