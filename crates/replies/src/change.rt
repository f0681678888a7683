// Changes of outputs, and the queue in which a port keeps them.
use wire::list::KeptList;

// An output whose feeding input or lock was changed, and its feeding input then.
#[derive(Clone, Copy, Default, PartialEq, Eq, Debug)]
pub struct Change {
    pub output: u16,
    pub input: u16,
}

// How many changes a queue keeps.
pub const MOST_QUEUED: usize = 8;

// The first changes, oldest first, and whether one more came.
pub type ChangeQueue = KeptList<Change, MOST_QUEUED>;
