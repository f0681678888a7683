// The locks of the outputs, by output number.
ghost use Rattle.std.specs.Prelude.{◌≡◌, false};
ghost use Rattle.records.specs.Tables.{put_within};

use crate::MOST_OUTPUTS;
use crate::table::Table;

#[derive(Clone, Copy)]
pub struct Locks {
    locked: Table<bool, MOST_OUTPUTS>,
}

impl Locks {
    ghost use Rattle.records.specs.Records.{locks_of};

    // No output is locked.
    pub fn new() -> Locks
        ensures { locks_of result ≡ (λ o. false) }
    {
        Locks {
            locked: Table::of(false),
        }
    }

    // Outside 1 to 256 no output is locked.
    pub fn is_locked(&self, output: u16) -> bool
        ensures { result ≡ locks_of self.now output }
    {
        self.locked.get(output).unwrap_or(false)
    }

    // Outside 1 to 256 nothing is changed.
    pub fn set(&mut self, output: u16, locked: bool)
        ensures { locks_of self.new ≡ put_within 256 (locks_of self.old) output locked }
    {
        self.locked.set(output, locked);
    }
}
