// Setting, locking and unlocking an output, as S, L and U and the panel do it.
// The range is a requires of each: a type for checked outputs is no plainer, since the fabric is asked by number.
ghost use Rattle.std.specs.Prelude.{◌≡◌, true, not, ◌&&◌, ◌||◌, ◌==◌};
ghost use Rattle.fabric.specs.Meaning.{within};
ghost use Rattle.rules.specs.State.{is_locked, feeding, with_lock, with_mask};
ghost use Rattle.rules.specs.Commands.{do_mask};
ghost use Rattle.rules.specs.Switching.{same, do_set, do_lock, do_unlock, in_range};
ghost use Rattle.unit.specs.Switches.{HasOutput, checked, setting_fault, locking_fault, unless_found};
ghost use Rattle.unit.specs.Units.{state_of, settled};

use crate::fault::SwitchFault;
use crate::state::Unit;
use fabric::Fabric;
use replies::change::Change;

// What feeds an output, and its lock. Where either is another than before, the output was changed.
#[derive(Clone, Copy, PartialEq, Eq, Debug)]
struct OutputState {
    input: u16,
    locked: bool,
}

impl OutputState {
    // Whether the lock of the output lets it be locked on an input.
    fn may_be_locked_on(self, input: u16) -> bool
        ensures { result ≡ (not self.locked || input == self.input) }
    {
        !self.locked || input == self.input
    }
}

impl<F: Fabric> Unit<F> {
    fn set_lock(&mut self, output: u16, locked: bool)
        requires { HasOutput (F.meaning self.old.fabric) output }
        ensures { state_of F.meaning self.new ≡ with_lock output locked (state_of F.meaning self.old) }
    {
        self.locks.set(output, locked);
    }

    fn output_state(&self, output: u16) -> OutputState
        requires { HasOutput (F.meaning self.now.fabric) output }
        ensures input { result.input ≡ feeding (state_of F.meaning self.now) output }
        ensures locked { result.locked ≡ is_locked (state_of F.meaning self.now) output }
    {
        OutputState {
            input: self.fabric.feeding(output),
            locked: self.locks.is_locked(output),
        }
    }

    // The output was as in `before`: the change, if there is one, goes into every queue.
    fn settle(&mut self, output: u16, before: OutputState)
        requires { HasOutput (F.meaning self.old.fabric) output }
        ensures { state_of F.meaning self.new ≡ settled (state_of F.meaning self.old) output before.input before.locked }
    {
        let now = self.output_state(output);
        if before != now {
            self.note_at_all(Change {
                output,
                input: now.input,
            });
        }
    }

    pub(crate) fn set(&mut self, output: u16, input: u16) -> Result<(), SwitchFault>
        requires { in_range (state_of F.meaning self.old) output input ≡ true }
        ensures answer { result ≡ checked (setting_fault (state_of F.meaning self.old) output input) }
        ensures after { state_of F.meaning self.new ≡ unless_found (state_of F.meaning self.old) (setting_fault (state_of F.meaning self.old) output input) (do_set (state_of F.meaning self.old) output input) }
    {
        // The lock is asked first, and alone: a pile of fabrics has to be searched for the feeding input.
        let locked = self.locks.is_locked(output);
        if locked {
            return Err(SwitchFault::OutputLocked);
        }
        let before = OutputState {
            input: self.fabric.feeding(output),
            locked,
        };
        self.fabric.route(output, input)?;
        self.settle(output, before);
        Ok(())
    }

    pub(crate) fn lock(&mut self, output: u16, input: u16) -> Result<(), SwitchFault>
        requires { in_range (state_of F.meaning self.old) output input ≡ true }
        ensures answer { result ≡ checked (locking_fault (state_of F.meaning self.old) output input) }
        ensures after { state_of F.meaning self.new ≡ unless_found (state_of F.meaning self.old) (locking_fault (state_of F.meaning self.old) output input) (do_lock (state_of F.meaning self.old) output input) }
    {
        let before = self.output_state(output);
        if !before.may_be_locked_on(input) {
            return Err(SwitchFault::OutputLocked);
        }
        self.fabric.route(output, input)?;
        self.set_lock(output, true);
        self.settle(output, before);
        Ok(())
    }

    pub(crate) fn unlock(&mut self, output: u16)
        requires { HasOutput (F.meaning self.old.fabric) output }
        ensures { state_of F.meaning self.new ≡ do_unlock (state_of F.meaning self.old) output }
    {
        let before = self.output_state(output);
        self.set_lock(output, false);
        self.settle(output, before);
    }

    // Sets or clears a bit of an output's mask, and raises every port's mask flag if it was another.
    pub(crate) fn put_mask(&mut self, output: u16, group: u8, bit: bool)
        requires fabric_value { HasOutput (F.meaning self.old.fabric) output }
        requires group_value { within group 8 ≡ true }
        ensures { state_of F.meaning self.new ≡ do_mask (state_of F.meaning self.old) output group bit }
    {
        if self.set_mask_bit(output, group, bit) {
            self.flag_all();
        }
    }

    fn set_mask_bit(&mut self, output: u16, group: u8, bit: bool) -> bool
        requires fabric_value { HasOutput (F.meaning self.old.fabric) output }
        requires group_value { within group 8 ≡ true }
        ensures answer { result ≡ not (same bit ((state_of F.meaning self.old).masks output group)) }
        ensures after { state_of F.meaning self.new ≡ with_mask output group bit (state_of F.meaning self.old) }
    {
        self.masks.set(output, group, bit)
    }
}
