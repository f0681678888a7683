// The calls of the panel: set, lock and unlock an output. Three of one shape stay three, as in the rules; a shared one is no plainer.
ghost use Rattle.std.specs.Prelude.{◌≡◌, true, OnOk};
ghost use Rattle.rules.specs.Calls.{panel_set, panel_lock, panel_unlock, step, next};
ghost use Rattle.rules.specs.Panel.{panel_refusal};
ghost use Rattle.rules.specs.Switching.{in_range};
ghost use Rattle.rules.specs.Laws.{KeepsTheLaws};
ghost use Rattle.unit.specs.Switches.{checked};
ghost use Rattle.unit.specs.Units.{state_of};
ghost use Rattle.unit.specs.Calling.{plain_event};

use crate::checks::check;
use crate::state::Unit;
use fabric::Fabric;
use rules::refusal::Refusal;

impl<F: Fabric> Unit<F> {
    // What every panel set, lock and unlock is asked: the numbers, and the keypad.
    fn check_panel(&self, output: u16, input: u16) -> Result<(), Refusal>
        ensures answer { result ≡ checked (panel_refusal (state_of F.meaning self.now) output input) }
        ensures inside { OnOk result (in_range (state_of F.meaning self.now) output input ≡ true) }
    {
        check(self.is_output(output), Refusal::NoSuchOutput)?;
        check(self.is_input(input), Refusal::NoSuchInput)?;
        check(!self.keypad_locked, Refusal::KeypadLocked)
    }

    // Puts an output on an input.
    pub fn panel_set(&mut self, output: u16, input: u16) -> Result<usize, Refusal>
        ensures answer { result ≡ (step (state_of F.meaning self.old) (panel_set output input)).answer.result }
        ensures after { state_of F.meaning self.new ≡ next (state_of F.meaning self.old) (panel_set output input) }
        ensures law { KeepsTheLaws (state_of F.meaning self.old) (plain_event (panel_set output input) result) (state_of F.meaning self.new) }
    {
        self.check_panel(output, input)?;
        self.set(output, input)?;
        Ok(0)
    }

    // Puts an output on an input and locks it.
    pub fn panel_lock(&mut self, output: u16, input: u16) -> Result<usize, Refusal>
        ensures answer { result ≡ (step (state_of F.meaning self.old) (panel_lock output input)).answer.result }
        ensures after { state_of F.meaning self.new ≡ next (state_of F.meaning self.old) (panel_lock output input) }
        ensures law { KeepsTheLaws (state_of F.meaning self.old) (plain_event (panel_lock output input) result) (state_of F.meaning self.new) }
    {
        self.check_panel(output, input)?;
        self.lock(output, input)?;
        Ok(0)
    }

    // Unlocks an output; the input is asked for its range alone.
    pub fn panel_unlock(&mut self, output: u16, input: u16) -> Result<usize, Refusal>
        ensures answer { result ≡ (step (state_of F.meaning self.old) (panel_unlock output input)).answer.result }
        ensures after { state_of F.meaning self.new ≡ next (state_of F.meaning self.old) (panel_unlock output input) }
        ensures law { KeepsTheLaws (state_of F.meaning self.old) (plain_event (panel_unlock output input) result) (state_of F.meaning self.new) }
    {
        self.check_panel(output, input)?;
        self.unlock(output);
        Ok(0)
    }
}
