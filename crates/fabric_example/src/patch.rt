// A patch field of four inputs and three outputs. The cord of an output is short: it reaches the input of its own number and the
// next one, and no other.
ghost use Rattle.std.specs.Prelude.{◌≡◌};
ghost use Rattle.fabric_example.specs.Patches.{patch_meaning, new_patch, patch_sound};

use fabric::{Fabric, RouteFault, is_within};

const INPUTS: u16 = 4;

const OUTPUTS: u16 = 3;

#[derive(Drop)]
pub struct PatchField {
    // Whether the cord of output 1, 2 and 3 is in the next input.
    next: [bool; OUTPUTS as usize],
}

impl PatchField {
    // Every output on the input of its own number.
    pub fn new() -> PatchField
        ensures { patch_meaning result ≡ new_patch }
    {
        PatchField {
            next: [false; OUTPUTS as usize],
        }
    }
}

impl Default for PatchField {
    ghost is_default = { λ p. patch_meaning p ≡ new_patch };

    fn default() -> PatchField {
        PatchField::new()
    }
}

impl Fabric for PatchField {
    ghost meaning = { patch_meaning };

    ghost sound = { patch_sound };

    fn inputs(&self) -> u16 {
        INPUTS
    }

    fn outputs(&self) -> u16 {
        OUTPUTS
    }

    fn feeding(&self, output: u16) -> u16 {
        if !is_within(output, OUTPUTS) {
            return 0;
        }
        if self.next[output as usize - 1] {
            output + 1
        } else {
            output
        }
    }

    fn can_make(&self, output: u16, input: u16) -> bool {
        is_within(output, OUTPUTS) && (input == output || input == output + 1)
    }

    fn route(&mut self, output: u16, input: u16) -> Result<(), RouteFault> {
        if !is_within(output, OUTPUTS) || !is_within(input, INPUTS) {
            return Err(RouteFault::OutOfRange);
        }
        if !self.can_make(output, input) {
            return Err(RouteFault::CannotBeMade);
        }
        self.next[output as usize - 1] = output < input;
        Ok(())
    }
}
