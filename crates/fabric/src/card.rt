// A card: a number for each output, and every pair can be made.
ghost use Rattle.std.specs.Prelude.{◌≡◌, true, ◌&&◌};
ghost use Rattle.fabric.specs.Meaning.{within, routed};
ghost use Rattle.fabric.specs.Cards.{AllFed, new_card};
ghost use Rattle.fabric.specs.Soundness.{card_sound};

use crate::size::Size;
use crate::{Fabric, MOST_INPUTS, MOST_OUTPUTS, RouteFault};

#[derive(Drop)]
pub struct Card {
    size: Size<MOST_INPUTS, MOST_OUTPUTS>,
    // The feeding input of output 1, 2 and so on.
    from: [u16; MOST_OUTPUTS as usize],
    ghost fed: { AllFed size.inputs size.outputs from },
}

impl Card {
    ghost use Rattle.fabric.specs.Kinds.{card_meaning};

    // A card with every output on input 1. A size outside the limits is taken as the nearest limit.
    pub fn new(inputs: u16, outputs: u16) -> Card
        ensures { card_meaning result ≡ new_card inputs outputs }
    {
        Card {
            size: Size::nearest(inputs, outputs),
            from: [1; MOST_OUTPUTS as usize],
        }
    }

    fn connect(&mut self, output: u16, input: u16)
        requires { (within output self.old.size.outputs && within input self.old.size.inputs) ≡ true }
        ensures { card_meaning self.new ≡ routed (card_meaning self.old) output input }
    {
        self.from[output as usize - 1] = input;
    }
}

impl Fabric for Card {
    ghost use Rattle.fabric.specs.Kinds.{card_meaning};

    ghost meaning = { card_meaning };

    ghost sound = { λ c. card_sound c.size c.from c.fed };

    fn inputs(&self) -> u16 {
        self.size.inputs
    }

    fn outputs(&self) -> u16 {
        self.size.outputs
    }

    fn feeding(&self, output: u16) -> u16 {
        if !self.size.has_output(output) {
            return 0;
        }
        self.from[output as usize - 1]
    }

    fn can_make(&self, output: u16, input: u16) -> bool {
        self.size.has_pair(output, input)
    }

    fn route(&mut self, output: u16, input: u16) -> Result<(), RouteFault> {
        if !self.can_make(output, input) {
            return Err(RouteFault::OutOfRange);
        }
        self.connect(output, input);
        Ok(())
    }
}
