// A fabric with two of its input numbers exchanged.
ghost use Rattle.std.specs.Prelude.{◌≡◌};
ghost use Rattle.fabric.specs.Swaps.{exchanged, swapped};
ghost use Rattle.fabric.specs.Kinds.{swap_meaning};
ghost use Rattle.fabric.specs.Laws.{SwappedTwiceIsTheFabricBelow, SwappedRoutesTheExchangedInput};
ghost use Rattle.fabric.specs.Soundness.{swap_sound};

use crate::{Fabric, RouteFault, is_within};

// With p or q outside the count of inputs, nothing is exchanged.
#[derive(Drop)]
pub struct Swap<F> {
    below: F,
    p: u16,
    q: u16,
}

impl<F: Fabric> Swap<F> {
    pub fn new(below: F, p: u16, q: u16) -> Swap<F>
        ensures { swap_meaning F.Fabric.meaning result ≡ swapped (F.Fabric.meaning below) p q }
    {
        Swap { below, p, q }
    }

    // The number that `input` has in the fabric below; also the other way round, since an exchange undoes itself.
    pub fn input_below(&self, input: u16) -> u16
        ensures answer { result ≡ exchanged (F.Fabric.meaning self.now.below).inputs self.now.p self.now.q input }
        ensures law { SwappedRoutesTheExchangedInput (F.Fabric.meaning self.now.below) self.now.p self.now.q }
    {
        let count = self.below.inputs();
        if !is_within(self.p, count) || !is_within(self.q, count) {
            return input;
        }
        if input == self.p {
            self.q
        } else if input == self.q {
            self.p
        } else {
            input
        }
    }
}

// Exchanges two inputs and exchanges them back.
pub fn swap_twice<F: Fabric>(below: F, p: u16, q: u16) -> Swap<Swap<F>>
    ensures meaning { swap_meaning (swap_meaning F.Fabric.meaning) result ≡ F.Fabric.meaning below }
    ensures law { SwappedTwiceIsTheFabricBelow }
{
    Swap::new(Swap::new(below, p, q), p, q)
}

impl<F: Fabric> Fabric for Swap<F> {
    ghost meaning = { swap_meaning F.Fabric.meaning };

    ghost sound = { λ x. swap_sound (F.Fabric.meaning x.below) x.p x.q (F.Fabric.sound x.below) };

    fn inputs(&self) -> u16 {
        self.below.inputs()
    }

    fn outputs(&self) -> u16 {
        self.below.outputs()
    }

    fn feeding(&self, output: u16) -> u16 {
        self.input_below(self.below.feeding(output))
    }

    fn can_make(&self, output: u16, input: u16) -> bool {
        self.below.can_make(output, self.input_below(input))
    }

    fn route(&mut self, output: u16, input: u16) -> Result<(), RouteFault> {
        let input = self.input_below(input);
        self.below.route(output, input)
    }
}
