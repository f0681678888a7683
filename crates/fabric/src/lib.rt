// Fabrics of a crosspoint switch: what every fabric means, and the kinds of fabric in this crate.
#![tactic(auto)]

ghost use Rattle.std.specs.Prelude.{◌≡◌};
ghost use Rattle.fabric.specs.Meaning.{Meaning, Sound, answer, after, within};

mod bank;
mod card;
mod fault;
mod join;
mod plan;
mod size;
mod swap;

pub use bank::{BankSetup, RelayBank};
pub use card::Card;
pub use fault::RouteFault;
pub use join::Join;
pub use plan::{route_all, route_both};
pub use swap::{Swap, swap_twice};

// The most inputs and outputs that a fabric may have.
const MOST_INPUTS: u16 = 999;

const MOST_OUTPUTS: u16 = 256;

// A fabric feeds each of its outputs from one of its inputs. Only `route` changes it.
// An output and an input stay two numbers: a struct is no plainer, since each is judged by a count of its own.
// The place of an output is written out, and is no table by number: no plainer, since it is read only for an output found inside the count, and a table would test again.
pub trait Fabric {
    ghost meaning: { Self → Meaning };

    fn inputs(&self) -> u16
        ensures { result ≡ (meaning self.now).inputs };

    fn outputs(&self) -> u16
        ensures { result ≡ (meaning self.now).outputs };

    // The input that feeds an output; 0 for an output outside the count.
    // A number: an `Option` is no plainer, since the rules compare with 0, and a unit asks only for outputs that it has checked.
    fn feeding(&self, output: u16) -> u16
        ensures { result ≡ (meaning self.now).feeding output };

    // Whether an input can feed an output; never for a number outside the counts.
    fn can_make(&self, output: u16, input: u16) -> bool
        ensures { result ≡ (meaning self.now).makeable output input };

    // Makes an input the feeding one of an output, and changes nothing else. A refusal changes nothing at all.
    fn route(&mut self, output: u16, input: u16) -> Result<(), RouteFault>
        ensures answer { result ≡ answer (meaning self.old) output input }
        ensures after { meaning self.new ≡ after (meaning self.old) output input };

    // Counts and feeding inputs are inside the limits, and numbers outside the counts feed nothing and cannot be made.
    ghost sound: { (x : Self) → Sound (meaning x) };
}

// Whether `number` is one of 1 to `count`.
pub fn is_within(number: u16, count: u16) -> bool
    ensures { result ≡ within number count }
{
    (1..=count).contains(&number)
}
