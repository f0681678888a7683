// A bank of relays: a row of 16 relays for each output, of which exactly one is closed.
ghost use Rattle.std.specs.Prelude.{◌≡◌, true, ◌&&◌};
ghost use Rattle.fabric.specs.Meaning.{within, routed};
ghost use Rattle.fabric.specs.Banks.{AllClosed, is_on, closed, OneClosed, relay_row, row_of};
ghost use Rattle.fabric.specs.Soundness.{bank_sound};

use crate::size::Size;
use crate::{Fabric, RouteFault};
use row::{RelayRow, relay};

mod row;
mod setup;

pub use setup::BankSetup;

// The most inputs and outputs of a bank: one relay for each bit of a row.
const MOST_RELAYS: u16 = 16;

// A bank in service. Its marks stay as the setup had them.
#[derive(Drop)]
pub struct RelayBank {
    size: Size<MOST_RELAYS, MOST_RELAYS>,
    // The row of output 1, 2 and so on.
    rows: [RelayRow; MOST_RELAYS as usize],
    ghost one: { AllClosed size.inputs size.outputs rows },
}

impl RelayBank {
    ghost use Rattle.fabric.specs.Kinds.{bank_meaning};
    ghost use Rattle.fabric.specs.Laws.{OnlyTheFeedingRelayIsClosed};

    // The row of an output, with the relay of input j at bit j - 1; no relay for an output outside the count.
    pub fn relays(&self, output: u16) -> u16
        ensures answer { result ≡ relay_row (bank_meaning self.now) output }
        ensures law { OnlyTheFeedingRelayIsClosed (bank_meaning self.now) output result }
    {
        if !self.size.has_output(output) {
            return 0;
        }
        self.rows[output as usize - 1].closed
    }

    // Sets the relays of an output, of which exactly one is closed.
    fn connect(&mut self, output: u16, row: u16)
        requires { (within output self.old.size.outputs ≡ true) × (OneClosed self.old.size.inputs row) }
        ensures { bank_meaning self.new ≡ routed (bank_meaning self.old) output (closed row) }
    {
        self.rows[output as usize - 1].closed = row;
    }

    fn is_bad(&self, output: u16, input: u16) -> bool
        requires { (within output self.now.size.outputs && within input self.now.size.inputs) ≡ true }
        ensures { result ≡ is_on (row_of self.now.rows output).bad input }
    {
        (self.rows[output as usize - 1].bad >> (input - 1)) & 1 == 1
    }
}

impl Fabric for RelayBank {
    ghost use Rattle.fabric.specs.Kinds.{bank_meaning};

    ghost meaning = { bank_meaning };

    ghost sound = { λ b. bank_sound b.size b.rows b.one };

    fn inputs(&self) -> u16 {
        self.size.inputs
    }

    fn outputs(&self) -> u16 {
        self.size.outputs
    }

    fn feeding(&self, output: u16) -> u16 {
        if !self.size.has_output(output) {
            return 0;
        }
        self.rows[output as usize - 1].closed.trailing_zeros() as u16 + 1
    }

    fn can_make(&self, output: u16, input: u16) -> bool {
        self.size.has_pair(output, input) && !self.is_bad(output, input)
    }

    fn route(&mut self, output: u16, input: u16) -> Result<(), RouteFault> {
        if !self.size.has_pair(output, input) {
            return Err(RouteFault::OutOfRange);
        }
        if self.is_bad(output, input) {
            return Err(RouteFault::CannotBeMade);
        }
        self.connect(output, relay(input));
        Ok(())
    }
}
