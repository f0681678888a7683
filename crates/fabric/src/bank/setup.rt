// A bank before service: its size, and which of its relays are bad.
ghost use Rattle.std.specs.Prelude.{◌≡◌, true, ◌&&◌};
ghost use Rattle.fabric.specs.Meaning.{within};
ghost use Rattle.fabric.specs.Cards.{started};
ghost use Rattle.fabric.specs.Banks.{AllOnFirst, new_bank, without, marked};

use super::row::{RelayRow, relay};
use super::{MOST_RELAYS, RelayBank};
use crate::size::Size;

// A bank before service, when relays can be marked bad.
#[derive(Drop)]
pub struct BankSetup {
    bank: RelayBank,
    ghost unrouted: { AllOnFirst bank.size.outputs bank.rows },
}

impl BankSetup {
    ghost use Rattle.fabric.specs.Kinds.{setup_meaning, bank_meaning};
    ghost use Rattle.fabric.specs.Laws.{EachOutputIsOnInputOne};

    // A bank with no relay marked bad. A size outside the limits is taken as the nearest limit.
    pub fn new(inputs: u16, outputs: u16) -> BankSetup
        ensures { setup_meaning result ≡ new_bank inputs outputs }
    {
        BankSetup::unmarked(Size::nearest(inputs, outputs))
    }

    // A bank of this size, with no relay marked bad.
    fn unmarked(size: Size<MOST_RELAYS, MOST_RELAYS>) -> BankSetup
        ensures { setup_meaning result ≡ started size.inputs size.outputs }
    {
        BankSetup {
            bank: RelayBank {
                size,
                rows: [RelayRow { closed: 1, bad: 0 }; MOST_RELAYS as usize],
            },
        }
    }

    // Marks a relay as bad: its pair cannot be made. A mark outside the counts does nothing.
    pub fn mark_bad(&mut self, output: u16, input: u16)
        ensures { setup_meaning self.new ≡ marked (setup_meaning self.old) output input }
    {
        if self.bank.size.has_pair(output, input) {
            self.mark(output, input);
        }
    }

    // Begins service, with every output on input 1, also where that relay is bad.
    pub fn into_service(self) -> RelayBank
        ensures meaning { bank_meaning result ≡ setup_meaning self }
        ensures law { EachOutputIsOnInputOne (bank_meaning result) }
    {
        self.bank
    }

    fn mark(&mut self, output: u16, input: u16)
        requires { (within output self.old.bank.size.outputs && within input self.old.bank.size.inputs) ≡ true }
        ensures { setup_meaning self.new ≡ without (setup_meaning self.old) output input }
    {
        self.bank.rows[output as usize - 1].bad |= relay(input);
    }
}
