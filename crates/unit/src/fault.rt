// Why an output was not switched, and how that cause goes up to a packet's reply and to a panel call.
// Two conversions of one shape: a shared one is no plainer, since a letter and a number are looked up in different tables.
ghost use Rattle.std.specs.Prelude.{◌≡◌};
ghost use Rattle.unit.specs.Switches.{command_fault, panel_fault};
ghost use Rattle.unit.specs.declared.fault.SwitchFault.TheVariants.{Route};

use fabric::RouteFault;
use rules::fault::CommandFault;
use rules::refusal::Refusal;

#[derive(Clone, Copy, PartialEq, Eq, Debug)]
pub(crate) enum SwitchFault {
    // The output is locked.
    OutputLocked,
    // The fabric refused the routing.
    Route(RouteFault),
}

impl From<RouteFault> for SwitchFault {
    ghost from_gives = { λ e r. r ≡ Route e };

    fn from(e: RouteFault) -> SwitchFault {
        SwitchFault::Route(e)
    }
}

impl From<SwitchFault> for CommandFault {
    ghost from_gives = { λ e r. r ≡ command_fault e };

    fn from(e: SwitchFault) -> CommandFault {
        match e {
            SwitchFault::OutputLocked => CommandFault::OutputLocked,
            SwitchFault::Route(RouteFault::CannotBeMade) => CommandFault::CannotBeMade,
            SwitchFault::Route(RouteFault::OutOfRange) => CommandFault::OutOfRange,
        }
    }
}

impl From<SwitchFault> for Refusal {
    ghost from_gives = { λ e r. r ≡ panel_fault e };

    fn from(e: SwitchFault) -> Refusal {
        match e {
            SwitchFault::OutputLocked => Refusal::OutputLocked,
            SwitchFault::Route(RouteFault::CannotBeMade) => Refusal::CannotBeMade,
            SwitchFault::Route(RouteFault::OutOfRange) => Refusal::NoSuchOutput,
        }
    }
}
