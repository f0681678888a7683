// What a command is asked before it is carried out. Checks of one shape stay apart: what they have in common is the call of `check`, and more
// would be no plainer.
ghost use Rattle.std.specs.Prelude.{◌≡◌, true, not, ◌&&◌, OnOk};
ghost use Rattle.fabric.specs.Meaning.{within};
ghost use Rattle.rules.specs.PerPort.{is_ethernet};
ghost use Rattle.rules.specs.Switching.{in_range, unless};
ghost use Rattle.rules.specs.State.{port_at};
ghost use Rattle.rules.specs.Commands.{range_fault, right_fault, may_switch, mask_in_range, is_logged_in_as, fault_of};
ghost use Rattle.packets.specs.Commands.{set_mask};
ghost use Rattle.rules.specs.declared.fault.CommandFault.TheVariants.{EthernetLocked};
ghost use Rattle.unit.specs.Switches.{checked, switch_fault};
ghost use Rattle.unit.specs.Units.{state_of};

use crate::state::Unit;
use fabric::{Fabric, is_within};
use rules::fault::CommandFault;
use rules::port::Port;

fn is_ethernet(port: Port) -> bool
    ensures { result ≡ is_ethernet port }
{
    port == Port::Two
}

// With then_some and ok_or: no plainer, since a bool is first made an Option. A refusal that stands alone in its function is an `if`, and a call of
// `check` there no plainer.
pub(crate) fn check<E: Drop>(passed: bool, fault: E) -> Result<(), E>
    ensures { result ≡ checked (unless passed fault) }
{
    if passed { Ok(()) } else { Err(fault) }
}

impl<F: Fabric> Unit<F> {
    // Two: a shared one is no plainer, since each asks the fabric for another count.
    pub(crate) fn is_output(&self, output: u16) -> bool
        ensures { result ≡ within output (state_of F.meaning self.now).fabric.outputs }
    {
        is_within(output, self.fabric.outputs())
    }

    pub(crate) fn is_input(&self, input: u16) -> bool
        ensures { result ≡ within input (state_of F.meaning self.now).fabric.inputs }
    {
        is_within(input, self.fabric.inputs())
    }

    pub(crate) fn check_output(&self, output: u16) -> Result<(), CommandFault>
        ensures { result ≡ checked (range_fault (within output (state_of F.meaning self.now).fabric.outputs)) }
    {
        check(self.is_output(output), CommandFault::OutOfRange)
    }

    pub(crate) fn check_range(&self, output: u16, input: u16) -> Result<(), CommandFault>
        ensures { result ≡ checked (range_fault (in_range (state_of F.meaning self.now) output input)) }
    {
        let inside = self.is_output(output) && self.is_input(input);
        check(inside, CommandFault::OutOfRange)
    }

    pub(crate) fn check_mask_range(
        &self,
        group: u8,
        bit: u8,
        output: u16,
    ) -> Result<(), CommandFault>
        ensures { result ≡ checked (range_fault (mask_in_range (state_of F.meaning self.now) group bit output)) }
    {
        let inside = is_within(u16::from(group), 8) && bit <= 1 && self.is_output(output);
        check(inside, CommandFault::OutOfRange)
    }

    // The Ethernet lock stops every command but ELD at port 2; `letter` is the first of the command's.
    // A struct of port and letter: no plainer, since the rules take them one by one, and each clause would take it apart.
    pub(crate) fn check_ethernet(&self, port: Port, letter: u8) -> Result<(), CommandFault>
        ensures { result ≡ checked (unless (not ((state_of F.meaning self.now).ethernet && is_ethernet port)) (EthernetLocked letter)) }
    {
        let free = !(self.ethernet_locked && is_ethernet(port));
        check(free, CommandFault::EthernetLocked { letter })
    }

    fn may_switch(&self, port: Port, output: u16) -> bool
        ensures { result ≡ may_switch (state_of F.meaning self.now) port output }
    {
        let login = self.ports.at(port).login();
        !self.access || login.is_some_and(|user| self.masks.bit(output, user))
    }

    // S, L and U need a login whose group has its bit set at the output, if access control is on.
    pub(crate) fn check_right(&self, port: Port, output: u16) -> Result<(), CommandFault>
        ensures { result ≡ checked (right_fault (may_switch (state_of F.meaning self.now) port output)) }
    {
        check(self.may_switch(port, output), CommandFault::NoRight)
    }

    fn is_user_one(&self, port: Port) -> bool
        ensures { result ≡ is_logged_in_as 1 (port_at (state_of F.meaning self.now) port).login }
    {
        self.ports.at(port).login() == Some(1)
    }

    // ZA needs a login as user 1.
    pub(crate) fn check_user_one(&self, port: Port) -> Result<(), CommandFault>
        ensures { result ≡ checked (right_fault (is_logged_in_as 1 (port_at (state_of F.meaning self.now) port).login)) }
    {
        check(self.is_user_one(port), CommandFault::NoRight)
    }

    // What S, L and U are asked before the output itself is.
    pub(crate) fn check_switch(
        &self,
        port: Port,
        letter: u8,
        output: u16,
        input: u16,
    ) -> Result<(), CommandFault>
        ensures answer { result ≡ checked (switch_fault (state_of F.meaning self.now) port letter output input) }
        ensures inside { OnOk result (in_range (state_of F.meaning self.now) output input ≡ true) }
    {
        self.check_range(output, input)?;
        self.check_ethernet(port, letter)?;
        self.check_right(port, output)
    }

    // What ZA is asked.
    // A struct of group, bit and output: no plainer, since the rules' command holds the three, and each clause would take it apart.
    pub(crate) fn check_mask(
        &self,
        port: Port,
        group: u8,
        bit: u8,
        output: u16,
    ) -> Result<(), CommandFault>
        ensures answer { result ≡ checked (fault_of (state_of F.meaning self.now) port (set_mask group bit output)) }
        ensures inside { OnOk result (mask_in_range (state_of F.meaning self.now) group bit output ≡ true) }
    {
        self.check_mask_range(group, bit, output)?;
        self.check_ethernet(port, b'Z')?;
        self.check_user_one(port)
    }
}
