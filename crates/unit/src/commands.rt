// The commands, one method each. A method answers, or tells the cause for which the command is refused; then nothing is changed.
// Two of one shape, as L and S or KL and KU, stay two: a shared one is no plainer, since each command has its own row in the rules.
ghost use Rattle.std.specs.Prelude.{◌≡◌, ◌≤◌, length};
ghost use Rattle.wire.specs.Fields.{most_text};
ghost use Rattle.packets.specs.Commands.{ask_flags, ask_version, lock_keypad, show_keypad, unlock_keypad, read_queue, lock_ethernet, ask_login, lock_output, set_output, unlock_output, ask_input, ask_status, unlock_ethernet, set_password, set_mask, log_in};
ghost use Rattle.replies.specs.Replies.{ack, Fits};
ghost use Rattle.replies.specs.Replying.{reply_of};
ghost use Rattle.rules.specs.State.{port_at};
ghost use Rattle.rules.specs.Commands.{login_shown};
ghost use Rattle.unit.specs.Answering.{Carried};
ghost use Rattle.unit.specs.Units.{state_of};

use crate::state::Unit;
use fabric::Fabric;
use replies::reply::Reply;
use replies::text::ShortText;
use rules::fault::CommandFault;
use rules::port::Port;

impl<F: Fabric> Unit<F> {
    // S
    pub(crate) fn set_output(
        &mut self,
        port: Port,
        output: u16,
        input: u16,
    ) -> Result<Reply, CommandFault>
        ensures { Carried (state_of F.meaning self.old) port (set_output output input) result (state_of F.meaning self.new) }
    {
        self.check_switch(port, b'S', output, input)?;
        self.set(output, input)?;
        Ok(Reply::OutputSet)
    }

    // L
    pub(crate) fn lock_output(
        &mut self,
        port: Port,
        output: u16,
        input: u16,
    ) -> Result<Reply, CommandFault>
        ensures { Carried (state_of F.meaning self.old) port (lock_output output input) result (state_of F.meaning self.new) }
    {
        self.check_switch(port, b'L', output, input)?;
        self.lock(output, input)?;
        Ok(Reply::OutputLocked)
    }

    // U
    pub(crate) fn unlock_output(
        &mut self,
        port: Port,
        output: u16,
        input: u16,
    ) -> Result<Reply, CommandFault>
        ensures { Carried (state_of F.meaning self.old) port (unlock_output output input) result (state_of F.meaning self.new) }
    {
        self.check_switch(port, b'U', output, input)?;
        self.unlock(output);
        Ok(Reply::OutputUnlocked)
    }

    // O
    pub(crate) fn ask_input(&mut self, port: Port, output: u16) -> Result<Reply, CommandFault>
        ensures { Carried (state_of F.meaning self.old) port (ask_input output) result (state_of F.meaning self.new) }
    {
        self.check_output(output)?;
        self.check_ethernet(port, b'O')?;
        let input = self.fabric.feeding(output);
        Ok(Reply::FeedingInput { input })
    }

    // OS
    pub(crate) fn ask_status(&mut self, port: Port, output: u16) -> Result<Reply, CommandFault>
        ensures { Carried (state_of F.meaning self.old) port (ask_status output) result (state_of F.meaning self.new) }
    {
        self.check_output(output)?;
        self.check_ethernet(port, b'O')?;
        Ok(Reply::Status {
            input: self.fabric.feeding(output),
            locked: self.locks.is_locked(output),
            mask: self.masks.byte(output),
        })
    }

    // C
    pub(crate) fn ask_flags(&mut self, port: Port) -> Result<Reply, CommandFault>
        ensures { Carried (state_of F.meaning self.old) port ask_flags result (state_of F.meaning self.new) }
    {
        self.check_ethernet(port, b'C')?;
        let record = self.ports.at(port);
        Ok(Reply::Flags {
            entries: record.has_entries(),
            mask: record.is_flagged(),
            overrun: record.is_overrun(),
        })
    }

    // F
    pub(crate) fn ask_version(&mut self, port: Port) -> Result<Reply, CommandFault>
        ensures { Carried (state_of F.meaning self.old) port ask_version result (state_of F.meaning self.new) }
    {
        self.check_ethernet(port, b'F')?;
        Ok(Reply::Version {
            inputs: self.fabric.inputs(),
            outputs: self.fabric.outputs(),
        })
    }

    // KL
    pub(crate) fn lock_keypad(&mut self, port: Port) -> Result<Reply, CommandFault>
        ensures { Carried (state_of F.meaning self.old) port lock_keypad result (state_of F.meaning self.new) }
    {
        self.check_ethernet(port, b'K')?;
        self.keypad_locked = true;
        Ok(Reply::KeypadLocked)
    }

    // KU
    pub(crate) fn unlock_keypad(&mut self, port: Port) -> Result<Reply, CommandFault>
        ensures { Carried (state_of F.meaning self.old) port unlock_keypad result (state_of F.meaning self.new) }
    {
        self.check_ethernet(port, b'K')?;
        self.keypad_locked = false;
        Ok(Reply::KeypadUnlocked)
    }

    // KS
    pub(crate) fn show_keypad(&mut self, port: Port) -> Result<Reply, CommandFault>
        ensures { Carried (state_of F.meaning self.old) port show_keypad result (state_of F.meaning self.new) }
    {
        self.check_ethernet(port, b'K')?;
        Ok(Reply::KeypadState {
            locked: self.keypad_locked,
        })
    }

    // Q
    pub(crate) fn read_queue(&mut self, port: Port) -> Result<Reply, CommandFault>
        ensures { Carried (state_of F.meaning self.old) port read_queue result (state_of F.meaning self.new) }
    {
        self.check_ethernet(port, b'Q')?;
        let queue = self.take_queue(port);
        Ok(Reply::Changes { queue })
    }

    // ELE
    pub(crate) fn lock_ethernet(&mut self, port: Port) -> Result<Reply, CommandFault>
        ensures { Carried (state_of F.meaning self.old) port lock_ethernet result (state_of F.meaning self.new) }
    {
        self.check_ethernet(port, b'E')?;
        self.ethernet_locked = true;
        Ok(Reply::EthernetChanged)
    }

    // ELD: only the password is asked.
    pub(crate) fn unlock_ethernet(
        &mut self,
        _port: Port,
        password: &[u8],
    ) -> Result<Reply, CommandFault>
        ensures { Carried (state_of F.meaning self.old) _port (unlock_ethernet password.now) result (state_of F.meaning self.new) }
    {
        if password != self.password.as_slice() {
            return Err(CommandFault::WrongPassword);
        }
        self.ethernet_locked = false;
        Ok(Reply::EthernetChanged)
    }

    // ZC
    pub(crate) fn ask_login(&mut self, port: Port) -> Result<Reply, CommandFault>
        ensures { Carried (state_of F.meaning self.old) port ask_login result (state_of F.meaning self.new) }
    {
        self.check_ethernet(port, b'Z')?;
        Ok(self.login_shown(port))
    }

    // No login is shown as user 0, who has no name.
    fn login_shown(&self, port: Port) -> Reply
        ensures answer { reply_of result ≡ ack (login_shown (state_of F.meaning self.now) (port_at (state_of F.meaning self.now) port).login) }
        ensures fits { Fits (reply_of result) }
    {
        let user = self.ports.at(port).login().unwrap_or(0);
        Reply::Login {
            user,
            group: user,
            name: self.users.get(user).name,
        }
    }

    // ZI
    pub(crate) fn log_in(
        &mut self,
        port: Port,
        name: &[u8],
        password: &[u8],
    ) -> Result<Reply, CommandFault>
        ensures { Carried (state_of F.meaning self.old) port (log_in name.now password.now) result (state_of F.meaning self.new) }
    {
        self.check_ethernet(port, b'Z')?;
        let user = self
            .users
            .find(name, password)
            .ok_or(CommandFault::NoRight)?;
        self.begin_login(port, user);
        Ok(Reply::LoggedIn { user, group: user })
    }

    // ELP
    pub(crate) fn set_password(
        &mut self,
        port: Port,
        password: &[u8],
    ) -> Result<Reply, CommandFault>
        requires { length password.now ≤ most_text }
        ensures { Carried (state_of F.meaning self.old) port (set_password password.now) result (state_of F.meaning self.new) }
    {
        self.check_ethernet(port, b'E')?;
        self.password = ShortText::try_from(password).unwrap();
        Ok(Reply::EthernetChanged)
    }

    // ZA: the mask flag is raised at every port, if the bit was another.
    pub(crate) fn set_mask(
        &mut self,
        port: Port,
        group: u8,
        bit: u8,
        output: u16,
    ) -> Result<Reply, CommandFault>
        ensures { Carried (state_of F.meaning self.old) port (set_mask group bit output) result (state_of F.meaning self.new) }
    {
        self.check_mask(port, group, bit, output)?;
        self.put_mask(output, group, bit == 1);
        Ok(Reply::MaskSet)
    }
}
