// What is done with a packet: its address, its command, and the reply.
ghost use Rattle.std.specs.Prelude.{◌≡◌, ◌≤◌, true, length, Some, Ok};
ghost use Rattle.wire.specs.Frames.{written};
ghost use Rattle.packets.specs.Commands.{command_in};
ghost use Rattle.packets.specs.Decoding.{command as command_of, outcome};
ghost use Rattle.packets.specs.Receiving.{packet as packet_of};
ghost use Rattle.replies.specs.Replies.{Fits, reply_bytes};
ghost use Rattle.replies.specs.Replying.{reply_of};
ghost use Rattle.rules.specs.Calls.{packet_step};
ghost use Rattle.rules.specs.Commands.{judged, reply_to};
ghost use Rattle.unit.specs.Answering.{Carried, JudgedSo, fits_command, fits_outcome};
ghost use Rattle.unit.specs.Units.{state_of};

use crate::state::Unit;
use fabric::Fabric;
use packets::address::is_addressed;
use packets::command::{Command, command_in};
use packets::packet::{Packet, PacketFault};
use replies::reply::{Reply, write_reply};
use rules::fault::CommandFault;
use rules::port::Port;
use wire::address::AddressBytes;

impl<F: Fabric> Unit<F> {
    // One match on the commands: a table of functions is no plainer, since each has fields of its own.
    fn carry_out(&mut self, port: Port, command: Command<'_>) -> Result<Reply, CommandFault>
        requires { fits_command (command_of command) ≡ true }
        ensures { Carried (state_of F.meaning self.old) port (command_of command.entry) result (state_of F.meaning self.new) }
    {
        match command {
            Command::AskFlags => self.ask_flags(port),
            Command::AskVersion => self.ask_version(port),
            Command::LockKeypad => self.lock_keypad(port),
            Command::ShowKeypad => self.show_keypad(port),
            Command::UnlockKeypad => self.unlock_keypad(port),
            Command::LockOutput { output, input } => self.lock_output(port, output, input),
            Command::AskInput { output } => self.ask_input(port, output),
            Command::AskStatus { output } => self.ask_status(port, output),
            Command::ReadQueue => self.read_queue(port),
            Command::SetOutput { output, input } => self.set_output(port, output, input),
            Command::UnlockOutput { output, input } => self.unlock_output(port, output, input),
            Command::UnlockEthernet { password } => self.unlock_ethernet(port, password),
            Command::LockEthernet => self.lock_ethernet(port),
            Command::SetPassword { password } => self.set_password(port, password),
            Command::SetMask { group, bit, output } => self.set_mask(port, group, bit, output),
            Command::AskLogin => self.ask_login(port),
            Command::LogIn { name, password } => self.log_in(port, name, password),
        }
    }

    // The causes of the packet and of its command go up as they are.
    fn obey(
        &mut self,
        port: Port,
        command: Result<Command<'_>, PacketFault>,
    ) -> Result<Reply, CommandFault>
        requires { fits_outcome (outcome command) ≡ true }
        ensures { JudgedSo (state_of F.meaning self.old) port (outcome command.entry) result (state_of F.meaning self.new) }
    {
        let command = command?;
        self.carry_out(port, command)
    }

    // What is replied to the packet: the answer, or the letter of the cause.
    fn judge(&mut self, port: Port, packet: &Packet, body: &[u8]) -> Reply
        ensures answer { reply_of result ≡ reply_to (judged (state_of F.meaning self.old) port (command_in (packet_of packet.now) body.now)).answer }
        ensures after { state_of F.meaning self.new ≡ (judged (state_of F.meaning self.old) port (command_in (packet_of packet.now) body.now)).next }
        ensures fits { Fits (reply_of result) }
    {
        self.obey(port, command_in(packet, body))
            .unwrap_or_else(|fault| Reply::Refused {
                letter: fault.letter(),
            })
    }

    // Judges a packet and writes the reply to the front of the buffer. Returns the reply's length, 0 for none.
    pub(crate) fn answer_packet(&mut self, port: Port, packet: &Packet, buffer: &mut [u8]) -> usize
        requires { 64 ≤ length buffer.old }
        ensures answer { Ok result ≡ (packet_step (state_of F.meaning self.old) port (Some (packet_of packet.now))).answer.result }
        ensures buffer { buffer.new ≡ written (packet_step (state_of F.meaning self.old) port (Some (packet_of packet.now))).answer.reply buffer.old }
        ensures after { state_of F.meaning self.new ≡ (packet_step (state_of F.meaning self.old) port (Some (packet_of packet.now))).next }
    {
        // A `let else`: `map_or` is no plainer, since its closure would change the unit and the buffer.
        let Some(parts) = packet.parts() else {
            return 0;
        };
        if !is_addressed(self.address, parts.address) {
            return 0;
        }
        let reply = self.judge(port, packet, parts.body);
        copy_reply(parts.address, &reply, buffer)
    }
}

// Writes a reply that fits to the front of a buffer that is long enough.
fn copy_reply(address: AddressBytes, reply: &Reply, buffer: &mut [u8]) -> usize
    requires fits { Fits (reply_of reply.now) }
    requires in_bounds { 64 ≤ length buffer.old }
    ensures answer { result ≡ length (reply_bytes address.high address.low (reply_of reply.now)) }
    ensures buffer { buffer.new ≡ written (reply_bytes address.high address.low (reply_of reply.now)) buffer.old }
{
    let sealed = write_reply(address, reply).unwrap();
    sealed.copy_to(buffer).unwrap()
}
