// The commands, and which command a packet is.
ghost use Rattle.std.specs.Prelude.{◌≡◌};
ghost use Rattle.packets.specs.Receiving.{packet as packet_of};
ghost use Rattle.packets.specs.Commands.{command_in};
ghost use Rattle.packets.specs.Decoding.{outcome};

use crate::packet::{Packet, PacketFault};

mod body;
mod data_bytes;

pub use body::decode;

// A command with its fields. Passwords and names are parts of the packet.
#[derive(Clone, Copy)]
pub enum Command<'a> {
    // C
    AskFlags,
    // F
    AskVersion,
    // KL
    LockKeypad,
    // KS
    ShowKeypad,
    // KU
    UnlockKeypad,
    // L
    LockOutput { output: u16, input: u16 },
    // O
    AskInput { output: u16 },
    // OS
    AskStatus { output: u16 },
    // Q
    ReadQueue,
    // S
    SetOutput { output: u16, input: u16 },
    // U
    UnlockOutput { output: u16, input: u16 },
    // ELD
    UnlockEthernet { password: &'a [u8] },
    // ELE
    LockEthernet,
    // ELP
    SetPassword { password: &'a [u8] },
    // ZA. The bit is no `bool`: the rules judge later whether a digit is in range, and with another letter.
    SetMask { group: u8, bit: u8, output: u16 },
    // ZC
    AskLogin,
    // ZI
    LogIn { name: &'a [u8], password: &'a [u8] },
}

// The command of a packet whose body is `body`: its check byte has to be right and its list not overrun.
pub fn command_in<'a>(packet: &Packet, body: &'a [u8]) -> Result<Command<'a>, PacketFault>
    ensures { outcome result ≡ command_in (packet_of packet.now) body.now }
{
    if !packet.is_right() {
        return Err(PacketFault::WrongCheckByte);
    }
    if packet.is_overrun() {
        return Err(PacketFault::ListOverrun);
    }
    decode(body)
}
