// Why an addressed packet was refused.
ghost use Rattle.rules.specs.Commands.{letter};
ghost use Rattle.rules.specs.declared.fault.CommandFault.TheVariants.{Packet};
ghost use Rattle.std.specs.Prelude.{◌≡◌};

use packets::packet::PacketFault;

// The causes, in the order in which they are looked for.
#[derive(Clone, Copy, PartialEq, Eq, Debug)]
pub enum CommandFault {
    // The packet is no command.
    Packet(PacketFault),
    // A number is outside its range.
    OutOfRange,
    // The password of ELD is not the unit's.
    WrongPassword,
    // The Ethernet lock is on, and the packet came over Ethernet; with the first letter of its command,
    // a byte, since the rules send it back as it stands.
    EthernetLocked { letter: u8 },
    // The port has no right to the command, or a login names no user.
    NoRight,
    // The output is locked.
    OutputLocked,
    // The output cannot be put on the input.
    CannotBeMade,
}

impl CommandFault {
    // The letter that is sent back. A method: two causes share a letter, so `From` would be no plainer, and could not be turned round.
    pub fn letter(self) -> u8
        ensures { result ≡ letter self }
    {
        match self {
            CommandFault::Packet(fault) => fault.letter(),
            CommandFault::OutOfRange => b'd',
            CommandFault::WrongPassword => b'd',
            CommandFault::EthernetLocked { letter } => letter,
            CommandFault::NoRight => b'g',
            CommandFault::OutputLocked => b'k',
            CommandFault::CannotBeMade => b'f',
        }
    }
}

impl From<PacketFault> for CommandFault {
    ghost from_gives = { λ e r. r ≡ Packet e };

    fn from(e: PacketFault) -> CommandFault {
        CommandFault::Packet(e)
    }
}
