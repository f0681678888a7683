// A packet as it came over a line.
ghost use Rattle.std.specs.Prelude.{◌≡◌};
ghost use Rattle.packets.specs.Address.{parts};

use wire::address::AddressBytes;
use wire::list::KeptList;

// How many bytes of a packet are listed.
pub const MOST_LISTED: usize = 29;

// The bytes between STX and ETX: the first 29, and whether one more came.
pub type PacketBytes = KeptList<u8, MOST_LISTED>;

// What came between STX and ETX, and whether the check byte was right.
// A flag: a `Result` is no plainer, since whom a packet addresses is read whether or not its check byte was right.
// No `impl Model`: a model of a `Copy` type has to give back all fields (`inverse`), which is no plainer.
#[derive(Clone, Copy)]
pub struct Packet {
    pub(crate) list: PacketBytes,
    pub(crate) right: bool,
}

// The two address bytes and the body of a packet.
#[derive(Clone, Copy)]
pub struct Parts<'a> {
    pub address: AddressBytes,
    pub body: &'a [u8],
}

impl Packet {
    ghost use Rattle.packets.specs.Receiving.{packet, parts_if};

    // Whether the check byte was right.
    pub fn is_right(&self) -> bool
        ensures { result ≡ (packet self.now).right }
    {
        self.right
    }

    // Whether there were more bytes than are listed.
    pub fn is_overrun(&self) -> bool
        ensures { result ≡ (packet self.now).listed.overrun }
    {
        self.list.is_overrun()
    }

    // The address bytes and the body; nothing where fewer than two bytes were listed.
    pub fn parts(&self) -> Option<Parts<'_>>
        ensures { parts_if result ≡ parts (packet self.now).listed.items }
    {
        match self.list.as_slice() {
            [high, low, body @ ..] => Some(Parts {
                address: AddressBytes {
                    high: *high,
                    low: *low,
                },
                body,
            }),
            _ => None,
        }
    }
}

// Why an addressed packet is no command, in the order in which it is judged.
#[derive(Clone, Copy, Debug, PartialEq, Eq)]
pub enum PacketFault {
    // The check byte is not the exclusive or of the bytes before it.
    WrongCheckByte,
    // There are more bytes than are listed.
    ListOverrun,
    // The body begins with the letters of no command.
    Unlisted,
    // The amount of data is wrong, or another byte stands where a digit or colon belongs.
    WrongData,
}

impl PacketFault {
    ghost use Rattle.packets.specs.Commands.{fault_letter};

    // The letter that is sent back.
    // A method: `From` is no plainer, since the letter i stands for two faults and so is no other form of one.
    pub fn letter(self) -> u8
        ensures { result ≡ fault_letter self }
    {
        match self {
            PacketFault::WrongCheckByte => b'x',
            PacketFault::ListOverrun => b'i',
            PacketFault::Unlisted => b'c',
            PacketFault::WrongData => b'i',
        }
    }
}
