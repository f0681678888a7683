// What a reply says.
use crate::change::ChangeQueue;
use crate::text::ShortText;
use wire::address::AddressBytes;

mod reading;
mod writing;

pub use reading::read_reply;
pub use writing::write_reply;

// The answer to an accepted command, or the letter of a refusal.
#[derive(Clone, Copy)]
pub enum Reply {
    // C
    Flags {
        entries: bool,
        mask: bool,
        overrun: bool,
    },
    // F
    Version {
        inputs: u16,
        outputs: u16,
    },
    // KL
    KeypadLocked,
    // KS
    KeypadState {
        locked: bool,
    },
    // KU
    KeypadUnlocked,
    // L
    OutputLocked,
    // O
    FeedingInput {
        input: u16,
    },
    // OS
    Status {
        input: u16,
        locked: bool,
        mask: u8,
    },
    // Q
    Changes {
        queue: ChangeQueue,
    },
    // S
    OutputSet,
    // U
    OutputUnlocked,
    // EL
    EthernetChanged,
    // ZA
    MaskSet,
    // ZC. Nobody is user 0, and no `None`: the protocol has two digits there, and a reader takes any.
    Login {
        user: u8,
        group: u8,
        name: ShortText,
    },
    // ZI
    LoggedIn {
        user: u8,
        group: u8,
    },
    // NAK with its letter
    Refused {
        letter: u8,
    },
}

// Why a reply was not written.
#[derive(Clone, Copy, PartialEq, Eq, Debug)]
pub enum WriteFault {
    // A number has more digits than its place has.
    NumberTooLarge,
}

// Why bytes are no reply, in the order in which they are judged.
#[derive(Clone, Copy, PartialEq, Eq, Debug)]
pub enum ReadFault {
    // There are fewer bytes than header, address, ETX and check byte.
    TooShort,
    // The last byte but one is not ETX.
    NoEtx,
    // The last byte is not the exclusive or of those before it.
    WrongCheckByte,
    // The first byte is neither ACK nor NAK.
    NoHeader,
    // The body is none that a command is answered with.
    NoContents,
}

// A reply, with the address bytes that it carries.
#[derive(Clone, Copy)]
pub struct Received {
    pub address: AddressBytes,
    pub reply: Reply,
}
