// The receiver of a line: STX starts a packet, ETX ends its bytes, and the next byte is its check byte.
ghost use Rattle.std.specs.Prelude.{◌≡◌};
ghost use Rattle.packets.specs.Receiver.{idle, hear};
ghost use Rattle.packets.specs.Runs.{PacketsAreFramed, CheckByteComesFirst, NoPacketWithoutSTX, ListedBytesArePlain};

use crate::packet::{Packet, PacketBytes};
use wire::control::{ETX, STX};

// The list holds the bytes so far, and the check is the exclusive or of all bytes since STX.
#[derive(Clone, Copy)]
enum Phase {
    // Between packets.
    Idle,
    // Between STX and ETX.
    Collecting { list: PacketBytes, check: u8 },
    // Behind ETX.
    Awaiting { list: PacketBytes, check: u8 },
}

// No `impl Model`: a model of a `Copy` type has to give back all fields (`inverse`), which is no plainer.
#[derive(Clone, Copy)]
pub struct Receiver {
    phase: Phase,
}

// Between packets.
impl Default for Receiver {
    ghost use Rattle.packets.specs.Receiving.{receiver};

    ghost is_default = { λ r. receiver r ≡ idle };

    fn default() -> Self {
        Receiver::new()
    }
}

impl Receiver {
    ghost use Rattle.packets.specs.Receiving.{receiver, packet_if};

    pub fn new() -> Receiver
        ensures { receiver result ≡ idle }
    {
        Receiver { phase: Phase::Idle }
    }

    // One byte from the line, and the packet that it ends, if it ends one.
    pub fn hear(&mut self, b: u8) -> Option<Packet>
        ensures after { receiver self.new ≡ (hear (receiver self.old) b).next }
        ensures answer { packet_if result ≡ (hear (receiver self.old) b).packet }
    {
        match (&mut self.phase, b) {
            (Phase::Idle | Phase::Collecting { .. }, STX) => {
                self.phase = Phase::Collecting {
                    list: PacketBytes::new(),
                    check: STX,
                };
                None
            }
            (Phase::Idle, _) => None,
            (Phase::Collecting { list, check }, ETX) => {
                self.phase = Phase::Awaiting {
                    list: *list,
                    check: *check ^ ETX,
                };
                None
            }
            (Phase::Collecting { list, check }, b) => {
                list.put(b);
                *check ^= b;
                None
            }
            (Phase::Awaiting { list, check }, b) => {
                let packet = Packet {
                    list: *list,
                    right: b == *check,
                };
                self.phase = Phase::Idle;
                Some(packet)
            }
        }
    }

    // The line was silent for 200 ms, or was hung up: what came so far is dropped.
    pub fn reset(&mut self)
        ensures { receiver self.new ≡ idle }
    {
        self.phase = Phase::Idle;
    }
}

// What a receiver makes of many bytes.
pub fn packets_are_framed()
    ensures one { PacketsAreFramed }
    ensures check { CheckByteComesFirst }
    ensures none { NoPacketWithoutSTX }
    ensures plain { ListedBytesArePlain }
{}
