// Examples of packets and replies, byte by byte, and the length of any reply. They need no unit.
#![tactic(auto)]

ghost use Rattle.std.specs.Prelude.{◌≡◌, length};

use wire::reply::{MOST_REPLY, SealedReply};

// The length of any sealed reply, by copying it: a buffer as long as the longest reply always holds it.
pub fn length_of(reply: &SealedReply) -> usize
    ensures { result ≡ length reply.now }
{
    let mut buffer = [0; MOST_REPLY];
    reply.copy_to(&mut buffer).unwrap()
}

#[cfg(test)]
mod tests {
    use packets::address::is_addressed;
    use packets::command::{Command, command_in, decode};
    use packets::packet::Packet;
    use packets::receiver::Receiver;
    use replies::change::{Change, ChangeQueue};
    use replies::reply::{ReadFault, Reply, read_reply, write_reply};
    use std::test::Fail;
    use wire::address::AddressBytes;
    use wire::reply::{CopyFault, Draft, Header};

    // The address bytes of unit 00.
    const UNIT_00: AddressBytes = AddressBytes {
        high: b'0',
        low: b'0',
    };

    // A reply of Q with two entries.
    const TWO_CHANGES: [u8; 19] = *b"\x0600Q2005001006002\x03\x66";

    // The packet that the last of the bytes ends.
    fn packet_of(bytes: &[u8]) -> Option<Packet> {
        let mut receiver = Receiver::new();
        let mut packet = None;
        for b in bytes {
            packet = receiver.hear(*b);
        }
        packet
    }

    #[test]
    fn queue_is_asked_for(rt: HostRuntime) -> Result<(), Fail> {
        let packet = packet_of(&[0x02, 0x30, 0x30, 0x51, 0x03, 0x50]).ok_or("no packet")?;
        let parts = packet.parts().ok_or("no parts")?;
        assert!(rt; is_addressed(0x00, parts.address));
        assert!(rt; matches!(command_in(&packet, parts.body), Ok(Command::ReadQueue)));
        Ok(())
    }

    #[test]
    fn input_of_output_87_is_asked_for(rt: HostRuntime) -> Result<(), Fail> {
        let bytes = [0x02, 0x43, 0x30, 0x4F, 0x30, 0x38, 0x37, 0x03, 0x02];
        let packet = packet_of(&bytes).ok_or("no packet")?;
        let parts = packet.parts().ok_or("no parts")?;
        assert!(rt; is_addressed(0xC0, parts.address));
        let Ok(Command::AskInput { output }) = command_in(&packet, parts.body) else {
            return Err(Fail::new("another command"));
        };
        assert_eq!(rt; output, 87);
        Ok(())
    }

    #[test]
    fn password_is_a_part_of_the_packet(rt: HostRuntime) -> Result<(), Fail> {
        let Ok(Command::UnlockEthernet { password }) = decode(b"ELDQuintech") else {
            return Err(Fail::new("another command"));
        };
        assert_eq!(rt; password, b"Quintech".as_slice());
        Ok(())
    }

    #[test]
    fn status_is_read_back(rt: HostRuntime) -> Result<(), Fail> {
        let address = AddressBytes {
            high: b'C',
            low: b'0',
        };
        let reply = Reply::Status {
            input: 3,
            locked: true,
            mask: 0xA5,
        };
        let sealed = write_reply(address, &reply).map_err(|_| "not written")?;
        let received = read_reply(sealed.as_bytes()).map_err(|_| "not read")?;
        assert_eq!(rt;
            received.address,
            AddressBytes {
                high: b'C',
                low: b'0',
            }
        );
        let Reply::Status {
            input,
            locked,
            mask,
        } = received.reply
        else {
            return Err(Fail::new("another reply"));
        };
        assert_eq!(rt; (input, locked, mask), (3, true, 0xA5));
        Ok(())
    }

    #[test]
    fn two_changes_are_written_and_read(rt: HostRuntime) -> Result<(), Fail> {
        let mut queue = ChangeQueue::new();
        queue.put(Change {
            output: 5,
            input: 1,
        });
        queue.put(Change {
            output: 6,
            input: 2,
        });
        let sealed = write_reply(UNIT_00, &Reply::Changes { queue }).map_err(|_| "not written")?;
        assert_eq!(rt; sealed.as_bytes(), &TWO_CHANGES[..]);
        let received = read_reply(&TWO_CHANGES).map_err(|_| "not read")?;
        let Reply::Changes { queue } = received.reply else {
            return Err(Fail::new("another reply"));
        };
        let [first, second] = queue.as_slice() else {
            return Err(Fail::new("not two changes"));
        };
        assert_eq!(rt;
            *first,
            Change {
                output: 5,
                input: 1
            }
        );
        assert_eq!(rt;
            *second,
            Change {
                output: 6,
                input: 2
            }
        );
        Ok(())
    }

    #[test]
    fn wrong_check_byte_is_refused(rt: HostRuntime) {
        let mut bytes = TWO_CHANGES;
        bytes[18] = 0x67;
        assert_eq!(rt; read_reply(&bytes).err(), Some(ReadFault::WrongCheckByte));
    }

    #[test]
    fn sixtieth_byte_and_short_buffer_are_refused(rt: HostRuntime) -> Result<(), Fail> {
        let mut draft = Draft::new(Header::Ack, UNIT_00);
        draft
            .add_all(&[b'.'; 59])
            .map_err(|_| "59 bytes were refused")?;
        let Err(fault) = draft.add(b'.') else {
            return Err(Fail::new("a sixtieth byte was taken"));
        };
        assert_eq!(rt; fault.number(), 9);
        let sealed = draft.seal();
        assert_eq!(rt; sealed.as_bytes().len(), 64);
        let mut buffer = [0; 63];
        assert_eq!(rt; sealed.copy_to(&mut buffer), Err(CopyFault::ShortBuffer));
        assert_eq!(rt; buffer, [0; 63]);
        Ok(())
    }
}
