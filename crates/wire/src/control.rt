// The control characters that frame packets and replies.

// Starts a packet.
pub const STX: u8 = 0x02;

// Ends the bytes of a packet or a reply; its check byte follows.
pub const ETX: u8 = 0x03;
