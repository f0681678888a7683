// The address of a packet or a reply.

// The two address bytes as they stand on the line.
#[derive(Clone, Copy, PartialEq, Eq, Debug)]
pub struct AddressBytes {
    pub high: u8,
    pub low: u8,
}
