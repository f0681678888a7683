// Replies: a draft takes body bytes, sealing ends it, and only a sealed reply can be copied out.
ghost use Rattle.std.specs.Prelude.{◌≡◌, ℕ, ◌≤◌, List, [], ◌∷◌, length, take, drop, slice_index};
ghost use Rattle.wire.specs.Frames.{Frame, most_body, check_byte, added, on_line, copied, WholeReplySumsToZero};

use crate::address::AddressBytes;
use crate::control::ETX;
use std::marker::Model;

// Header and address.
const FRONT: usize = 3;

const MOST_BODY: usize = 59;

// How many bytes a reply has at the most.
pub const MOST_REPLY: usize = 64;

// The first byte of a reply.
#[derive(Clone, Copy, PartialEq, Eq, Debug)]
pub enum Header {
    // The command was accepted.
    Ack = 0x06,
    // The command was refused.
    Nak = 0x15,
}

// A byte that is no header.
#[derive(Clone, Copy, PartialEq, Eq, Debug)]
pub struct UnknownHeader {
    pub byte: u8,
}

impl From<Header> for u8 {
    ghost use Rattle.wire.specs.Drafts.{header_byte};

    ghost from_gives = { λ h b. b ≡ header_byte h };

    fn from(header: Header) -> u8 {
        header as u8
    }
}

impl TryFrom<u8> for Header {
    ghost use Rattle.wire.specs.Drafts.{header_of_byte};

    type Error = UnknownHeader;

    ghost try_from_gives = { λ b r. r ≡ header_of_byte b };

    fn try_from(byte: u8) -> Result<Header, UnknownHeader> {
        match byte {
            0x06 => Ok(Header::Ack),
            0x15 => Ok(Header::Nak),
            _ => Err(UnknownHeader { byte }),
        }
    }
}

// Why a draft took no byte, with the number by which the refusal is known.
#[derive(Clone, Copy, PartialEq, Eq, Debug)]
pub enum DraftFault {
    // The body would have a sixtieth byte.
    BodyFull = 9,
}

impl DraftFault {
    ghost use Rattle.wire.specs.Drafts.{fault_number};

    // The number by which the refusal is known.
    // A method: callers are told the number and need no conversion back, so `From` is no plainer.
    pub fn number(self) -> u8
        ensures { result ≡ fault_number self }
    {
        self as u8
    }
}

// Why a reply was not copied.
#[derive(Clone, Copy, PartialEq, Eq, Debug)]
pub enum CopyFault {
    // The buffer is shorter than the reply.
    ShortBuffer,
}

// A reply that is being made: the header, the address and the first `used` bytes of the body.
// No `KeptList` of bytes: a draft takes all of some bytes or none of them, and so has no mark to keep.
#[derive(Drop)]
pub struct Draft {
    cells: [u8; MOST_REPLY],
    used: usize,
}

// Clauses see header, address and body.
impl Model for Draft {
    ghost Value = { Frame };

    ghost view = { λ d. record { header = slice_index d.cells 0; high = slice_index d.cells 1; low = slice_index d.cells 2; body = take d.used (drop 3 d.cells) } };

    ghost invariant = { λ d. d.used ≤ 59 };
}

impl Draft {
    ghost use Rattle.wire.specs.Drafts.{header_byte, add_answer};

    // A draft with an empty body.
    pub fn new(header: Header, address: AddressBytes) -> Draft
        ensures { result ≡ record { header = header_byte header; high = address.high; low = address.low; body = [] } }
    {
        let mut cells = [0; MOST_REPLY];
        cells[0] = header.into();
        cells[1] = address.high;
        cells[2] = address.low;
        Draft { cells, used: 0 }
    }

    // Adds one byte to the body.
    pub fn add(&mut self, b: u8) -> Result<(), DraftFault>
        ensures answer { result ≡ add_answer self.old (b ∷ []) }
        ensures after { self.new ≡ added self.old (b ∷ []) }
        ensures before { length self.old.body ≤ most_body }
        ensures few { length self.new.body ≤ most_body }
    {
        self.add_all(&[b])
    }

    // Adds all of `bytes` to the body, or none of them.
    pub fn add_all(&mut self, bytes: &[u8]) -> Result<(), DraftFault>
        ensures answer { result ≡ add_answer self.old bytes.now }
        ensures after { self.new ≡ added self.old bytes.now }
        ensures before { length self.old.body ≤ most_body }
        ensures few { length self.new.body ≤ most_body }
    {
        let used = self.used;
        let n = bytes.len();
        if n > MOST_BODY - used {
            return Err(DraftFault::BodyFull);
        }
        let start = FRONT + used;
        self.cells[start..start + n].copy_from_slice(bytes);
        self.used = used + n;
        Ok(())
    }

    // Ends the draft with ETX and the check byte.
    pub fn seal(self) -> SealedReply
        ensures value { result ≡ on_line self }
        ensures few { length result ≤ 64 }
    {
        let Draft { mut cells, used } = self;
        let end = FRONT + used;
        cells[end] = ETX;
        let check = check_byte(&cells[..=end]);
        cells[end + 1] = check;
        SealedReply {
            cells,
            used: end + 2,
        }
    }
}

// A reply that is ready to be sent.
// No `KeptList` of bytes: it would keep a mark that a reply cannot have.
#[derive(Drop)]
pub struct SealedReply {
    cells: [u8; MOST_REPLY],
    used: usize,
}

// Clauses see the bytes of the reply.
impl Model for SealedReply {
    ghost Value = { List ℕ };

    ghost view = { λ r. take r.used r.cells };

    ghost invariant = { λ r. r.used ≤ 64 };
}

impl SealedReply {
    ghost use Rattle.wire.specs.Drafts.{copy_answer};

    pub fn as_bytes(&self) -> &[u8]
        ensures value { result.now ≡ self.now }
        ensures few { length result.now ≤ 64 }
    {
        &self.cells[..self.used]
    }

    // Copies the reply to the front of `out`, if it fits, and returns its length.
    pub fn copy_to(&self, out: &mut [u8]) -> Result<usize, CopyFault>
        ensures answer { result ≡ copy_answer self.now out.old }
        ensures after { out.new ≡ copied self.now out.old }
        ensures few { length self.now ≤ 64 }
    {
        let bytes = self.as_bytes();
        let n = bytes.len();
        if out.len() < n {
            return Err(CopyFault::ShortBuffer);
        }
        out[..n].copy_from_slice(bytes);
        Ok(n)
    }
}

// The exclusive or of every byte. A `for` loop and no `fold`: docs/DECISIONS.md fixes this form at sealing.
pub fn check_byte(bytes: &[u8]) -> u8
    ensures { result ≡ check_byte bytes.now }
{
    let mut check = 0;
    for b in bytes {
        check ^= *b;
    }
    check
}

// The law of check bytes, by which a whole reply can be tested in one go.
pub fn whole_reply_sums_to_zero()
    ensures { WholeReplySumsToZero }
{}
