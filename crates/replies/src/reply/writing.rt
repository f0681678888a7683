// How a reply is written.
ghost use Rattle.std.specs.Prelude.{◌≡◌, ◌+◌, ◌≤◌, ◌&&◌, ◌∷◌, ◌++◌, length, if◌then◌else◌, Some, None, nat_lt};
ghost use Rattle.wire.specs.Fields.{three_digits};
ghost use Rattle.wire.specs.Drafts.{header_byte};
ghost use Rattle.wire.specs.declared.reply.Header.TheVariants.{Ack};
ghost use Rattle.wire.specs.Frames.{on_line, most_body};
ghost use Rattle.replies.specs.Queues.{queued, text};
ghost use Rattle.replies.specs.Replies.{ack, version, feeding_input, status, changes, login, logged_in, flag_byte, locked_letter, TestTellsWhatFits, RepliesAreShort, ReplyReadsBack};
ghost use Rattle.replies.specs.Replying.{reply_of, written_if, write_answer};

use super::{Reply, WriteFault};
use crate::change::{Change, ChangeQueue};
use crate::text::ShortText;
use wire::address::AddressBytes;
use wire::fields::{one_digit, three_digits, two_hex};
use wire::reply::{Draft, Header, SealedReply};

// A reply whose body is `front` and then `back`.
fn sealed_reply(header: Header, address: AddressBytes, front: &[u8], back: &[u8]) -> SealedReply
    requires { length front.now + length back.now ≤ most_body }
    ensures { result ≡ on_line (record { header = header_byte header; high = address.high; low = address.low; body = front.now ++ back.now }) }
{
    let mut draft = Draft::new(header, address);
    draft.add_all(front).unwrap();
    draft.add_all(back).unwrap();
    draft.seal()
}

pub(super) fn flag_byte(entries: bool, mask: bool, overrun: bool) -> u8
    ensures { result ≡ flag_byte entries mask overrun }
{
    128 + u8::from(entries) + 4 * u8::from(mask) + 8 * u8::from(overrun)
}

// No type of its own with `From` and `TryFrom`: it would be made only to be taken apart again, which is no plainer.
fn locked_letter(locked: bool) -> u8
    ensures { result ≡ locked_letter locked }
{
    if locked { b'L' } else { b'U' }
}

// Inputs and outputs with an X between. Two numbers: a struct is no plainer, since a reply may hold any two.
fn size_digits(inputs: u16, outputs: u16) -> Option<[u8; 7]>
    ensures { result ≡ (if nat_lt inputs 1000 && nat_lt outputs 1000 then Some (three_digits inputs ++ 0x58 ∷ three_digits outputs) else None) }
{
    let [a, b, c] = three_digits(inputs)?;
    let [d, e, f] = three_digits(outputs)?;
    Some([a, b, c, b'X', d, e, f])
}

fn write_version(address: AddressBytes, inputs: u16, outputs: u16) -> Option<SealedReply>
    ensures { result ≡ written_if address.high address.low (ack (version inputs outputs)) }
{
    let size = size_digits(inputs, outputs)?;
    Some(sealed_reply(Header::Ack, address, b"Fv1.00 Pv2.15 XPC1000/", &size))
}

fn write_input(address: AddressBytes, input: u16) -> Option<SealedReply>
    ensures { result ≡ written_if address.high address.low (ack (feeding_input input)) }
{
    let [a, b, c] = three_digits(input)?;
    Some(sealed_reply(Header::Ack, address, b"O", &[a, b, c]))
}

fn write_status(address: AddressBytes, input: u16, locked: bool, mask: u8) -> Option<SealedReply>
    ensures { result ≡ written_if address.high address.low (ack (status input locked mask)) }
{
    let [a, b, c] = three_digits(input)?;
    let [d, e] = two_hex(mask);
    let fields = [a, b, c, locked_letter(locked), d, e];
    Some(sealed_reply(Header::Ack, address, b"OS", &fields))
}

fn write_logged_in(address: AddressBytes, user: u8, group: u8) -> Option<SealedReply>
    ensures { result ≡ written_if address.high address.low (ack (logged_in user group)) }
{
    let [u] = one_digit(user)?;
    let [g] = one_digit(group)?;
    Some(sealed_reply(Header::Ack, address, b"ZI:", &[u, b':', g]))
}

fn write_login(address: AddressBytes, user: u8, group: u8, name: &ShortText) -> Option<SealedReply>
    ensures { result ≡ written_if address.high address.low (ack (login user group (text name.now))) }
{
    let [u] = one_digit(user)?;
    let [g] = one_digit(group)?;
    let front = [b'Z', b'C', b':', u, b':', g, b':'];
    Some(sealed_reply(Header::Ack, address, &front, name.as_slice()))
}

// Output and input of a change, three digits each.
// Not one function with `size_digits`: arrays of six and of seven bytes from one pattern, with or without an X, would be no plainer.
fn change_digits(change: Change) -> Option<[u8; 6]>
    ensures { result ≡ (if nat_lt change.output 1000 && nat_lt change.input 1000 then Some (three_digits change.output ++ three_digits change.input) else None) }
{
    let [a, b, c] = three_digits(change.output)?;
    let [d, e, f] = three_digits(change.input)?;
    Some([a, b, c, d, e, f])
}

fn write_changes(address: AddressBytes, queue: &ChangeQueue) -> Option<SealedReply>
    ensures { result ≡ written_if address.high address.low (ack (changes (queued queue.now).items)) }
{
    let changes = queue.as_slice();
    let mut draft = Draft::new(Header::Ack, address);
    draft.add_all(&[b'Q', b'0' + changes.len() as u8]).unwrap();
    for change in changes {
        let digits = change_digits(*change)?;
        draft.add_all(&digits).unwrap();
    }
    Some(draft.seal())
}

fn write_bare(address: AddressBytes, body: &[u8]) -> Option<SealedReply>
    requires { length body.now ≤ most_body }
    ensures { result ≡ Some (on_line (record { header = header_byte Ack; high = address.high; low = address.low; body = body.now })) }
{
    Some(sealed_reply(Header::Ack, address, body, b""))
}

// Writes the reply with these address bytes. One match on the replies: a table of functions is no plainer, since each has fields of its own.
pub fn write_reply(address: AddressBytes, reply: &Reply) -> Result<SealedReply, WriteFault>
    ensures answer { result ≡ write_answer address.high address.low (reply_of reply.now) }
    ensures test { TestTellsWhatFits (reply_of reply.now) }
    ensures short { RepliesAreShort (reply_of reply.now) }
    ensures law { ReplyReadsBack address.high address.low (reply_of reply.now) }
{
    let sealed = match reply {
        Reply::Flags {
            entries,
            mask,
            overrun,
        } => write_bare(address, &[b'C', flag_byte(*entries, *mask, *overrun)]),
        Reply::Version { inputs, outputs } => write_version(address, *inputs, *outputs),
        Reply::KeypadLocked => write_bare(address, b"KL"),
        Reply::KeypadState { locked } => write_bare(address, &[b'K', b'S', locked_letter(*locked)]),
        Reply::KeypadUnlocked => write_bare(address, b"KU"),
        Reply::OutputLocked => write_bare(address, b"L"),
        Reply::FeedingInput { input } => write_input(address, *input),
        Reply::Status {
            input,
            locked,
            mask,
        } => write_status(address, *input, *locked, *mask),
        Reply::Changes { queue } => write_changes(address, queue),
        Reply::OutputSet => write_bare(address, b"S"),
        Reply::OutputUnlocked => write_bare(address, b"U"),
        Reply::EthernetChanged => write_bare(address, b"EL"),
        Reply::MaskSet => write_bare(address, b"ZA"),
        Reply::Login { user, group, name } => write_login(address, *user, *group, name),
        Reply::LoggedIn { user, group } => write_logged_in(address, *user, *group),
        Reply::Refused { letter } => Some(sealed_reply(Header::Nak, address, &[*letter], b"")),
    };
    sealed.ok_or(WriteFault::NumberTooLarge)
}
