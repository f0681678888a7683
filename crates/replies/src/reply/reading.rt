// How a reply is read.
ghost use Rattle.std.specs.Prelude.{◌≡◌, ◌≤◌, false};
ghost use Rattle.wire.specs.Fields.{behind, ended, past, field};
ghost use Rattle.replies.specs.Replies.{acked, read_locked, read_flags, read_keypad, read_input, read_status, read_version, read_model, read_entries, read_changes, read_login, read_logged_in, read_contents, read_letter, read_body, read_reply, OnlyWrittenRepliesAreRead};
ghost use Rattle.replies.specs.Queues.{queued, most_queued};
ghost use Rattle.replies.specs.Replying.{behind_entry, entered, changes_of, reply_of, IsReadAs, reply_result, received, queue_marked, marked, marked_result, received_marked};

use super::writing::flag_byte;
use super::{ReadFault, Received, Reply};
use crate::change::{Change, ChangeQueue, MOST_QUEUED};
use crate::text::ShortText;
use wire::address::AddressBytes;
use wire::control::ETX;
use wire::fields::{read_colon, read_digit, read_hex, read_mark, read_number};
use wire::reply::{Header, check_byte};

// L or U.
fn read_locked(s: &[u8]) -> Option<(bool, &[u8])>
    ensures { field result ≡ read_locked s.now }
{
    match s {
        [b'L', rest @ ..] => Some((true, rest)),
        [b'U', rest @ ..] => Some((false, rest)),
        _ => None,
    }
}

// A reply behind whose letters nothing stands.
fn bare(reply: Reply, rest: &[u8]) -> Option<Reply>
    requires { marked reply ≡ false }
    ensures { IsReadAs result (ended (reply_of reply) rest.now) }
{
    rest.is_empty().then_some(reply)
}

fn read_flags(rest: &[u8]) -> Option<Reply>
    ensures { IsReadAs result (acked (read_flags rest.now)) }
{
    let [byte] = *rest else {
        return None;
    };
    let entries = byte % 2 == 1;
    let mask = byte / 4 % 2 == 1;
    let overrun = byte / 8 % 2 == 1;
    if byte != flag_byte(entries, mask, overrun) {
        return None;
    }
    Some(Reply::Flags {
        entries,
        mask,
        overrun,
    })
}

// Two readers only have one shape: a function over the field and the reply would serve no third, so it is no plainer.
fn read_keypad(rest: &[u8]) -> Option<Reply>
    ensures { IsReadAs result (acked (read_keypad rest.now)) }
{
    let (locked, end) = read_locked(rest)?;
    bare(Reply::KeypadState { locked }, end)
}

fn read_input(rest: &[u8]) -> Option<Reply>
    ensures { IsReadAs result (acked (read_input rest.now)) }
{
    let (input, end) = read_number(rest)?;
    bare(Reply::FeedingInput { input }, end)
}

fn read_status(rest: &[u8]) -> Option<Reply>
    ensures { IsReadAs result (acked (read_status rest.now)) }
{
    let (input, rest) = read_number(rest)?;
    let (locked, rest) = read_locked(rest)?;
    let (mask, end) = read_hex(rest)?;
    bare(
        Reply::Status {
            input,
            locked,
            mask,
        },
        end,
    )
}

fn read_version(rest: &[u8]) -> Option<Reply>
    ensures { IsReadAs result (acked (read_version rest.now)) }
{
    let (inputs, rest) = read_number(rest)?;
    let (outputs, end) = read_number(read_mark(rest, b'X')?)?;
    bare(Reply::Version { inputs, outputs }, end)
}

fn read_login(rest: &[u8]) -> Option<Reply>
    ensures { IsReadAs result (acked (read_login rest.now)) }
{
    let (user, rest) = read_digit(read_colon(rest)?)?;
    let (group, rest) = read_digit(read_colon(rest)?)?;
    let name = ShortText::try_from(read_colon(rest)?).ok()?;
    Some(Reply::Login { user, group, name })
}

fn read_logged_in(rest: &[u8]) -> Option<Reply>
    ensures { IsReadAs result (acked (read_logged_in rest.now)) }
{
    let (user, rest) = read_digit(read_colon(rest)?)?;
    let (group, end) = read_digit(read_colon(rest)?)?;
    bare(Reply::LoggedIn { user, group }, end)
}

// One entry of Q, put behind those before it.
fn read_entry<'a>(queue: &mut ChangeQueue, s: &'a [u8]) -> Option<&'a [u8]>
    ensures answer { behind result ≡ behind_entry s.now }
    ensures after { queued queue.new ≡ entered (queued queue.old) s.now }
{
    let (output, s) = read_number(s)?;
    let (input, s) = read_number(s)?;
    queue.put(Change { output, input });
    Some(s)
}

// As many entries as `n` says, and nothing behind them.
fn read_entries(n: u8, s: &[u8]) -> Option<ChangeQueue>
    requires { n ≤ most_queued }
    ensures answer { changes_of result ≡ read_entries n s.now }
    ensures unmarked { queue_marked result ≡ false }
{
    let mut queue = ChangeQueue::new();
    let mut rest = s;
    // A loop: a chain is no plainer, since each entry is read from where the one before ended, and the queue is changed.
    for _read in 0..n {
        rest = read_entry(&mut queue, rest)?;
    }
    rest.is_empty().then_some(queue)
}

fn read_changes(rest: &[u8]) -> Option<Reply>
    ensures { IsReadAs result (acked (read_changes rest.now)) }
{
    let (n, entries) = read_digit(rest)?;
    if usize::from(n) > MOST_QUEUED {
        return None;
    }
    let queue = read_entries(n, entries)?;
    Some(Reply::Changes { queue })
}

// The version and the model behind the letter of F: only the size behind them is handed back.
fn read_model(s: &[u8]) -> Option<&[u8]>
    ensures { behind result ≡ read_model s.now }
{
    s.strip_prefix(b"v1.00 Pv2.15 XPC1000/")
}

fn read_model_and_size(rest: &[u8]) -> Option<Reply>
    ensures { IsReadAs result (acked (past (read_model rest.now) read_version)) }
{
    read_version(read_model(rest)?)
}

fn read_contents(body: &[u8]) -> Option<Reply>
    ensures { IsReadAs result (read_contents body.now) }
{
    match body {
        [b'K', b'L', rest @ ..] => bare(Reply::KeypadLocked, rest),
        [b'K', b'U', rest @ ..] => bare(Reply::KeypadUnlocked, rest),
        [b'K', b'S', rest @ ..] => read_keypad(rest),
        [b'E', b'L', rest @ ..] => bare(Reply::EthernetChanged, rest),
        [b'O', b'S', rest @ ..] => read_status(rest),
        [b'Z', b'A', rest @ ..] => bare(Reply::MaskSet, rest),
        [b'Z', b'C', rest @ ..] => read_login(rest),
        [b'Z', b'I', rest @ ..] => read_logged_in(rest),
        [b'C', rest @ ..] => read_flags(rest),
        [b'F', rest @ ..] => read_model_and_size(rest),
        [b'L', rest @ ..] => bare(Reply::OutputLocked, rest),
        [b'O', rest @ ..] => read_input(rest),
        [b'Q', rest @ ..] => read_changes(rest),
        [b'S', rest @ ..] => bare(Reply::OutputSet, rest),
        [b'U', rest @ ..] => bare(Reply::OutputUnlocked, rest),
        _ => None,
    }
}

fn read_letter(body: &[u8]) -> Option<Reply>
    ensures { IsReadAs result (read_letter body.now) }
{
    let [letter] = *body else {
        return None;
    };
    Some(Reply::Refused { letter })
}

fn read_body(header: u8, body: &[u8]) -> Result<Reply, ReadFault>
    ensures answer { reply_result result ≡ read_body header body.now }
    ensures unmarked { marked_result result ≡ false }
{
    let header = Header::try_from(header).map_err(|_| ReadFault::NoHeader)?;
    let reply = match header {
        Header::Ack => read_contents(body),
        Header::Nak => read_letter(body),
    };
    reply.ok_or(ReadFault::NoContents)
}

// Reads a whole reply, from its header to its check byte.
pub fn read_reply(bytes: &[u8]) -> Result<Received, ReadFault>
    ensures answer { received result ≡ read_reply bytes.now }
    ensures unmarked { received_marked result ≡ false }
    ensures law { OnlyWrittenRepliesAreRead bytes.now }
{
    let [header, high, low, body @ .., etx, check] = bytes else {
        return Err(ReadFault::TooShort);
    };
    if *etx != ETX {
        return Err(ReadFault::NoEtx);
    }
    if *check != check_byte(&bytes[..bytes.len() - 1]) {
        return Err(ReadFault::WrongCheckByte);
    }
    let address = AddressBytes {
        high: *high,
        low: *low,
    };
    let reply = read_body(*header, body)?;
    Ok(Received { address, reply })
}
