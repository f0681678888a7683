// A session: pairs of a port and a byte as calls, and the lines of their replies.
ghost use Rattle.std.specs.Prelude.{◌≡◌, [], ◌∷◌, map};
ghost use Rattle.std.specs.Option.{option_map};
ghost use Rattle.calls.specs.Listed.{shown, events};
ghost use Rattle.bench.specs.Memory.{UnlessOutOfMemory};
ghost use Rattle.bench.specs.Sessions.{pair_call, calls_of, not_made, lines_of, printed_for, WorkedPrint};

use crate::line::reply_line;
use calls::{Call, ListedCall, serve};
use fabric::Card;
use rules::port::Port;
use std::alloc::{AllocError, Global};
use wire::reply::MOST_REPLY;

// The length of a byte call's buffer: the shortest that the unit takes.
const ROOM: usize = MOST_REPLY;

// The call of a pair: 01 to 03 are a byte at port 1 to 3, 11 to 13 are 200 ms of silence there. Other pairs are none.
fn call_in(heap: Global, first: u8, byte: u8) -> Result<Option<ListedCall>, AllocError>
    ensures { UnlessOutOfMemory result (λ x. option_map shown x ≡ option_map not_made (pair_call first byte)) }
{
    match first {
        0x01..=0x03 => Ok(Some(ListedCall {
            call: Call::Byte {
                port: first,
                byte,
                reply: vec![in heap; 0; ROOM]?,
            },
            answer: None,
        })),
        0x11..=0x13 => Ok(Some(ListedCall {
            call: Call::Gap { port: first - 0x10 },
            answer: None,
        })),
        _ => Ok(None),
    }
}

// The calls of all pairs; an odd last byte is dropped.
pub fn calls_in(heap: Global, input: &[u8]) -> Result<Vec<ListedCall>, AllocError>
    ensures { UnlessOutOfMemory result (λ v. map shown v.items ≡ map not_made (calls_of input.now)) }
{
    let mut calls = Vec::new(heap);
    let (pairs, _) = input.as_chunks::<2>();
    for &[first, byte] in pairs {
        if let Some(call) = call_in(heap, first, byte)? {
            calls.push(call)?;
        }
    }
    Ok(calls)
}

// The line of a call that brought a reply; else nothing.
fn line_of(heap: Global, listed: &ListedCall) -> Result<Vec<u8>, AllocError>
    ensures { UnlessOutOfMemory result (λ v. v.items ≡ lines_of (events (listed.now ∷ []))) }
{
    if let Call::Byte { port, reply, .. } = &listed.call
        && let Some(Ok(length)) = listed.answer
        && let Ok(port) = Port::try_from(*port)
    {
        let reply = &reply[..length.min(reply.len())];
        if !reply.is_empty() {
            return reply_line(heap, port, reply);
        }
    }
    Ok(Vec::new(heap))
}

// The lines of all replies, in the order of the calls.
pub fn lines(heap: Global, calls: &[ListedCall]) -> Result<Vec<u8>, AllocError>
    ensures { UnlessOutOfMemory result (λ v. v.items ≡ lines_of (events calls.now)) }
{
    let mut output = Vec::new(heap);
    for listed in calls {
        let line = line_of(heap, listed)?;
        output.extend_from_slice(&line)?;
    }
    Ok(output)
}

// All that is printed for the input: its calls are made to a unit at address 00 over a card of eight by eight, with access control off.
pub fn printed(heap: Global, input: &[u8]) -> Result<Vec<u8>, AllocError>
    ensures bytes { UnlessOutOfMemory result (λ v. v.items ≡ printed_for input.now) }
    ensures law { WorkedPrint }
{
    let mut calls = calls_in(heap, input)?;
    let _unit = serve(Card::new(8, 8), 0x00, false, &mut calls);
    lines(heap, &calls)
}
