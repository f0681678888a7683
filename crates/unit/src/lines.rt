// The calls of the lines: a byte, a gap, a hang-up. Gap and hang-up stay two, as in the rules: a shared one is no plainer.
ghost use Rattle.std.specs.Prelude.{◌≡◌, length};
ghost use Rattle.wire.specs.Frames.{written};
ghost use Rattle.rules.specs.Calls.{byte, gap, hang_up, step, next, byte_event};
ghost use Rattle.rules.specs.Laws.{KeepsTheLaws};
ghost use Rattle.unit.specs.Units.{state_of};
ghost use Rattle.unit.specs.Calling.{plain_event};

use crate::state::Unit;
use fabric::Fabric;
use rules::port::Port;
use rules::refusal::Refusal;
use wire::reply::MOST_REPLY;

impl<F: Fabric> Unit<F> {
    // One byte at a port. Returns the length of the reply that is written to the front of the buffer, 0 for none.
    pub fn byte(&mut self, port: u8, b: u8, reply: &mut [u8]) -> Result<usize, Refusal>
        ensures answer { result ≡ (step (state_of F.meaning self.old) (byte port b (length reply.old))).answer.result }
        ensures buffer { reply.new ≡ written (step (state_of F.meaning self.old) (byte port b (length reply.old))).answer.reply reply.old }
        ensures after { state_of F.meaning self.new ≡ next (state_of F.meaning self.old) (byte port b (length reply.old)) }
        ensures law { KeepsTheLaws (state_of F.meaning self.old) (byte_event port b result reply.new) (state_of F.meaning self.new) }
    {
        // A buffer has to hold any reply, whatever the packet asks.
        if reply.len() < MOST_REPLY {
            return Err(Refusal::ShortBuffer);
        }
        let port = Port::try_from(port)?;
        // With map_or: tried, and the proof did not close (what a closure leaves in the buffer and in the unit).
        match self.hear(port, b) {
            Some(packet) => Ok(self.answer_packet(port, &packet, reply)),
            None => Ok(0),
        }
    }

    // The line of a port was silent for 200 ms.
    pub fn gap(&mut self, port: u8) -> Result<usize, Refusal>
        ensures answer { result ≡ (step (state_of F.meaning self.old) (gap port)).answer.result }
        ensures after { state_of F.meaning self.new ≡ next (state_of F.meaning self.old) (gap port) }
        ensures law { KeepsTheLaws (state_of F.meaning self.old) (plain_event (gap port) result) (state_of F.meaning self.new) }
    {
        let port = Port::try_from(port)?;
        self.drop_bytes(port);
        Ok(0)
    }

    // The line of a port was hung up: its login ends, and its change queue is kept.
    pub fn hang_up(&mut self, port: u8) -> Result<usize, Refusal>
        ensures answer { result ≡ (step (state_of F.meaning self.old) (hang_up port)).answer.result }
        ensures after { state_of F.meaning self.new ≡ next (state_of F.meaning self.old) (hang_up port) }
        ensures law { KeepsTheLaws (state_of F.meaning self.old) (plain_event (hang_up port) result) (state_of F.meaning self.new) }
    {
        let port = Port::try_from(port)?;
        self.end_login(port);
        Ok(0)
    }
}
