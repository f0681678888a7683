// The unit's ports: their records, lent one at a time. A method for each change of a record: one that takes the change is no plainer,
// since its contract would have to say what the closure leaves in the record.
// What is done at every port is said three times: there are three, each with its name, and a loop over them is no plainer.
ghost use Rattle.std.specs.Prelude.{◌≡◌, true, Some, None};
ghost use Rattle.std.specs.Borrow.{sem, follows};
ghost use Rattle.wire.specs.Kept.{put};
ghost use Rattle.replies.specs.Queues.{queued, most_queued};
ghost use Rattle.packets.specs.Receiver.{idle, hear};
ghost use Rattle.packets.specs.Receiving.{packet_if};
ghost use Rattle.replies.specs.Replies.{SmallChange, changes, FitsContents};
ghost use Rattle.rules.specs.PerPort.{at, each};
ghost use Rattle.rules.specs.State.{port_at, with_ports, with_port, with_receiver, with_login, with_queue, with_mask_flag};
ghost use Rattle.rules.specs.Commands.{cleared};
ghost use Rattle.records.specs.UserNumbers.{is_user_number};
ghost use Rattle.unit.specs.Units.{state_of, with_record};
ghost use Rattle.unit.specs.contracts.state.Unit.{the_row as unit_row};
ghost use Rattle.records.specs.contracts.record.PortRecord.{the_row as record_row};

use crate::state::Unit;
use fabric::Fabric;
use packets::packet::Packet;
use records::record::PortRecord;
use replies::change::{Change, ChangeQueue};
use rules::port::Port;

impl<F: Fabric> Unit<F> {
    // The record of a port, lent to be changed in place.
    fn record(&mut self, port: Port) -> &mut PortRecord
        ensures* follows { sem 𝓛 (follows (unit_row F.row) record_row self.entry.ghost_name result.ghost_name (with_record self.old port)) }
        ensures value { result.now ≡ at self.old.ports port }
    {
        self.ports.of(port)
    }

    // Puts a change into the queue of every port.
    pub(crate) fn note_at_all(&mut self, change: Change)
        requires { SmallChange change }
        ensures { state_of F.meaning self.new ≡ with_ports (each (λ x. with_queue (put most_queued x.queue change) x) (state_of F.meaning self.old).ports) (state_of F.meaning self.old) }
    {
        self.record(Port::One).note(change);
        self.record(Port::Two).note(change);
        self.record(Port::Three).note(change);
    }

    // Raises the mask flag of every port.
    pub(crate) fn flag_all(&mut self)
        ensures { state_of F.meaning self.new ≡ with_ports (each (with_mask_flag true) (state_of F.meaning self.old).ports) (state_of F.meaning self.old) }
    {
        self.record(Port::One).flag();
        self.record(Port::Two).flag();
        self.record(Port::Three).flag();
    }

    // One byte at a port's receiver, and the packet that it ends, if it ends one.
    pub(crate) fn hear(&mut self, port: Port, b: u8) -> Option<Packet>
        ensures answer { packet_if result ≡ (hear (port_at (state_of F.meaning self.old) port).receiver b).packet }
        ensures after { state_of F.meaning self.new ≡ with_port port (with_receiver (hear (port_at (state_of F.meaning self.old) port).receiver b).next (port_at (state_of F.meaning self.old) port)) (state_of F.meaning self.old) }
    {
        self.record(port).hear(b)
    }

    // What came so far is dropped.
    pub(crate) fn drop_bytes(&mut self, port: Port)
        ensures { state_of F.meaning self.new ≡ with_port port (with_receiver idle (port_at (state_of F.meaning self.old) port)) (state_of F.meaning self.old) }
    {
        self.record(port).drop_bytes();
    }

    // The port's login ends, too.
    pub(crate) fn end_login(&mut self, port: Port)
        ensures { state_of F.meaning self.new ≡ with_port port (with_receiver idle (with_login None (port_at (state_of F.meaning self.old) port))) (state_of F.meaning self.old) }
    {
        self.record(port).hang_up();
    }

    // Hands the port's queue out, and clears it with its overrun and the mask flag.
    pub(crate) fn take_queue(&mut self, port: Port) -> ChangeQueue
        ensures answer { queued result ≡ (port_at (state_of F.meaning self.old) port).queue }
        ensures fits { FitsContents (changes (queued result).items) }
        ensures after { state_of F.meaning self.new ≡ with_port port (cleared (port_at (state_of F.meaning self.old) port)) (state_of F.meaning self.old) }
    {
        self.record(port).take_queue()
    }

    // The port is logged in as the user from now on.
    pub(crate) fn begin_login(&mut self, port: Port, user: u8)
        requires { is_user_number (Some user) ≡ true }
        ensures { state_of F.meaning self.new ≡ with_port port (with_login (Some user) (port_at (state_of F.meaning self.old) port)) (state_of F.meaning self.old) }
    {
        self.record(port).log_in(user);
    }
}
