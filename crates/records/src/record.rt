// What the unit keeps for a port.
ghost use Rattle.std.specs.Prelude.{◌≡◌, true, length, None, nat_le};
ghost use Rattle.replies.specs.Queues.{queued};
ghost use Rattle.replies.specs.Replies.{all_small, changes, FitsContents, small_change};
ghost use Rattle.packets.specs.Receiver.{idle, hear};
ghost use Rattle.packets.specs.Receiving.{packet_if, receiver as receiver_state};
ghost use Rattle.rules.specs.State.{PortState, new_port, with_mask_flag, with_login, with_receiver};
ghost use Rattle.rules.specs.Commands.{cleared};
ghost use Rattle.records.specs.UserNumbers.{is_user_number};
ghost use Rattle.records.specs.Records.{noted, logged_in};

use crate::MOST_USERS;
use packets::packet::Packet;
use packets::receiver::Receiver;
use replies::change::{Change, ChangeQueue};
use std::marker::Model;
use std::mem;

#[derive(Drop)]
pub struct PortRecord {
    receiver: Receiver,
    queue: ChangeQueue,
    mask_flag: bool,
    login: Option<u8>,
}

// A record is seen as the rules' state of a port.
impl Model for PortRecord {
    ghost Value = { PortState };

    ghost view = { λ r. record { receiver = receiver_state r.receiver; queue = queued r.queue; mask_flag = r.mask_flag; login = r.login } };

    // So that each reply that is made of a record can be written.
    ghost invariant = { λ r. (all_small (queued r.queue).items ≡ true) × (is_user_number r.login ≡ true) };
}

// Whether the numbers of a change have three digits.
fn is_small(change: Change) -> bool
    ensures { result ≡ small_change change }
{
    change.output < 1000 && change.input < 1000
}

impl PortRecord {
    // As service starts.
    pub fn new() -> PortRecord
        ensures { result ≡ new_port }
    {
        PortRecord {
            receiver: Receiver::new(),
            queue: ChangeQueue::new(),
            mask_flag: false,
            login: None,
        }
    }

    // One byte from the line, and the packet that it ends, if it ends one.
    pub fn hear(&mut self, b: u8) -> Option<Packet>
        ensures answer { packet_if result ≡ (hear self.old.receiver b).packet }
        ensures after { self.new ≡ with_receiver (hear self.old.receiver b).next self.old }
    {
        self.receiver.hear(b)
    }

    // Drops what the line brought so far.
    pub fn drop_bytes(&mut self)
        ensures { self.new ≡ with_receiver idle self.old }
    {
        self.receiver.reset();
    }

    // Puts a change into the queue, unless a reply has no room for its numbers.
    pub fn note(&mut self, change: Change)
        ensures { self.new ≡ noted change self.old }
    {
        if is_small(change) {
            self.queue.put(change);
        }
    }

    // Raises the mask flag.
    pub fn flag(&mut self)
        ensures { self.new ≡ with_mask_flag true self.old }
    {
        self.mask_flag = true;
    }

    // Hands the queue out, and clears it with its overrun and the mask flag.
    pub fn take_queue(&mut self) -> ChangeQueue
        ensures answer { queued result ≡ self.old.queue }
        ensures fits { FitsContents (changes (queued result).items) }
        ensures after { self.new ≡ cleared self.old }
    {
        self.mask_flag = false;
        mem::replace(&mut self.queue, ChangeQueue::new())
    }

    // Outside 1 to 8 there is no user to log in.
    pub fn log_in(&mut self, user: u8)
        ensures { self.new ≡ logged_in user self.old }
    {
        if (1..=MOST_USERS).contains(&user) {
            self.login = Some(user);
        }
    }

    // Ends the login, and drops what the line brought so far. The queue and the flags are kept.
    pub fn hang_up(&mut self)
        ensures { self.new ≡ with_receiver idle (with_login None self.old) }
    {
        self.receiver.reset();
        self.login = None;
    }

    pub fn has_entries(&self) -> bool
        ensures { result ≡ nat_le 1 (length self.now.queue.items) }
    {
        !self.queue.as_slice().is_empty()
    }

    pub fn is_overrun(&self) -> bool
        ensures { result ≡ self.now.queue.overrun }
    {
        self.queue.is_overrun()
    }

    pub fn is_flagged(&self) -> bool
        ensures { result ≡ self.now.mask_flag }
    {
        self.mask_flag
    }

    pub fn login(&self) -> Option<u8>
        ensures answer { result ≡ self.now.login }
        ensures user { is_user_number result ≡ true }
    {
        self.login
    }
}
