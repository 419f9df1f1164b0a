// The receiving half of an end: the packets that wait to be taken, their room, and what it owes to the other end.
// Assumes nothing: every function takes all values.
#![tactic(auto)]

ghost use Rattle.std.specs.Prelude.{◌≡◌, map, take};
ghost use Rattle.setup.specs.Setup.{per_end};
ghost use Rattle.receiver.specs.Receiver.{room_for, start_of, inbox_at, room_at, nak_of, ack_of, after_accepted, ack_unless_nak, after_duplicate, after_gap, cleared, first_marked, channel_in, category_in, update_frame, told, refreshed};

use counters::{Counts, Seq, Wrapped};
use credits::Room;
use frames::{Frame, Message};
use packets::Category;
use setup::{CHANNELS, PER_END, Setup, Units};
use std::array;
use store::Packets;

// What is owed to the other end.
#[derive(Clone, Copy)]
pub enum Owed {
    Nothing,
    Ack,
    Nak,
}

// The number to be received next, the nak-sent flag and what is owed.
#[derive(Clone, Copy)]
pub struct Reply {
    pub next_receive: Seq,
    pub nak_sent: bool,
    pub owed: Owed,
}

// `inboxes` are the receive buffers by channel, each in the order of arrival; `rooms` at 3 * channel + category.
#[derive(Clone, Copy)]
pub struct Receiver {
    pub inboxes: [Packets; CHANNELS],
    pub rooms: [Room; PER_END],
    pub reply: Reply,
}

fn room_for(u: Units) -> Room
    ensures { result ≡ room_for u }
{
    Room::start(credits::advertised(u.header, u.payload))
}

// A room for each category of each channel of this end.
fn rooms_for(link: Setup) -> [Room; PER_END]
    ensures { result ≡ map room_for (take per_end link.units) }
{
    array::from_fn(|slot| room_for(link.units[slot]))
}

fn ack_unless_nak(owed: Owed) -> Owed
    ensures { result ≡ ack_unless_nak owed }
{
    match owed {
        Owed::Nothing => Owed::Ack,
        Owed::Ack => Owed::Ack,
        Owed::Nak => Owed::Nak,
    }
}

impl Reply {
    // An owed Nak. One function for this and for an owed Ack would take the state and the message, and be no shorter.
    pub fn nak(self) -> Option<Frame>
        ensures { result ≡ nak_of self }
    {
        match self.owed {
            Owed::Nak => Some(Frame::Message(Message::Nak(self.next_receive.previous()))),
            Owed::Ack | Owed::Nothing => None,
        }
    }

    // An owed Ack.
    pub fn ack(self) -> Option<Frame>
        ensures { result ≡ ack_of self }
    {
        match self.owed {
            Owed::Ack => Some(Frame::Message(Message::Ack(self.next_receive.previous()))),
            Owed::Nak | Owed::Nothing => None,
        }
    }

    pub fn after_accepted(self) -> Reply
        ensures { result ≡ after_accepted self }
    {
        Reply {
            next_receive: self.next_receive.next(),
            nak_sent: false,
            owed: Owed::Ack,
        }
    }

    pub fn after_duplicate(self) -> Reply
        ensures { result ≡ after_duplicate self }
    {
        Reply {
            owed: ack_unless_nak(self.owed),
            ..self
        }
    }

    // After a packet out of order or damaged.
    pub fn after_gap(self) -> Reply
        ensures { result ≡ after_gap self }
    {
        if self.nak_sent {
            return self;
        }
        Reply {
            nak_sent: true,
            owed: Owed::Nak,
            ..self
        }
    }
}

// The channel of a slot 3 * channel + category; past the last slot channel 0.
pub fn channel_in(slot: usize) -> u8
    ensures { result ≡ channel_in slot }
{
    if slot < PER_END { (slot / 3) as u8 } else { 0 }
}

// The category of a slot 3 * channel + category.
pub fn category_in(slot: usize) -> Category
    ensures { result ≡ category_in slot }
{
    match slot % 3 {
        0 => Category::Posted,
        1 => Category::NonPosted,
        _ => Category::Completion,
    }
}

impl Receiver {
    // Nothing waits, nothing is owed or marked; what is allocated are the units of this end.
    #[tactic(auto, unfolding(crate::specs::Receiver::start_of))]
    pub fn start(link: Setup) -> Receiver
        ensures { result ≡ start_of link }
    {
        Receiver {
            inboxes: [Packets::empty(); CHANNELS],
            rooms: rooms_for(link),
            reply: Reply {
                next_receive: Seq::start(),
                nak_sent: false,
                owed: Owed::Nothing,
            },
        }
    }

    // What is owed is told: nothing is owed.
    #[tactic(auto, unfolding(crate::specs::Receiver::cleared))]
    pub fn clear(self) -> Receiver
        ensures { result ≡ cleared self }
    {
        let mut r = self;
        r.reply.owed = Owed::Nothing;
        r
    }

    // The slot of the first marked update.
    pub fn first_marked(self) -> Option<usize>
        ensures { result ≡ first_marked self }
    {
        self.rooms.iter().position(|m| m.marked)
    }

    pub fn room(self, slot: usize) -> Room
        ensures { result ≡ room_at self slot }
    {
        if slot < PER_END {
            return self.rooms[slot];
        }
        Room::start(Counts::start())
    }

    pub fn inbox(self, channel: usize) -> Packets
        ensures { result ≡ inbox_at self channel }
    {
        if channel < CHANNELS {
            return self.inboxes[channel];
        }
        Packets::empty()
    }

    // The update of a slot: it carries both allocated counts.
    #[tactic(auto, unfolding(crate::specs::Receiver::update_frame))]
    pub fn update_frame(self, slot: usize) -> Frame
        ensures { result ≡ update_frame self slot }
    {
        Frame::Message(Message::Update {
            channel: channel_in(slot),
            category: category_in(slot),
            counts: self.room(slot).allocated,
        })
    }

    // The update of a slot is told: its mark is cleared.
    #[tactic(auto, unfolding(crate::specs::Receiver::told))]
    pub fn told(self, slot: usize) -> Receiver
        ensures { result ≡ told self slot }
    {
        let mut r = self;
        if slot < PER_END {
            r.rooms[slot] = self.rooms[slot].unmark();
        }
        r
    }

    // Marks all updates of the n channels in use. By an index: no proof may cite the array that a loop over `&mut` elements leaves.
    #[tactic(auto, unfolding(crate::specs::Receiver::refreshed))]
    pub fn refresh(self, n: u8) -> Receiver
        ensures { result ≡ refreshed self n }
    {
        let used = PER_END.min(3 * (n as usize));
        let mut r = self;
        for slot in 0..used {
            r.rooms[slot] = self.rooms[slot].mark();
        }
        r
    }
}
