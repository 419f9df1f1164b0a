// Small structs as one number of 64 bits, a word, each field at a place of its own, for memory that is lent as words.
// Assumes nothing: every word means something.
#![tactic(auto)]

ghost use Rattle.std.specs.Prelude.{◌≡◌, ℕ, ◌<◌};
ghost use Rattle.frames.specs.declared.Frame.TheVariants as Frame;
ghost use Rattle.words.specs.Memory.{owed_in};
ghost use Rattle.words.specs.Words.{byte_in, units_in, packet_in, packet_word, counts_in, counts_word, credit_in, credit_word, room_in, room_word, seq_in, category_in, message_in, message_word, frame_in, head_word, rest_word};

use counters::{Counts, Data, Header, Seq};
use credits::{Credit, Room};
use frames::{Frame, Message};
use packets::{Category, Packet};
use receiver::Owed;
use setup::Units;

// A value that stands in one word.
pub trait Word {
    // What a word means.
    ghost meaning: { ℕ → Self };

    fn from_word(w: u64) -> Self
        ensures { result ≡ meaning w };

    fn to_word(self) -> u64
        ensures result_value { meaning result ≡ self };
}

impl Word for u8 {
    ghost meaning = { byte_in };

    fn from_word(w: u64) -> u8 {
        (w % 256) as u8
    }

    fn to_word(self) -> u64 {
        u64::from(self)
    }
}

impl Word for Owed {
    ghost meaning = { owed_in };

    fn from_word(w: u64) -> Owed {
        match w {
            0 => Owed::Nothing,
            1 => Owed::Ack,
            _ => Owed::Nak,
        }
    }

    fn to_word(self) -> u64 {
        match self {
            Owed::Nothing => 0,
            Owed::Ack => 1,
            Owed::Nak => 2,
        }
    }
}

impl Word for Seq {
    ghost meaning = { seq_in };

    fn from_word(w: u64) -> Seq {
        Seq((w % 65536) as u16)
    }

    fn to_word(self) -> u64
        ensures value { result ≡ self.0 }
        ensures result_value { seq_in result ≡ self }
    {
        u64::from(self.0)
    }
}

impl Word for Units {
    ghost meaning = { units_in };

    fn from_word(w: u64) -> Units {
        Units {
            header: (w % 65536) as u16,
            payload: (w / 65536 % 65536) as u16,
        }
    }

    fn to_word(self) -> u64 {
        u64::from(self.header) + 65536 * u64::from(self.payload)
    }
}

impl Word for Packet {
    ghost meaning = { packet_in };

    fn from_word(w: u64) -> Packet {
        Packet {
            kind: (w % 256) as u8,
            class: (w / 256 % 256) as u8,
            length: (w / 65536 % 65536) as u16,
            ident: (w / 4294967296 % 4294967296) as u32,
        }
    }

    fn to_word(self) -> u64
        ensures value { result ≡ packet_word self }
        ensures result_value { packet_in result ≡ self }
    {
        u64::from(self.kind)
            + 256 * u64::from(self.class)
            + 65536 * u64::from(self.length)
            + 4294967296 * u64::from(self.ident)
    }
}

impl Word for Counts {
    ghost meaning = { counts_in };

    fn from_word(w: u64) -> Counts {
        Counts {
            h: Header((w % 256) as u8),
            d: Data((w / 256 % 65536) as u16),
        }
    }

    fn to_word(self) -> u64
        ensures value { result ≡ counts_word self }
        ensures result_value { counts_in result ≡ self }
        ensures upper_bound { result < 16777216 }
    {
        u64::from(self.h.0) + 256 * u64::from(self.d.0)
    }
}

impl Word for Credit {
    ghost meaning = { credit_in };

    fn from_word(w: u64) -> Credit {
        Credit {
            limit: Counts::from_word(w),
            consumed: Counts::from_word(w / 16777216),
        }
    }

    fn to_word(self) -> u64
        ensures value { result ≡ credit_word self }
        ensures result_value { credit_in result ≡ self }
    {
        self.limit.to_word() + 16777216 * self.consumed.to_word()
    }
}

impl Word for Room {
    ghost meaning = { room_in };

    fn from_word(w: u64) -> Room {
        Room {
            allocated: Counts::from_word(w),
            received: Counts::from_word(w / 16777216),
            marked: w / 281474976710656 % 2 == 1,
        }
    }

    fn to_word(self) -> u64
        ensures value { result ≡ room_word self }
        ensures result_value { room_in result ≡ self }
    {
        let both = self.allocated.to_word() + 16777216 * self.received.to_word();
        if self.marked {
            return both + 281474976710656;
        }
        both
    }
}

fn category_in(n: u64) -> Category
    ensures { result ≡ category_in n }
{
    match n {
        0 => Category::Posted,
        1 => Category::NonPosted,
        _ => Category::Completion,
    }
}

pub fn message_in(w: u64) -> Message
    ensures { result ≡ message_in w }
{
    match w % 4 {
        1 => Message::Ack(Seq::from_word(w / 4)),
        2 => Message::Nak(Seq::from_word(w / 4)),
        _ => Message::Update {
            channel: (w / 4 % 256) as u8,
            category: category_in(w / 1024 % 4),
            counts: Counts::from_word(w / 4096),
        },
    }
}

pub fn message_word(m: Message) -> u64
    ensures value { result ≡ message_word m }
    ensures result_value { frame_in result 0 ≡ Frame.Message m }
{
    match m {
        Message::Ack(number) => 1 + 4 * number.to_word(),
        Message::Nak(number) => 2 + 4 * number.to_word(),
        Message::Update {
            channel,
            category,
            counts,
        } => {
            let c = u64::from(category.number());
            3 + 4 * u64::from(channel) + 1024 * c + 4096 * counts.to_word()
        }
    }
}

// The two words of a frame.
#[derive(Clone, Copy)]
pub struct Pairing {
    pub head: u64,
    pub rest: u64,
}

pub fn frame_words(f: Frame) -> Pairing
    ensures head_value { (result.head ≡ head_word f) × (result.rest ≡ rest_word f) }
    ensures rest_value { frame_in result.head result.rest ≡ f }
{
    match f {
        Frame::Packet(number, p) => Pairing {
            head: 4 * number.to_word(),
            rest: p.to_word(),
        },
        Frame::Message(m) => Pairing {
            head: message_word(m),
            rest: 0,
        },
    }
}

pub fn frame_in(head: u64, rest: u64) -> Frame
    ensures { result ≡ frame_in head rest }
{
    if head % 4 == 0 {
        return Frame::Packet(Seq::from_word(head / 4), Packet::from_word(rest));
    }
    Frame::Message(message_in(head))
}
