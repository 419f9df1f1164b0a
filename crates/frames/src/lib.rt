// Frames: what goes over a line, and the range rule of answer 27.
// Assumes nothing: every function takes all values.
#![tactic(auto, unfolding(crate::specs::Frames::in_range))]

ghost use Rattle.std.specs.Prelude.{◌≡◌};
ghost use Rattle.packets.specs.Packets.{numbered};
ghost use Rattle.answers.specs.Answers.{answer_of};
ghost use Rattle.frames.specs.Frames.{number_in_range, packet_in_range, in_range, frame_answer, update_of};

use answers::Refusal;
use counters::{Counts, Data, Header, Seq, Wrapped};
use packets::{Category, Packet};

// Ack and Nak carry the number up to which all was received. An update carries both allocated counts.
#[derive(Clone, Copy)]
pub enum Message {
    Ack(Seq),
    Nak(Seq),
    Update {
        channel: u8,
        category: Category,
        counts: Counts,
    },
}

// A packet with its number, or a link message.
#[derive(Clone, Copy)]
pub enum Frame {
    Packet(Seq, Packet),
    Message(Message),
}

fn number_in_range(number: Seq) -> bool
    ensures { result ≡ number_in_range number }
{
    number.0 < Seq::RANGE
}

#[tactic(auto, using(answers::proofs::Outcomes::accepts))]
fn packet_in_range(number: Seq, p: Packet) -> bool
    ensures { result ≡ packet_in_range number p }
{
    number_in_range(number) && p.answer().is_ok()
}

impl Message {
    fn in_range(self, n: u8) -> bool
        ensures { result ≡ in_range n (Frame.Message self) }
    {
        match self {
            Message::Ack(number) | Message::Nak(number) => number_in_range(number),
            Message::Update {
                channel,
                category: _,
                counts,
            } => channel < n && counts.d.0 < Data::RANGE,
        }
    }
}

impl Frame {
    fn in_range(self, n: u8) -> bool
        ensures { result ≡ in_range n self }
    {
        match self {
            Frame::Packet(number, p) => packet_in_range(number, p),
            Frame::Message(m) => m.in_range(n),
        }
    }

    // Refused where a field is out of range and n channels are in use.
    pub fn answer(self, n: u8) -> Result<(), Refusal>
        ensures { answer_of result ≡ frame_answer n self }
    {
        if self.in_range(n) {
            Ok(())
        } else {
            Err(Refusal::Field)
        }
    }
}

// The update of these numbers, where n channels are in use.
pub fn update_of(
    n: u8,
    channel: u8,
    category: u8,
    header: u16,
    units: u16,
) -> Result<Frame, Refusal>
    ensures { result ≡ update_of n channel (numbered category) header units }
{
    let category = packets::category_numbered(category).ok_or(Refusal::Field)?;
    if header >= Header::RANGE {
        return Err(Refusal::Field);
    }
    let counts = Counts {
        h: Header::of(header),
        d: Data(units),
    };
    let f = Frame::Message(Message::Update {
        channel,
        category,
        counts,
    });
    f.answer(n)?;
    Ok(f)
}
