// One end of a link: its two halves under one setup, its start and its steps. The setup is as the end sees it: its own units first.
// No step looks at the shape of the state: a caller that cannot be sure of it asks for answer 10 first. Assumes nothing: every function takes all values.
#![tactic(auto)]

ghost use Rattle.std.specs.Prelude.{◌≡◌, Ok, Some};
ghost use Rattle.delivery.specs.Delivery.{got_of};
ghost use Rattle.answers.specs.Answers.{answer_of};
ghost use Rattle.ends.specs.Ends.{by_receiver, end_of, start_of, started_of, stepped_of, channel_for, too_much, too_many, submit_answer, submit_of, heard, arrive_of, damage_of, take_at, timer_of, refresh_of};
ghost use Rattle.ends.specs.Sends.{sent, sent_of, send_of};

use answers::{After, Refusal};
use frames::Frame;
use packets::Packet;
use receiver::Receiver;
use sender::Sender;
use setup::Setup;

// The most packets of a category that wait on a channel to be sent.
pub const QUEUE: usize = 8;

#[derive(Clone, Copy)]
pub struct End {
    pub setup: Setup,
    pub sender: Sender,
    pub receiver: Receiver,
}

// The end after Send, with the frame for the line.
#[derive(Clone, Copy)]
pub struct Outgoing {
    pub end: End,
    pub frame: Frame,
    pub detail: u32,
}

// After a step that has no detail.
fn bare(end: End) -> After<End>
    ensures { (result.state ≡ end) × (result.detail ≡ 0) }
{
    After {
        state: end,
        detail: 0,
    }
}

// After a step of the receiving half.
fn by_receiver(end: End, got: After<Receiver>) -> After<End>
    ensures { stepped_of end (Ok result) ≡ by_receiver end (got_of end.receiver (Ok got)) }
{
    After {
        state: End {
            receiver: got.state,
            ..end
        },
        detail: got.detail,
    }
}

// The frame is for the line, and this is the end after it.
fn with_frame(end: End, frame: Frame, detail: u32) -> Outgoing
    ensures { sent_of end (Ok result) ≡ sent end (Some frame) 0 detail }
{
    Outgoing { end, frame, detail }
}

impl End {
    // The end of any setup, also of one that is out of range.
    #[tactic(auto, unfolding(crate::specs::Ends::end_of))]
    pub fn of(link: Setup) -> End
        ensures { result ≡ end_of link }
    {
        End {
            setup: link,
            sender: Sender::start(link),
            receiver: Receiver::start(link),
        }
    }

    // Starts an end from its setup, as it sees it.
    #[tactic(auto, unfolding(crate::specs::Ends::start_of))]
    pub fn start(link: Setup) -> Result<End, Refusal>
        ensures { started_of result ≡ start_of link }
    {
        if link.in_range() {
            return Ok(End::of(link));
        }
        Err(Refusal::Setup)
    }

    fn channel_for(&self, p: Packet) -> usize
        ensures { result ≡ channel_for self.now p }
    {
        self.setup.channel_of(p.class)
    }

    // Refused where the packet needs more data units than the other end's setup gives.
    #[tactic(auto, unfolding(packets::specs::Packets::need_of))]
    fn too_much(&self, p: Packet) -> Result<(), Refusal>
        ensures { answer_of result ≡ too_much self.now p }
    {
        let category = p.category().number() as usize;
        let units = self.setup.units_at(1, self.channel_for(p), category);
        if units.payload < p.need().d.0 {
            return Err(Refusal::TooManyUnits);
        }
        Ok(())
    }

    // Refused where 8 of its category wait on its channel.
    fn too_many(&self, p: Packet) -> Result<(), Refusal>
        ensures { answer_of result ≡ too_many self.now p }
    {
        if QUEUE <= self.sender.waiting(self.channel_for(p), p.category()) {
            return Err(Refusal::QueueFull);
        }
        Ok(())
    }

    // Whether a packet may join its channel's send queue.
    #[tactic(auto, using(answers::proofs::Outcomes::no_refusal_is_0), unfolding(crate::specs::Ends::submit_answer))]
    pub fn submit_answer(&self, p: Packet) -> Result<(), Refusal>
        ensures { answer_of result ≡ submit_answer self.now p }
    {
        p.answer()?;
        self.too_much(p)?;
        self.too_many(p)
    }

    #[tactic(auto, using(answers::proofs::Outcomes::no_refusal_is_0), unfolding(crate::specs::Ends::submit_of))]
    pub fn submit(self, p: Packet) -> Result<After<End>, Refusal>
        ensures { stepped_of self result ≡ submit_of self p }
    {
        self.submit_answer(p)?;
        let sender = self.sender.submit(self.channel_for(p), p);
        Ok(bare(End { sender, ..self }))
    }

    // The first frame that applies, and the end after it: the end that was handed in is changed, since each new one would be made in a place of its own.
    #[tactic(auto, unfolding(crate::specs::Sends::send_of))]
    pub fn send(mut self) -> Result<Outgoing, Refusal>
        ensures { sent_of self result ≡ send_of self }
    {
        if let Some(f) = self.receiver.reply.nak() {
            self.receiver = self.receiver.clear();
            return Ok(with_frame(self, f, 1));
        }
        if let Some(f) = self.receiver.reply.ack() {
            self.receiver = self.receiver.clear();
            return Ok(with_frame(self, f, 2));
        }
        if let Some(i) = self.receiver.first_marked() {
            let f = self.receiver.update_frame(i);
            self.receiver = self.receiver.told(i);
            return Ok(with_frame(self, f, 3));
        }
        if let Some(i) = self.sender.replay.at {
            let f = self.sender.replay_frame(i);
            self.sender = self.sender.replayed(i);
            return Ok(with_frame(self, f, 4));
        }
        let (channel, place) = self.sender.new_packet().ok_or(Refusal::NoFrame)?;
        let f = self.sender.new_frame(channel, place);
        self.sender = self.sender.sent_new(channel, place);
        Ok(with_frame(self, f, 5))
    }

    fn heard(self, f: Frame) -> Result<After<End>, Refusal>
        ensures { stepped_of self result ≡ heard self f }
    {
        match f {
            Frame::Packet(number, p) => {
                let got = delivery::arrive(self.receiver, self.channel_for(p), number, p)?;
                Ok(by_receiver(self, got))
            }
            Frame::Message(m) => {
                let sender = hearing::hear(self.sender, m)?;
                Ok(bare(End { sender, ..self }))
            }
        }
    }

    // A frame arrives whole.
    #[tactic(auto, using(answers::proofs::Outcomes::no_refusal_is_0), unfolding(crate::specs::Ends::arrive_of))]
    pub fn arrive(self, f: Frame) -> Result<After<End>, Refusal>
        ensures { stepped_of self result ≡ arrive_of self f }
    {
        f.answer(self.setup.n)?;
        self.heard(f)
    }

    // A frame arrives damaged. It is never refused.
    #[tactic(auto, unfolding(crate::specs::Ends::damage_of))]
    pub fn damage(self, f: Frame) -> After<End>
        ensures { stepped_of self (Ok result) ≡ damage_of self f }
    {
        let end = match f {
            Frame::Packet(_, _) => {
                let receiver = delivery::damage(self.receiver);
                End { receiver, ..self }
            }
            Frame::Message(_) => self,
        };
        After {
            state: end,
            detail: 4,
        }
    }

    pub fn take(self, channel: u8, category: u8) -> Result<After<End>, Refusal>
        ensures { stepped_of self result ≡ take_at self channel category }
    {
        let got = delivery::take(self.receiver, self.setup.n, channel, category)?;
        Ok(by_receiver(self, got))
    }

    pub fn timer(self) -> Result<After<End>, Refusal>
        ensures { stepped_of self result ≡ timer_of self }
    {
        let sender = self.sender.timer()?;
        Ok(bare(End { sender, ..self }))
    }

    // All updates of channels in use are marked. It is never refused.
    #[tactic(auto, unfolding(crate::specs::Ends::refresh_of))]
    pub fn refresh(self) -> After<End>
        ensures { stepped_of self (Ok result) ≡ refresh_of self }
    {
        let receiver = self.receiver.refresh(self.setup.n);
        bare(End { receiver, ..self })
    }
}
