// The sending half of an end: what waits to be sent, its credits, the replay buffer and the running replay.
// Assumes nothing: every function takes all values.
#![tactic(auto)]

ghost use Rattle.std.specs.Prelude.{◌≡◌, map, length, drop};
ghost use Rattle.packets.specs.Packets.{slot_of};
ghost use Rattle.store.specs.Store.{held, of_category};
ghost use Rattle.setup.specs.Setup.{per_end};
ghost use Rattle.sender.specs.Sender.{credit_of, start_of, queue_at, credit_at, with_queue, with_credit, with_replay, submitted, begun, told_of, timer_of};
ghost use Rattle.sender.specs.Sources.{replay_frame, place_after, replayed, credits_of, chosen_in, new_of, new_frame, sent_new};

use answers::Refusal;
use counters::{Counts, Retrain, Seq, Wrapped};
use credits::Credit;
use frames::Frame;
use packets::{Category, Packet};
use setup::{CHANNELS, PER_END, Setup, Units};
use std::array;
use store::Packets;

// The place in the replay buffer of a running replay's next packet; how many starts are counted; how often the link was trained again.
#[derive(Clone, Copy)]
pub struct Replay {
    pub at: Option<usize>,
    pub count: u8,
    pub retrains: Retrain,
}

// `queues` by channel, each in the order of age; `credits` at 3 * channel + category. The packets of `buffer` have the numbers from acked + 1 on.
#[derive(Clone, Copy)]
pub struct Sender {
    pub queues: [Packets; CHANNELS],
    pub credits: [Credit; PER_END],
    pub buffer: Packets,
    pub next: Seq,
    pub acked: Seq,
    pub replay: Replay,
}

// The most packets in the replay buffer.
pub const BUFFER: usize = 16;

impl Replay {
    // One more start, at the oldest unacknowledged packet.
    pub fn begin(self) -> Replay
        ensures { result ≡ begun self }
    {
        let retrains = self.retrains;
        if self.count < 3 {
            return Replay {
                at: Some(0),
                count: self.count + 1,
                retrains,
            };
        }
        let again = retrains.grow();
        Replay {
            at: Some(0),
            count: 0,
            retrains: again,
        }
    }
}

fn credit_of(u: Units) -> Credit
    ensures { result ≡ credit_of u }
{
    Credit::start(credits::advertised(u.header, u.payload))
}

// A credit for each category of each channel of the other end. The setup is turned so that its end 1 is the other end.
fn credits_for(link: Setup) -> [Credit; PER_END]
    ensures { result ≡ map credit_of (drop per_end link.units) }
{
    array::from_fn(|slot| credit_of(link.units[PER_END + slot]))
}

// The place after place i, where there is one below len.
pub fn place_after(i: usize, len: usize) -> Option<usize>
    ensures { result ≡ place_after i len }
{
    if i < len {
        if i + 1 < len {
            return Some(i + 1);
        }
    }
    None
}

impl Sender {
    // Nothing waits and nothing was sent; the limits are the units of the other end.
    pub fn start(link: Setup) -> Sender
        ensures { result ≡ start_of link }
    {
        let credits = credits_for(link);
        let empty = Packets::empty();
        let queues = [empty; CHANNELS];
        let next = Seq::start();
        let acked = next.previous();
        let retrains = Retrain::start();
        let replay = Replay {
            at: None,
            count: 0,
            retrains,
        };
        Sender {
            queues,
            credits,
            buffer: empty,
            next,
            acked,
            replay,
        }
    }

    // What waits to be sent on a channel; nothing where there is no such channel.
    fn queue(&self, channel: usize) -> Packets
        ensures { result ≡ queue_at self.now channel }
    {
        match self.queues.get(channel) {
            Some(queue) => *queue,
            None => Packets::empty(),
        }
    }

    // With this queue on a channel; as it was where there is no such channel.
    fn with_queue(self, channel: usize, q: Packets) -> Sender
        ensures { result ≡ with_queue self channel q }
    {
        if channel >= CHANNELS {
            return self;
        }
        let mut r = self;
        r.queues[channel] = q;
        r
    }

    // The credit of a channel and category; none where there is no such channel.
    pub fn credit(self, channel: usize, c: Category) -> Credit
        ensures { result ≡ credit_at self (slot_of channel c) }
    {
        if channel < CHANNELS {
            return self.credits[c.slot(channel)];
        }
        Credit::start(Counts::start())
    }

    // With this credit of a channel and category; as it was where there is no such channel.
    pub fn with_credit(self, channel: usize, c: Category, credit: Credit) -> Sender
        ensures { result ≡ with_credit self (slot_of channel c) credit }
    {
        if channel >= CHANNELS {
            return self;
        }
        let at = c.slot(channel);
        let mut r = self;
        r.credits[at] = credit;
        r
    }

    // How many packets of a category wait on a channel.
    pub fn waiting(&self, channel: usize, c: Category) -> usize
        ensures { result ≡ length (of_category c (held (queue_at self.now channel))) }
    {
        self.queue(channel).count_of(c)
    }

    // The packet joins its channel's send queue.
    #[tactic(auto, unfolding(crate::specs::Sender::submitted))]
    pub fn submit(self, channel: usize, p: Packet) -> Sender
        ensures { result ≡ submitted self channel p }
    {
        self.with_queue(channel, self.queue(channel).push(p))
    }

    // A replay starts at the oldest unacknowledged packet, also while one runs.
    pub fn begin(self) -> Sender
        ensures { result ≡ with_replay self (begun self.replay) }
    {
        let mut r = self;
        r.replay = self.replay.begin();
        r
    }

    // Timer: a replay starts; refused where nothing is unacknowledged.
    #[tactic(auto, unfolding(crate::specs::Sender::timer_of))]
    pub fn timer(self) -> Result<Sender, Refusal>
        ensures { told_of self result ≡ timer_of self }
    {
        if self.buffer.len == 0 {
            return Err(Refusal::NothingOut);
        }
        Ok(self.begin())
    }

    // The packet at a place of the replay buffer, with its number.
    pub fn replay_frame(self, i: usize) -> Frame
        ensures { result ≡ replay_frame self i }
    {
        Frame::Packet(self.acked.next().after(i), self.buffer.at(i))
    }

    // The replay goes on after the packet at place i, or ends after the last. It adds to no counter.
    #[tactic(auto, unfolding(crate::specs::Sources::replayed))]
    pub fn replayed(self, i: usize) -> Sender
        ensures { result ≡ replayed self i }
    {
        let mut r = self;
        r.replay.at = place_after(i, self.buffer.len);
        r
    }

    // The credits of a channel: P, NP, C.
    fn credits_of(self, channel: usize) -> [Credit; 3]
        ensures { result ≡ credits_of self channel }
    {
        [
            self.credit(channel, Category::Posted),
            self.credit(channel, Category::NonPosted),
            self.credit(channel, Category::Completion),
        ]
    }

    // The place of a channel's oldest eligible packet.
    fn chosen_in(self, channel: usize) -> Option<usize>
        ensures { result ≡ chosen_in self channel }
    {
        let credits = self.credits_of(channel);
        choice::choose(self.queue(channel), credits)
    }

    // The new packet to send: from the highest channel that has an eligible one, if the replay buffer has room.
    pub fn new_packet(self) -> Option<(usize, usize)>
        ensures { result ≡ new_of self }
    {
        if self.buffer.len >= BUFFER {
            return None;
        }
        for c in (0..CHANNELS).rev() {
            if let Some(place) = self.chosen_in(c) {
                return Some((c, place));
            }
        }
        None
    }

    // The packet at a place of a channel's queue, with the next number.
    pub fn new_frame(self, channel: usize, place: usize) -> Frame
        ensures { result ≡ new_frame self channel place }
    {
        Frame::Packet(self.next, self.queue(channel).at(place))
    }

    // A new packet leaves its queue: it adds to consumed and enters the replay buffer.
    pub fn sent_new(self, channel: usize, place: usize) -> Sender
        ensures { result ≡ sent_new self channel place }
    {
        if channel >= CHANNELS {
            return self;
        }
        let q = self.queue(channel);
        let p = q.at(place);
        let c = p.category();
        let rest = q.remove(place);
        let credit = self.credit(channel, c).spend(p.need());
        let buffer = self.buffer.push(p);
        let next = self.next.next();
        let mut r = self
            .with_queue(channel, rest)
            .with_credit(channel, c, credit);
        r.buffer = buffer;
        r.next = next;
        r
    }
}
