// The sending half of an end in lent words: its queues, credits, replay buffer and running replay.
// Assumes that its 263 words are lent: four lists, the replay buffer, twelve credits, the two numbers, the replay.
ghost use Rattle.std.specs.Prelude.{◌≡◌, ◌<◌, is_ok, length, get_or};
ghost use Rattle.answers.specs.Answers.{answer_of};
ghost use Rattle.counters.specs.Counters.{next_of, after_of};
ghost use Rattle.setup.specs.Setup.{channels};
ghost use Rattle.store.specs.Store.{held, at, of_category};
ghost use Rattle.sender.specs.Sender.{queue_at, credit_at, with_credit, with_replay, submitted, begun, timer_of};
ghost use Rattle.sender.specs.Sources.{chosen_in, new_of, new_packet, sent_new, replayed};
ghost use Rattle.words.specs.Words.{packet_in};
ghost use Rattle.words.specs.Memory.{sender_words, found_in, replay_in, sender_in};
ghost use Rattle.packets.specs.Packets.{slot_of, category_of, need_of};
ghost use Rattle.credits.specs.Credits.{spent};
ghost use Rattle.memory.specs.Said.{Keeps};

use crate::lists::LIST;
use answers::Refusal;
use counters::{Retrain, Seq};
use credits::Credit;
use packets::{Category, Packet};
use sender::{BUFFER, Replay};
use setup::CHANNELS;
use words::Word;

// Where the parts stand. The queues are first.
pub const BUFFER_AT: usize = 196;

pub const CREDITS_AT: usize = 245;

pub const NEXT_AT: usize = 257;

pub const ACKED_AT: usize = 258;

pub const REPLAY_AT: usize = 259;

pub const SENDER: usize = 263;
// Where the length of the replay buffer stands.
pub const OUT_AT: usize = 244;

// How many packets of a category wait on a channel.
pub fn waiting(s: &[u64], channel: usize, c: Category) -> usize
    requires { length s.now ≡ sender_words }
    ensures { result ≡ length (of_category c (held (queue_at (sender_in s.now) channel))) }
{
    if channel < CHANNELS {
        let at = LIST * channel;
        return crate::lists::count_of(&s[at..at + LIST], c);
    }
    0
}

// The packet of this word joins its channel's send queue.
pub fn submit(s: &mut [u64], channel: usize, w: u64)
    requires { length s.old ≡ sender_words }
    ensures s_after { sender_in s.new ≡ submitted (sender_in s.old) channel (packet_in w) }
    ensures s_len { length s.new ≡ sender_words }
{
    if channel < CHANNELS {
        let at = LIST * channel;
        crate::lists::push(&mut s[at..at + LIST], w);
    }
}

// The running replay, of its four words.
fn replay_in(x: &[u64]) -> Replay
    requires { length x.now ≡ 4 }
    ensures { result ≡ replay_in x.now }
{
    let count = u8::from_word(x[2]);
    let retrains = Retrain((x[3] % 65536) as u16);
    if x[0] == 0 {
        return Replay {
            at: None,
            count,
            retrains,
        };
    }
    Replay {
        at: Some(x[1] as usize),
        count,
        retrains,
    }
}

// Where a replay goes on, as its first two words.
fn write_place(x: &mut [u64], at: Option<usize>)
    requires { length x.old ≡ 2 }
    ensures x_after { found_in (get_or x.new 0 0) (get_or x.new 1 0) ≡ at }
    ensures x_len { length x.new ≡ 2 }
{
    match at {
        Some(i) => {
            x[0] = 1;
            x[1] = i as u64;
        }
        None => {
            x[0] = 0;
            x[1] = 0;
        }
    }
}

pub fn write_replay(x: &mut [u64], r: Replay)
    requires { length x.old ≡ 4 }
    ensures x_after { replay_in x.new ≡ r }
    ensures x_len { length x.new ≡ 4 }
{
    write_place(&mut x[0..2], r.at);
    x[2] = r.count.to_word();
    x[3] = u64::from(r.retrains.0);
}

pub fn replay(s: &[u64]) -> Replay
    requires { length s.now ≡ sender_words }
    ensures { result ≡ (sender_in s.now).replay }
{
    replay_in(&s[REPLAY_AT..REPLAY_AT + 4])
}

// A replay starts at the oldest unacknowledged packet, also while one runs.
pub fn begin(s: &mut [u64])
    requires { length s.old ≡ sender_words }
    ensures s_after { sender_in s.new ≡ with_replay (sender_in s.old) (begun (sender_in s.old).replay) }
    ensures s_len { length s.new ≡ sender_words }
{
    let r = replay(s).begin();
    write_replay(&mut s[REPLAY_AT..REPLAY_AT + 4], r);
}

// Timer: a replay starts; refused where nothing is unacknowledged.
pub fn timer(s: &mut [u64]) -> Result<(), Refusal>
    requires { length s.old ≡ sender_words }
    ensures value { (answer_of result ≡ (timer_of (sender_in s.old)).answer) × (sender_in s.new ≡ (timer_of (sender_in s.old)).sender) }
    ensures s_len { length s.new ≡ sender_words }
    ensures keeps { Keeps (is_ok result) s.old s.new }
{
    if s[OUT_AT] == 0 {
        return Err(Refusal::NothingOut);
    }
    begin(s);
    Ok(())
}

// The number of the packet at a place of the replay buffer.
pub fn replay_number(s: &[u64], i: usize) -> Seq
    requires { length s.now ≡ sender_words }
    ensures { result ≡ after_of (next_of (sender_in s.now).acked) i }
{
    Seq::from_word(s[ACKED_AT]).next().after(i)
}

// The word of the packet at a place of the replay buffer.
pub fn replay_word(s: &[u64], i: usize) -> u64
    requires { length s.now ≡ sender_words }
    ensures { packet_in result ≡ at (sender_in s.now).buffer i }
{
    crate::lists::word_at(&s[BUFFER_AT..BUFFER_AT + LIST], i)
}

// The replay goes on after the packet at place i, or ends after the last.
pub fn replayed(s: &mut [u64], i: usize)
    requires { length s.old ≡ sender_words }
    ensures s_after { sender_in s.new ≡ replayed (sender_in s.old) i }
    ensures s_len { length s.new ≡ sender_words }
{
    let r = Replay {
        at: sender::place_after(i, s[OUT_AT] as usize),
        ..replay(s)
    };
    write_replay(&mut s[REPLAY_AT..REPLAY_AT + 4], r);
}

// The place of a channel's oldest eligible packet.
fn chosen_in(s: &[u64], channel: usize) -> Option<usize>
    requires { (length s.now ≡ sender_words) × (channel < channels) }
    ensures { result ≡ chosen_in (sender_in s.now) channel }
{
    let at = LIST * channel;
    let k = CREDITS_AT + 3 * channel;
    crate::lists::choose(&s[at..at + LIST], &s[k..k + 3])
}

// The new packet to send: from the highest channel that has an eligible one, if the replay buffer has room.
pub fn new_packet(s: &[u64]) -> Option<(usize, usize)>
    requires { length s.now ≡ sender_words }
    ensures { result ≡ new_of (sender_in s.now) }
{
    if s[OUT_AT] as usize >= BUFFER {
        return None;
    }
    for c in (0..CHANNELS).rev() {
        if let Some(place) = chosen_in(s, c) {
            return Some((c, place));
        }
    }
    None
}

// The word of the packet at a place of a channel's queue.
pub fn new_word(s: &[u64], channel: usize, place: usize) -> u64
    requires { (length s.now ≡ sender_words) × (channel < channels) }
    ensures { packet_in result ≡ new_packet (sender_in s.now) channel place }
{
    let at = LIST * channel;
    crate::lists::word_at(&s[at..at + LIST], place)
}

// A new packet, of this word, adds to consumed.
fn spend(s: &mut [u64], channel: usize, w: u64)
    requires { (length s.old ≡ sender_words) × (channel < channels) }
    ensures s_after { sender_in s.new ≡ with_credit (sender_in s.old) (slot_of channel (category_of (packet_in w))) (spent (credit_at (sender_in s.old) (slot_of channel (category_of (packet_in w)))) (need_of (packet_in w))) }
    ensures s_len { length s.new ≡ sender_words }
{
    let p = Packet::from_word(w);
    let k = CREDITS_AT + 3 * channel + p.category().number() as usize;
    s[k] = Credit::from_word(s[k]).spend(p.need()).to_word();
}

// A new packet leaves its queue: it adds to consumed and enters the replay buffer.
pub fn sent_new(s: &mut [u64], channel: usize, place: usize)
    requires { (length s.old ≡ sender_words) × (channel < channels) }
    ensures s_after { sender_in s.new ≡ sent_new (sender_in s.old) channel place }
    ensures s_len { length s.new ≡ sender_words }
{
    let w = new_word(s, channel, place);
    let at = LIST * channel;
    crate::lists::remove(&mut s[at..at + LIST], place);
    spend(s, channel, w);
    crate::lists::push(&mut s[BUFFER_AT..BUFFER_AT + LIST], w);
    s[NEXT_AT] = Seq::from_word(s[NEXT_AT]).next().to_word();
}
