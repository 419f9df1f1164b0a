// Send at one end in lent words: the first frame that applies, and what it leaves.
// Assumes that the words of the end, or of its half, are lent.
ghost use Rattle.std.specs.Prelude.{◌≡◌, ◌<◌, length, Some};
ghost use Rattle.setup.specs.Setup.{channels, per_end};
ghost use Rattle.counters.specs.Counters.{before_of};
ghost use Rattle.frames.specs.declared.Frame.TheVariants as Frame;
ghost use Rattle.sender.specs.Sources.{replay_frame, replayed, new_of, new_frame, sent_new};
ghost use Rattle.receiver.specs.Receiver.{cleared, update_frame, told};
ghost use Rattle.words.specs.Words.{frame_in};
ghost use Rattle.words.specs.Memory.{sender_words, receiver_words, end_words, sender_in, receiver_in, sending_in, receiving_in};
ghost use Rattle.memory.specs.Sources.{by_place, by_new, source_of, frame_from, sender_after, receiver_after, detail_from};

use crate::receiving::RECEIVER;
use crate::sending::{NEXT_AT, SENDER};
use crate::{Given, Source};
use counters::Seq;
use credits::Room;
use frames::Message;
use receiver::Owed;
use words::{Word, message_word};

// A packet of the sending half: the next of a running replay, or a new one.
fn packet_source(s: &[u64]) -> Option<Source>
    requires { length s.now ≡ sender_words }
    ensures { result ≡ by_place (sender_in s.now).replay.at (by_new (new_of (sender_in s.now))) }
{
    if let Some(i) = crate::sending::replay(s).at {
        return Some(Source::Replay(i));
    }
    let (channel, place) = crate::sending::new_packet(s)?;
    Some(Source::New { channel, place })
}

// An owed Nak; an owed Ack; a marked update; or a packet.
#[tactic(auto, unfolding(crate::specs::Sources::source_of))]
pub fn first_source(m: &[u64]) -> Option<Source>
    requires { length m.now ≡ end_words }
    ensures { result ≡ source_of (sending_in m.now) (receiving_in m.now) }
{
    match crate::receiving::reply(&m[SENDER..SENDER + RECEIVER]).owed {
        Owed::Nak => Some(Source::Nak),
        Owed::Ack => Some(Source::Ack),
        Owed::Nothing => {
            if let Some(i) = crate::receiving::first_marked(&m[SENDER..SENDER + RECEIVER]) {
                return Some(Source::Update(i));
            }
            packet_source(&m[0..SENDER])
        }
    }
}

// The number that an Ack or a Nak carries.
fn reply_number(r: &[u64]) -> Seq
    requires { length r.now ≡ receiver_words }
    ensures { result ≡ before_of (receiver_in r.now).reply.next_receive }
{
    crate::receiving::reply(r).next_receive.previous()
}

// The owed reply is this message: it is told.
fn give_reply(r: &mut [u64], m: Message, detail: u32) -> Given
    requires { length r.old ≡ receiver_words }
    ensures rest_value { (frame_in result.head result.rest ≡ Frame.Message m) × (result.detail ≡ detail) }
    ensures r_after { receiver_in r.new ≡ cleared (receiver_in r.old) }
    ensures r_len { length r.new ≡ receiver_words }
{
    crate::receiving::clear(r);
    Given {
        head: message_word(m),
        rest: 0,
        detail,
    }
}

#[tactic(auto, unfolding(receiver::specs::Receiver::update_frame))]
fn give_update(r: &mut [u64], slot: usize) -> Given
    requires { (length r.old ≡ receiver_words) × (slot < per_end) }
    ensures rest_value { (frame_in result.head result.rest ≡ update_frame (receiver_in r.old) slot) × (result.detail ≡ 3) }
    ensures r_after { receiver_in r.new ≡ told (receiver_in r.old) slot }
    ensures r_len { length r.new ≡ receiver_words }
{
    let counts = Room::from_word(crate::receiving::room(r, slot)).allocated;
    let head = message_word(Message::Update {
        channel: receiver::channel_in(slot),
        category: receiver::category_in(slot),
        counts,
    });
    crate::receiving::tell(r, slot);
    Given {
        head,
        rest: 0,
        detail: 3,
    }
}

fn give_replay(s: &mut [u64], place: usize) -> Given
    requires { length s.old ≡ sender_words }
    ensures rest_value { (frame_in result.head result.rest ≡ replay_frame (sender_in s.old) place) × (result.detail ≡ 4) }
    ensures s_after { sender_in s.new ≡ replayed (sender_in s.old) place }
    ensures s_len { length s.new ≡ sender_words }
{
    let number = crate::sending::replay_number(s, place);
    let rest = crate::sending::replay_word(s, place);
    crate::sending::replayed(s, place);
    Given {
        head: 4 * number.to_word(),
        rest,
        detail: 4,
    }
}

#[tactic(auto, using(crate::proofs::SourceLaws::packet_is), unfolding(words::specs::Memory::sender_in))]
fn give_new(s: &mut [u64], channel: usize, place: usize) -> Given
    requires { (length s.old ≡ sender_words) × (channel < channels) }
    ensures rest_value { (frame_in result.head result.rest ≡ new_frame (sender_in s.old) channel place) × (result.detail ≡ 5) }
    ensures s_after { sender_in s.new ≡ sent_new (sender_in s.old) channel place }
    ensures s_len { length s.new ≡ sender_words }
{
    let number = Seq::from_word(s[NEXT_AT]);
    let rest = crate::sending::new_word(s, channel, place);
    crate::sending::sent_new(s, channel, place);
    Given {
        head: 4 * number.to_word(),
        rest,
        detail: 5,
    }
}

// The frame of this source, and the end after it.
pub fn give(m: &mut [u64], x: Source) -> Given
    requires { (length m.old ≡ end_words) × (Some x ≡ source_of (sending_in m.old) (receiving_in m.old)) }
    ensures rest_value { (frame_in result.head result.rest ≡ frame_from (sending_in m.old) (receiving_in m.old) x) × (result.detail ≡ detail_from x) }
    ensures m_after { (sending_in m.new ≡ sender_after (sending_in m.old) x) × (receiving_in m.new ≡ receiver_after (receiving_in m.old) x) }
    ensures m_len { length m.new ≡ end_words }
{
    match x {
        Source::Nak => {
            let number = reply_number(&m[SENDER..SENDER + RECEIVER]);
            give_reply(&mut m[SENDER..SENDER + RECEIVER], Message::Nak(number), 1)
        }
        Source::Ack => {
            let number = reply_number(&m[SENDER..SENDER + RECEIVER]);
            give_reply(&mut m[SENDER..SENDER + RECEIVER], Message::Ack(number), 2)
        }
        Source::Update(slot) => give_update(&mut m[SENDER..SENDER + RECEIVER], slot),
        Source::Replay(place) => give_replay(&mut m[0..SENDER], place),
        Source::New { channel, place } => give_new(&mut m[0..SENDER], channel, place),
    }
}
