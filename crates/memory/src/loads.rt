// A pair, read from its words.
// Assumes of each function that the words of what it reads are lent.
ghost use Rattle.std.specs.Prelude.{◌≡◌, map, length};
ghost use Rattle.basics.specs.Parts.{cut};
ghost use Rattle.words.specs.Memory.{list_words, line_places, line_words, sender_words, receiver_words, end_words, packets_in, lists_in, sender_in, receiver_in, slot_in, line_in, end_in};

use crate::lines::{FRAMES, ON_IT};
use crate::lists::{LIST, PLACES};
use crate::receiving::{RECEIVER, REPLY_AT, ROOMS_AT};
use crate::sending::{ACKED_AT, BUFFER_AT, CREDITS_AT, NEXT_AT, SENDER};
use counters::Seq;
use ends::End;
use line::{Line, Slot};
use receiver::Receiver;
use sender::Sender;
use setup::{CHANNELS, Setup};
use std::array;
use store::Packets;
use words::{Word, frame_in};

// What each word means.
pub fn all_in<T: Word, const N: usize>(words: &[u64]) -> [T; N]
    requires { length words.now ≡ N }
    ensures { result ≡ map T.meaning words.now }
{
    array::from_fn(|i| T::from_word(words[i]))
}

pub fn packets_in(q: &[u64]) -> Packets
    requires { length q.now ≡ list_words }
    ensures { result ≡ packets_in q.now }
{
    Packets {
        items: all_in(&q[0..PLACES]),
        len: q[PLACES] as usize,
    }
}

// The lists of a half: one for each channel.
fn lists_in(m: &[u64]) -> [Packets; CHANNELS]
    requires { length m.now ≡ 196 }
    ensures { result ≡ lists_in m.now }
{
    array::from_fn(|c| packets_in(&m[LIST * c..LIST * c + LIST]))
}

fn sender_in(s: &[u64]) -> Sender
    requires { length s.now ≡ sender_words }
    ensures { result ≡ sender_in s.now }
{
    let queues = lists_in(&s[0..BUFFER_AT]);
    let buffer = packets_in(&s[BUFFER_AT..CREDITS_AT]);
    let credits = all_in(&s[CREDITS_AT..NEXT_AT]);
    let next = Seq::from_word(s[NEXT_AT]);
    let acked = Seq::from_word(s[ACKED_AT]);
    let replay = crate::sending::replay(s);
    Sender {
        queues,
        credits,
        buffer,
        next,
        acked,
        replay,
    }
}

fn receiver_in(r: &[u64]) -> Receiver
    requires { length r.now ≡ receiver_words }
    ensures { result ≡ receiver_in r.now }
{
    let inboxes = lists_in(&r[0..ROOMS_AT]);
    let rooms = all_in(&r[ROOMS_AT..REPLY_AT]);
    let reply = crate::receiving::reply(r);
    Receiver {
        inboxes,
        rooms,
        reply,
    }
}

pub fn end_in(m: &[u64], link: Setup) -> End
    requires { length m.now ≡ end_words }
    ensures { result ≡ end_in link m.now }
{
    let sender = sender_in(&m[0..SENDER]);
    let receiver = receiver_in(&m[SENDER..SENDER + RECEIVER]);
    End {
        setup: link,
        sender,
        receiver,
    }
}

fn slots_in(l: &[u64]) -> [Slot; FRAMES]
    requires { length l.now ≡ line_words }
    ensures { result ≡ map slot_in (cut 2 line_places l.now) }
{
    array::from_fn(|i| Slot {
        frame: frame_in(l[2 * i], l[2 * i + 1]),
    })
}

pub fn line_in(l: &[u64]) -> Line
    requires { length l.now ≡ line_words }
    ensures { result ≡ line_in l.now }
{
    let slots = slots_in(l);
    let len = l[ON_IT] as usize;
    Line { slots, len }
}
