// A pair, written as its words.
// Assumes of each function that the words of what it writes are lent.
ghost use Rattle.std.specs.Prelude.{◌≡◌, map, length};
ghost use Rattle.words.specs.Memory.{list_words, line_words, sender_words, receiver_words, end_words, packets_in, lists_in, sender_in, receiver_in, line_in, end_in};

use crate::lines::ON_IT;
use crate::lists::{LIST, PLACES};
use crate::receiving::{RECEIVER, REPLY_AT, ROOMS_AT};
use crate::sending::{ACKED_AT, BUFFER_AT, CREDITS_AT, NEXT_AT, REPLAY_AT, SENDER};
use ends::End;
use line::Line;
use receiver::Receiver;
use sender::Sender;
use setup::CHANNELS;
use store::Packets;
use words::{Word, frame_words};

// A word for each value.
pub fn write_all<T: Word + Copy>(words: &mut [u64], values: &[T])
    requires { length words.old ≡ length values.now }
    ensures words_after { map T.meaning words.new ≡ values.now }
    ensures words_len { length words.new ≡ length words.old }
{
    for (i, x) in values.iter().enumerate() {
        words[i] = x.to_word();
    }
}

fn store_packets(q: &mut [u64], p: Packets)
    requires { length q.old ≡ list_words }
    ensures q_after { packets_in q.new ≡ p }
    ensures q_len { length q.new ≡ list_words }
{
    write_all(&mut q[0..PLACES], &p.items);
    q[PLACES] = p.len as u64;
}

// The lists of a half: one for each channel.
fn store_lists(m: &mut [u64], lists: [Packets; CHANNELS])
    requires { length m.old ≡ 196 }
    ensures m_after { lists_in m.new ≡ lists }
    ensures m_len { length m.new ≡ 196 }
{
    for (c, list) in lists.iter().enumerate() {
        let at = LIST * c;
        store_packets(&mut m[at..at + LIST], *list);
    }
}

fn store_sender(s: &mut [u64], x: Sender)
    requires { length s.old ≡ sender_words }
    ensures s_after { sender_in s.new ≡ x }
    ensures s_len { length s.new ≡ sender_words }
{
    let queues = x.queues;
    let credits = x.credits;
    store_lists(&mut s[0..BUFFER_AT], queues);
    store_packets(&mut s[BUFFER_AT..CREDITS_AT], x.buffer);
    write_all(&mut s[CREDITS_AT..NEXT_AT], &credits);
    s[NEXT_AT] = x.next.to_word();
    s[ACKED_AT] = x.acked.to_word();
    crate::sending::write_replay(&mut s[REPLAY_AT..SENDER], x.replay);
}

fn store_receiver(r: &mut [u64], x: Receiver)
    requires { length r.old ≡ receiver_words }
    ensures r_after { receiver_in r.new ≡ x }
    ensures r_len { length r.new ≡ receiver_words }
{
    let inboxes = x.inboxes;
    let rooms = x.rooms;
    store_lists(&mut r[0..ROOMS_AT], inboxes);
    write_all(&mut r[ROOMS_AT..REPLY_AT], &rooms);
    crate::receiving::write_reply(&mut r[REPLY_AT..RECEIVER], x.reply);
}

pub fn store_end(m: &mut [u64], e: End)
    requires { length m.old ≡ end_words }
    ensures m_after { end_in e.setup m.new ≡ e }
    ensures m_len { length m.new ≡ end_words }
{
    store_sender(&mut m[0..SENDER], e.sender);
    store_receiver(&mut m[SENDER..SENDER + RECEIVER], e.receiver);
}

pub fn store_line(l: &mut [u64], x: Line)
    requires { length l.old ≡ line_words }
    ensures l_after { line_in l.new ≡ x }
    ensures l_len { length l.new ≡ line_words }
{
    for (i, slot) in x.slots.iter().enumerate() {
        let w = frame_words(slot.frame);
        l[2 * i] = w.head;
        l[2 * i + 1] = w.rest;
    }
    l[ON_IT] = x.len as u64;
}
