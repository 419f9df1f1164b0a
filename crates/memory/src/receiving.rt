// The receiving half of an end in lent words: its receive buffers, rooms and reply, what arrives there, and Take.
// Assumes that its 211 words are lent: four lists, twelve rooms, the reply.
ghost use Rattle.std.specs.Prelude.{◌≡◌, ◌<◌, eqb, is_ok, length, position};
ghost use Rattle.credits.specs.Credits.{marked};
ghost use Rattle.basics.specs.Lists.{find};
ghost use Rattle.packets.specs.Packets.{slot_of};
ghost use Rattle.store.specs.Store.{held, at, pushed, removed, is_of};
ghost use Rattle.setup.specs.Setup.{channels, per_end};
ghost use Rattle.receiver.specs.Receiver.{inbox_at, with_reply, with_room, cleared, is_marked, first_marked, room_at, told, refreshed};
ghost use Rattle.delivery.specs.Delivery.{stored, in_sequence, arrives, damaged, handed_out, taken, take_of};
ghost use Rattle.words.specs.Words.{packet_in, room_in};
ghost use Rattle.words.specs.Memory.{receiver_words, reply_in, receiver_in};
ghost use Rattle.memory.specs.Said.{said, said_got, said_of, Keeps};
ghost use Rattle.memory.specs.Receiving.{with_inbox};

use crate::lists::LIST;
use answers::Refusal;
use counters::{Order, Seq};
use credits::Room;
use packets::{Category, Packet};
use receiver::{Owed, Reply};
use setup::{CHANNELS, PER_END};
use words::Word;

// Where the parts stand. The receive buffers are first.
pub const ROOMS_AT: usize = 196;

pub const REPLY_AT: usize = 208;

pub const RECEIVER: usize = 211;

// The reply, of its three words.
fn reply_in(x: &[u64]) -> Reply
    requires { length x.now ≡ 3 }
    ensures { result ≡ reply_in x.now }
{
    Reply {
        next_receive: Seq::from_word(x[0]),
        nak_sent: x[1] != 0,
        owed: Owed::from_word(x[2]),
    }
}

pub fn write_reply(x: &mut [u64], reply: Reply)
    requires { length x.old ≡ 3 }
    ensures x_after { reply_in x.new ≡ reply }
    ensures x_len { length x.new ≡ 3 }
{
    x[0] = reply.next_receive.to_word();
    x[1] = u64::from(reply.nak_sent);
    x[2] = reply.owed.to_word();
}

pub fn reply(r: &[u64]) -> Reply
    requires { length r.now ≡ receiver_words }
    ensures { result ≡ (receiver_in r.now).reply }
{
    reply_in(&r[REPLY_AT..REPLY_AT + 3])
}

fn put_reply(r: &mut [u64], x: Reply)
    requires { length r.old ≡ receiver_words }
    ensures r_after { receiver_in r.new ≡ with_reply (receiver_in r.old) x }
    ensures r_len { length r.new ≡ receiver_words }
{
    write_reply(&mut r[REPLY_AT..REPLY_AT + 3], x);
}

// What is owed is told: nothing is owed.
pub fn clear(r: &mut [u64])
    requires { length r.old ≡ receiver_words }
    ensures r_after { receiver_in r.new ≡ cleared (receiver_in r.old) }
    ensures r_len { length r.new ≡ receiver_words }
{
    let x = Reply {
        owed: Owed::Nothing,
        ..reply(r)
    };
    put_reply(r, x);
}

// The slot of the first marked update.
pub fn first_marked(r: &[u64]) -> Option<usize>
    requires { length r.now ≡ receiver_words }
    ensures { result ≡ first_marked (receiver_in r.now) }
{
    r[ROOMS_AT..REPLY_AT]
        .iter()
        .position(|w| Room::from_word(*w).marked)
}

// The word of a slot's room.
pub fn room(r: &[u64], slot: usize) -> u64
    requires { (length r.now ≡ receiver_words) × (slot < per_end) }
    ensures { room_in result ≡ room_at (receiver_in r.now) slot }
{
    r[ROOMS_AT + slot]
}

fn put_room(r: &mut [u64], slot: usize, x: Room)
    requires { (length r.old ≡ receiver_words) × (slot < per_end) }
    ensures r_after { receiver_in r.new ≡ with_room (receiver_in r.old) slot x }
    ensures r_len { length r.new ≡ receiver_words }
{
    r[ROOMS_AT + slot] = x.to_word();
}

// The update of a slot is told: its mark is cleared.
pub fn tell(r: &mut [u64], slot: usize)
    requires { (length r.old ≡ receiver_words) × (slot < per_end) }
    ensures r_after { receiver_in r.new ≡ told (receiver_in r.old) slot }
    ensures r_len { length r.new ≡ receiver_words }
{
    let x = Room::from_word(room(r, slot)).unmark();
    put_room(r, slot, x);
}

// The word with its update marked.
fn marked_word(w: u64) -> u64
    ensures { room_in result ≡ marked (room_in w) }
{
    Room::from_word(w).mark().to_word()
}

// Marks all updates of the n channels in use.
pub fn refresh(r: &mut [u64], n: u8)
    requires { length r.old ≡ receiver_words }
    ensures r_after { receiver_in r.new ≡ refreshed (receiver_in r.old) n }
    ensures r_len { length r.new ≡ receiver_words }
{
    let used = PER_END.min(3 * usize::from(n));
    for i in 0..used {
        let k = ROOMS_AT + i;
        r[k] = marked_word(r[k]);
    }
}

// The word of the packet at a place of a channel's receive buffer.
fn word_at(r: &[u64], channel: usize, place: usize) -> u64
    requires { (length r.now ≡ receiver_words) × (channel < channels) }
    ensures { packet_in result ≡ at (inbox_at (receiver_in r.now) channel) place }
{
    let k = LIST * channel;
    crate::lists::word_at(&r[k..k + LIST], place)
}

// The place of the oldest packet of category c in a channel's receive buffer.
fn oldest(r: &[u64], channel: usize, c: Category) -> Option<usize>
    requires { (length r.now ≡ receiver_words) × (channel < channels) }
    ensures { result ≡ find (is_of c) (held (inbox_at (receiver_in r.now) channel)) 0 }
{
    let k = LIST * channel;
    crate::lists::oldest(&r[k..k + LIST], c)
}

// One more packet in a channel's receive buffer.
fn push(r: &mut [u64], channel: usize, w: u64)
    requires { (length r.old ≡ receiver_words) × (channel < channels) }
    ensures r_after { receiver_in r.new ≡ with_inbox (receiver_in r.old) channel (pushed (inbox_at (receiver_in r.old) channel) (packet_in w)) }
    ensures r_len { length r.new ≡ receiver_words }
{
    let k = LIST * channel;
    crate::lists::push(&mut r[k..k + LIST], w);
}

// A channel's receive buffer without the packet at a place.
fn remove(r: &mut [u64], channel: usize, place: usize)
    requires { (length r.old ≡ receiver_words) × (channel < channels) }
    ensures r_after { receiver_in r.new ≡ with_inbox (receiver_in r.old) channel (removed (inbox_at (receiver_in r.old) channel) place) }
    ensures r_len { length r.new ≡ receiver_words }
{
    let k = LIST * channel;
    crate::lists::remove(&mut r[k..k + LIST], place);
}

// Accepted: the packet of this word is stored and the received counts grow.
fn store(r: &mut [u64], channel: usize, w: u64)
    requires { (length r.old ≡ receiver_words) × (channel < channels) }
    ensures r_after { receiver_in r.new ≡ stored (receiver_in r.old) channel (packet_in w) }
    ensures r_len { length r.new ≡ receiver_words }
{
    let p = Packet::from_word(w);
    let slot = p.category().slot(channel);
    let grown = Room::from_word(room(r, slot)).receive(p.need());
    let x = reply(r).after_accepted();
    push(r, channel, w);
    put_room(r, slot, grown);
    put_reply(r, x);
}

// The packet that is next: accepted, or over the free room.
#[tactic(auto, using(answers::proofs::Outcomes::no_refusal_is_0), unfolding(delivery::specs::Delivery::in_sequence, credits::specs::Credits::room_answer))]
fn in_sequence(r: &mut [u64], channel: usize, w: u64) -> Result<u32, Refusal>
    requires { length r.old ≡ receiver_words }
    ensures value { (said_of result ≡ said_got (in_sequence (receiver_in r.old) channel (packet_in w))) × (receiver_in r.new ≡ (in_sequence (receiver_in r.old) channel (packet_in w)).receiver) }
    ensures r_len { length r.new ≡ receiver_words }
    ensures keeps { Keeps (is_ok result) r.old r.new }
{
    if channel >= CHANNELS {
        return Err(Refusal::OverRoom);
    }
    let p = Packet::from_word(w);
    let slot = p.category().slot(channel);
    Room::from_word(room(r, slot)).room_answer(p.need())?;
    store(r, channel, w);
    Ok(1)
}

// The packet is dropped: all that changes is the reply.
fn drop_packet(r: &mut [u64], x: Reply, detail: u32) -> Result<u32, Refusal>
    requires { length r.old ≡ receiver_words }
    ensures value { (said_of result ≡ said 0 detail) × (receiver_in r.new ≡ with_reply (receiver_in r.old) x) }
    ensures r_len { length r.new ≡ receiver_words }
{
    put_reply(r, x);
    Ok(detail)
}

// The packet of this word arrives whole, on this channel.
#[tactic(auto, unfolding(delivery::specs::Delivery::arrives))]
pub fn arrive(r: &mut [u64], channel: usize, number: Seq, w: u64) -> Result<u32, Refusal>
    requires { length r.old ≡ receiver_words }
    ensures value { (said_of result ≡ said_got (arrives (receiver_in r.old) channel number (packet_in w))) × (receiver_in r.new ≡ (arrives (receiver_in r.old) channel number (packet_in w)).receiver) }
    ensures r_len { length r.new ≡ receiver_words }
    ensures keeps { Keeps (is_ok result) r.old r.new }
{
    let x = reply(r);
    match x.next_receive.order(number) {
        Order::Next => in_sequence(r, channel, w),
        Order::Duplicate => drop_packet(r, x.after_duplicate(), 2),
        Order::OutOfOrder => drop_packet(r, x.after_gap(), 3),
    }
}

// A packet arrives damaged.
pub fn damage(r: &mut [u64])
    requires { length r.old ≡ receiver_words }
    ensures r_after { receiver_in r.new ≡ damaged (receiver_in r.old) }
    ensures r_len { length r.new ≡ receiver_words }
{
    let x = reply(r).after_gap();
    put_reply(r, x);
}

// The packet at this place leaves: its units are free again, and their update is marked. Its word comes back.
fn hand_out(r: &mut [u64], channel: usize, c: Category, place: usize) -> u64
    requires { (length r.old ≡ receiver_words) × (channel < channels) }
    ensures result_value { (packet_in result ≡ at (inbox_at (receiver_in r.old) channel) place) × (receiver_in r.new ≡ handed_out (receiver_in r.old) channel c place) }
    ensures r_len { length r.new ≡ receiver_words }
{
    let w = word_at(r, channel, place);
    let p = Packet::from_word(w);
    let slot = c.slot(channel);
    let grown = Room::from_word(room(r, slot)).give_back(p.need());
    remove(r, channel, place);
    put_room(r, slot, grown);
    w
}

// Takes the oldest packet of this category of a channel.
#[tactic(auto, unfolding(delivery::specs::Delivery::taken_at))]
fn take_of(r: &mut [u64], channel: usize, c: Category) -> Result<u32, Refusal>
    requires { (length r.old ≡ receiver_words) × (channel < channels) }
    ensures value { (said_of result ≡ said_got (taken (receiver_in r.old) channel c)) × (receiver_in r.new ≡ (taken (receiver_in r.old) channel c).receiver) }
    ensures r_len { length r.new ≡ receiver_words }
    ensures keeps { Keeps (is_ok result) r.old r.new }
{
    let place = oldest(r, channel, c).ok_or(Refusal::NoneWaits)?;
    if delivery::is_before(oldest(r, channel, Category::Posted), place) {
        return Err(Refusal::PostedWaits);
    }
    Ok(Packet::from_word(hand_out(r, channel, c, place)).ident)
}

// Take by channel and category, where n channels are in use.
#[tactic(auto, unfolding(delivery::specs::Delivery::take_of))]
pub fn take(r: &mut [u64], n: u8, channel: u8, category: u8) -> Result<u32, Refusal>
    requires { length r.old ≡ receiver_words }
    ensures value { (said_of result ≡ said_got (take_of (receiver_in r.old) n channel category)) × (receiver_in r.new ≡ (take_of (receiver_in r.old) n channel category).receiver) }
    ensures r_len { length r.new ≡ receiver_words }
    ensures keeps { Keeps (is_ok result) r.old r.new }
{
    let k = channel as usize;
    if channel >= n || k >= CHANNELS {
        return Err(Refusal::Channel);
    }
    let c = packets::category_numbered(category).ok_or(Refusal::Channel)?;
    take_of(r, k, c)
}
