// What a packet does at the receiving half of an end when it arrives, whole or damaged, and how it is handed out by Take.
// Assumes nothing: every function takes all values.
#![tactic(auto)]

ghost use Rattle.std.specs.Prelude.{◌≡◌, ◌<◌, OnErr};
ghost use Rattle.packets.specs.Packets.{numbered};
ghost use Rattle.setup.specs.Setup.{channels};
ghost use Rattle.receiver.specs.Receiver.{with_reply};
ghost use Rattle.delivery.specs.Delivery.{got, got_of, got_by, stored, in_sequence, arrives, damaged, is_before, take_of};

use answers::{After, Refusal};
use counters::{Order, Seq};
use credits::Room;
use packets::{Category, Packet};
use receiver::{Receiver, Reply};
use setup::CHANNELS;
use store::Packets;

fn with_reply(r: Receiver, reply: Reply) -> Receiver
    ensures { result ≡ with_reply r reply }
{
    Receiver { reply, ..r }
}

// The packet is dropped: all that changes is the reply.
fn dropped(r: Receiver, reply: Reply, detail: u32) -> After<Receiver>
    ensures { got_of r (Ok result) ≡ got (with_reply r reply) 0 detail }
{
    After {
        state: with_reply(r, reply),
        detail,
    }
}

// Accepted: the packet is stored and the received counts grow.
#[tactic(auto, unfolding(crate::specs::Delivery::stored))]
fn stored(r: Receiver, channel: usize, p: Packet) -> Receiver
    requires { channel < channels }
    ensures { result ≡ stored r channel p }
{
    let slot = p.category().slot(channel);
    let mut x = r;
    x.inboxes[channel] = r.inbox(channel).push(p);
    x.rooms[slot] = r.room(slot).receive(p.need());
    x.reply = r.reply.after_accepted();
    x
}

// The packet that is next: accepted, or over the free room.
#[tactic(auto, using(answers::proofs::Outcomes::no_refusal_is_0), unfolding(crate::specs::Delivery::in_sequence, credits::specs::Credits::room_answer))]
fn in_sequence(r: Receiver, channel: usize, p: Packet) -> Result<After<Receiver>, Refusal>
    ensures { got_of r result ≡ in_sequence r channel p }
{
    if channel >= CHANNELS {
        return Err(Refusal::OverRoom);
    }
    let slot = p.category().slot(channel);
    r.room(slot).room_answer(p.need())?;
    Ok(After {
        state: stored(r, channel, p),
        detail: 1,
    })
}

// A packet arrives whole, on this channel.
#[tactic(auto, unfolding(crate::specs::Delivery::arrives))]
pub fn arrive(
    r: Receiver,
    channel: usize,
    number: Seq,
    p: Packet,
) -> Result<After<Receiver>, Refusal>
    ensures { got_of r result ≡ arrives r channel number p }
{
    let reply = r.reply;
    match reply.next_receive.order(number) {
        Order::Next => in_sequence(r, channel, p),
        Order::Duplicate => Ok(dropped(r, reply.after_duplicate(), 2)),
        Order::OutOfOrder => Ok(dropped(r, reply.after_gap(), 3)),
    }
}

// A packet arrives damaged.
#[tactic(auto, unfolding(crate::specs::Delivery::damaged))]
pub fn damage(r: Receiver) -> Receiver
    ensures { result ≡ damaged r }
{
    with_reply(r, r.reply.after_gap())
}

// Does what was found stand before this place?
pub fn is_before(f: Option<usize>, place: usize) -> bool
    ensures { result ≡ is_before f place }
{
    match f {
        Some(i) => i < place,
        None => false,
    }
}

// Hands out the oldest packet of a channel and category, where n channels are in use, and gives its ident. Its units are free again, and their update is marked.
#[tactic(auto, unfolding(crate::specs::Delivery::take_of, crate::specs::Delivery::taken_at, crate::specs::Delivery::handed_out))]
pub fn hand_out(r: &mut Receiver, n: u8, channel: u8, category: u8) -> Result<u32, Refusal>
    ensures handed { got_by r.new result ≡ take_of r.old n channel category }
    ensures refused { OnErr result (r.new ≡ r.old) }
{
    let k = channel as usize;
    if channel >= n || k >= CHANNELS {
        return Err(Refusal::Channel);
    }
    let c = packets::category_numbered(category).ok_or(Refusal::Channel)?;
    let inbox = r.inboxes[k];
    let place = inbox.oldest(c).ok_or(Refusal::NoneWaits)?;
    if is_before(inbox.oldest(Category::Posted), place) {
        return Err(Refusal::PostedWaits);
    }
    let p = inbox.at(place);
    let slot = c.slot(k);
    r.inboxes[k] = inbox.remove(place);
    r.rooms[slot] = r.rooms[slot].give_back(p.need());
    Ok(p.ident)
}

// Take, by value: the half after a packet is handed out, with its ident.
pub fn take(r: Receiver, n: u8, channel: u8, category: u8) -> Result<After<Receiver>, Refusal>
    ensures { got_of r result ≡ take_of r n channel category }
{
    let mut state = r;
    let detail = hand_out(&mut state, n, channel, category)?;
    Ok(After { state, detail })
}
