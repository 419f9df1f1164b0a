// Is the state of an end in shape? A step on a state that is out of shape answers 10.
// One function for each rule of document 01. Assumes nothing: every function takes all values, also lengths past the end.
#![tactic(auto)]

ghost use Rattle.std.specs.Prelude.{◌≡◌, ◌+◌, ◌<◌, eqb, get_or};
ghost use Rattle.basics.specs.Each.{each};
ghost use Rattle.credits.specs.Credits.{none, credit_for, room_of};
ghost use Rattle.setup.specs.Setup.{channels, per_end};
ghost use Rattle.store.specs.Store.{empty, held, of_category};
ghost use Rattle.shape.specs.Shape.{queue_bound, inbox_bound, within_bounds, is_on, all_on, in_place, well_formed, all_formed, frames_fit, counts_fit, credit_fits, room_fits, sent_fit, received_fit, numbers_fit, numbers_run, place_in, replay_in, mark_in_use, marks_in_use, adds_up, category_adds_up, channel_adds_up, room_adds_up, in_shape};

use counters::{Counts, Data, Seq, Wrapped};
use credits::{Credit, Room};
use ends::End;
use packets::{Category, Packet};
use receiver::Receiver;
use sender::{BUFFER, Sender};
use setup::{CHANNELS, PER_END, Setup, Units};
use store::Packets;

// The most packets of a category in a send queue.
const QUEUE: usize = 8;
// The places of a list of packets.
const CAPACITY: usize = 48;

// ---- a queue, buffer or line is over its bound

#[tactic(auto, unfolding(crate::specs::Shape::queue_bound))]
fn queue_bound(q: Packets) -> bool
    ensures { result ≡ queue_bound q }
{
    q.len <= CAPACITY
        && q.count_of(Category::Posted) <= QUEUE
        && q.count_of(Category::NonPosted) <= QUEUE
        && q.count_of(Category::Completion) <= QUEUE
}

fn within_bounds(s: Sender, r: Receiver) -> bool
    ensures { result ≡ within_bounds s r }
{
    s.queues.iter().all(|q| queue_bound(*q))
        && s.buffer.len <= BUFFER
        && r.inboxes.iter().all(|inbox| inbox.len <= CAPACITY)
}

// ---- a packet lies outside the queue or buffer of its channel and category

fn is_on(link: Setup, channel: usize, p: Packet) -> bool
    ensures { result ≡ is_on link channel p }
{
    link.channel_of(p.class) == channel
}

fn all_on(link: Setup, channel: usize, q: Packets) -> bool
    ensures { result ≡ all_on link channel q }
{
    q.items[..q.size()].iter().all(|p| is_on(link, channel, *p))
}

// The lists of all channels: the send queues, or the receive buffers.
fn lists_on(link: Setup, lists: [Packets; CHANNELS]) -> bool
    ensures { result ≡ each channels (λ channel. all_on link channel (get_or lists channel empty)) }
{
    lists
        .iter()
        .enumerate()
        .all(|(channel, list)| all_on(link, channel, *list))
}

#[tactic(auto, unfolding(crate::specs::Shape::in_place))]
fn in_place(link: Setup, s: Sender, r: Receiver) -> bool
    ensures { result ≡ in_place link s r }
{
    lists_on(link, s.queues) && lists_on(link, r.inboxes)
}

// ---- 27 would refuse a stored frame

#[tactic(auto, using(answers::proofs::Outcomes::accepts))]
fn well_formed(p: Packet) -> bool
    ensures { result ≡ well_formed p }
{
    p.answer().is_ok()
}

fn all_formed(q: Packets) -> bool
    ensures { result ≡ all_formed q }
{
    q.items[..q.size()].iter().all(|p| well_formed(*p))
}

fn lists_formed(lists: [Packets; CHANNELS]) -> bool
    ensures { result ≡ each channels (λ channel. all_formed (get_or lists channel empty)) }
{
    lists.iter().all(|list| all_formed(*list))
}

#[tactic(auto, unfolding(crate::specs::Shape::frames_fit))]
fn frames_fit(s: Sender, r: Receiver) -> bool
    ensures { result ≡ frames_fit s r }
{
    lists_formed(s.queues) && all_formed(s.buffer) && lists_formed(r.inboxes)
}

// ---- a stored number leaves its range

fn counts_fit(c: Counts) -> bool
    ensures { result ≡ counts_fit c }
{
    c.d.0 < Data::RANGE
}

fn credit_fits(c: Credit) -> bool
    ensures { result ≡ credit_fits c }
{
    counts_fit(c.limit) && counts_fit(c.consumed)
}

fn room_fits(m: Room) -> bool
    ensures { result ≡ room_fits m }
{
    counts_fit(m.allocated) && counts_fit(m.received)
}

fn sent_fit(s: Sender) -> bool
    ensures { result ≡ sent_fit s }
{
    s.credits.iter().all(|c| credit_fits(*c))
        && s.next.0 < Seq::RANGE
        && s.acked.0 < Seq::RANGE
        && s.replay.count <= 3
}

fn received_fit(r: Receiver) -> bool
    ensures { result ≡ received_fit r }
{
    r.rooms.iter().all(|m| room_fits(*m)) && r.reply.next_receive.0 < Seq::RANGE
}

#[tactic(auto, unfolding(crate::specs::Shape::numbers_fit))]
fn numbers_fit(s: Sender, r: Receiver) -> bool
    ensures { result ≡ numbers_fit s r }
{
    sent_fit(s) && received_fit(r)
}

// ---- the replay buffer's numbers don't run from the last acknowledged + 1 to the next to be given - 1

#[tactic(auto, unfolding(crate::specs::Shape::numbers_run))]
fn numbers_run(s: Sender) -> bool
    ensures { result ≡ numbers_run s }
{
    s.acked.next().after(s.buffer.len).0 == s.next.0
}

// ---- a running replay's next packet isn't in that buffer

fn place_in(at: Option<usize>, len: usize) -> bool
    ensures { result ≡ place_in at len }
{
    match at {
        Some(i) => i < len,
        None => true,
    }
}

#[tactic(auto, unfolding(crate::specs::Shape::replay_in))]
fn replay_in(s: Sender) -> bool
    ensures { result ≡ replay_in s }
{
    place_in(s.replay.at, s.buffer.len)
}

// ---- a mark stands on an unused channel

fn mark_in_use(n: u8, slot: usize, m: Room) -> bool
    ensures { result ≡ mark_in_use n slot m }
{
    !m.marked || slot < 3 * (n as usize)
}

fn marks_in_use(n: u8, r: Receiver) -> bool
    ensures { result ≡ marks_in_use n r }
{
    r.rooms
        .iter()
        .enumerate()
        .all(|(slot, m)| mark_in_use(n, slot, *m))
}

// ---- free room and the units waiting don't add up to the setup's units

// Free and waiting together are `units`. They are not added, as a sum may be too large.
fn together(free: usize, waiting: usize, units: usize) -> bool
    ensures { result ≡ eqb (free + waiting) units }
{
    free <= units && waiting == units - free
}

// The packets of category c in a receive buffer, with their room.
#[tactic(auto, unfolding(crate::specs::Shape::adds_up))]
fn adds_up(m: Room, inbox: Packets, c: Category, u: Units) -> bool
    ensures { result ≡ adds_up m (of_category c (held inbox)) u }
{
    let free = m.free();
    together(free.h.0 as usize, inbox.count_of(c), u.header as usize)
        && together(free.d.0 as usize, inbox.data_of(c), u.payload as usize)
}

#[tactic(auto, unfolding(crate::specs::Shape::category_adds_up))]
fn category_adds_up(link: Setup, r: Receiver, channel: usize, c: Category) -> bool
    requires { channel < channels }
    ensures { result ≡ category_adds_up link r channel c }
{
    let u = link.units_at(0, channel, c.number() as usize);
    adds_up(r.room(c.slot(channel)), r.inbox(channel), c, u)
}

fn channel_adds_up(link: Setup, r: Receiver, channel: usize) -> bool
    requires { channel < channels }
    ensures { result ≡ channel_adds_up link r channel }
{
    category_adds_up(link, r, channel, Category::Posted)
        && category_adds_up(link, r, channel, Category::NonPosted)
        && category_adds_up(link, r, channel, Category::Completion)
}

fn room_adds_up(link: Setup, r: Receiver) -> bool
    ensures { result ≡ room_adds_up link r }
{
    (0..CHANNELS).all(|channel| channel_adds_up(link, r, channel))
}

// ---- the state is in shape

// Is the state of an end in shape?
#[tactic(auto, unfolding(crate::specs::Shape::in_shape))]
pub fn in_shape(e: End) -> bool
    ensures { result ≡ in_shape e }
{
    let link = e.setup;
    let s = e.sender;
    let r = e.receiver;
    link.in_range()
        && within_bounds(s, r)
        && in_place(link, s, r)
        && frames_fit(s, r)
        && numbers_fit(s, r)
        && numbers_run(s)
        && replay_in(s)
        && marks_in_use(link.n, r)
        && room_adds_up(link, r)
}
