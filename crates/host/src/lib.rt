// An end that lives with its host and is stepped there: thin functions over a `&mut End`.
// All but Arrive and Send change a part of it in place. A refusal leaves the end as it was.
// No step looks at the shape of the state. An exported function takes nothing that holds an enum, as an end does, so these are for hosts in Rattle, and a frame is a `Frame`.
// Assumes nothing: every function takes all values.
#![tactic(auto)]

ghost use Rattle.std.specs.Prelude.{◌≡◌, Ok};
ghost use Rattle.answers.specs.Answers.{answer_of};
ghost use Rattle.ends.specs.Ends.{submit_of, take_at, timer_of, refresh_of, damage_of, arrive_of};
ghost use Rattle.ends.specs.Sends.{send_of};
ghost use Rattle.host.specs.Host.{said_of, said_by, outgoing_of, outgoing_by};

use answers::Refusal;
use ends::End;
use frames::Frame;
use packets::Packet;

// What Send gives: the frame for the line, and which it is.
#[derive(Clone, Copy)]
pub struct Given {
    pub frame: Frame,
    pub detail: u32,
}

// Submit: a packet joins its channel's send queue. In place, since `Sender::submit` by value would copy the sending half.
#[tactic(auto, unfolding(ends::specs::Ends::submit_of, sender::specs::Sender::submitted))]
pub fn end_submit(e: &mut End, p: Packet) -> Result<(), Refusal>
    ensures { (answer_of result ≡ (submit_of e.old p).answer) × (e.new ≡ (submit_of e.old p).end) }
{
    e.submit_answer(p)?;
    let channel = e.setup.channel_of(p.class);
    if let Some(queue) = e.sender.queues.get(channel) {
        e.sender.queues[channel] = queue.push(p);
    }
    Ok(())
}

// Take: the oldest packet of a channel and category is handed out, and its ident is given.
pub fn end_take(e: &mut End, channel: u8, category: u8) -> Result<u32, Refusal>
    ensures { (said_by result ≡ said_of (take_at e.old channel category)) × (e.new ≡ (take_at e.old channel category).end) }
{
    delivery::hand_out(&mut e.receiver, e.setup.n, channel, category)
}

// Timer: a replay starts. In place, since `Sender::timer` by value would copy the sending half.
#[tactic(auto, unfolding(sender::specs::Sender::timer_of))]
pub fn end_timer(e: &mut End) -> Result<(), Refusal>
    ensures { (answer_of result ≡ (timer_of e.old).answer) × (e.new ≡ (timer_of e.old).end) }
{
    if e.sender.buffer.len == 0 {
        return Err(Refusal::NothingOut);
    }
    e.sender.replay = e.sender.replay.begin();
    Ok(())
}

// Refresh: all updates of channels in use are marked. It is never refused.
#[tactic(auto, unfolding(ends::specs::Ends::refresh_of))]
pub fn end_refresh(e: &mut End)
    ensures { (answer_of (Ok result) ≡ (refresh_of e.old).answer) × (e.new ≡ (refresh_of e.old).end) }
{
    e.receiver = e.receiver.refresh(e.setup.n);
}

// A frame arrives damaged. It is never refused.
#[tactic(auto, unfolding(ends::specs::Ends::damage_of, delivery::specs::Delivery::damaged))]
pub fn end_damage(e: &mut End, f: Frame) -> u32
    ensures { (said_by (Ok result) ≡ said_of (damage_of e.old f)) × (e.new ≡ (damage_of e.old f).end) }
{
    if let Frame::Packet(_, _) = f {
        e.receiver.reply = e.receiver.reply.after_gap();
    }
    4
}

// A frame arrives whole.
pub fn end_arrive(e: &mut End, f: Frame) -> Result<u32, Refusal>
    ensures { (said_by result ≡ said_of (arrive_of e.old f)) × (e.new ≡ (arrive_of e.old f).end) }
{
    let after = e.arrive(f)?;
    *e = after.state;
    Ok(after.detail)
}

// Send: the first frame that applies.
pub fn end_send(e: &mut End) -> Result<Given, Refusal>
    ensures { (outgoing_by result ≡ outgoing_of (send_of e.old)) × (e.new ≡ (send_of e.old).end) }
{
    let sent = e.send()?;
    *e = sent.end;
    Ok(Given {
        frame: sent.frame,
        detail: sent.detail,
    })
}
