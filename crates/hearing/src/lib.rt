// What a link message does at the sending half of an end: Ack, Nak and update.
// Assumes nothing: every function takes all values.
#![tactic(auto)]

ghost use Rattle.std.specs.Prelude.{◌≡◌};
ghost use Rattle.sender.specs.Sender.{told_of};
ghost use Rattle.hearing.specs.Hearing.{releases, moved, acknowledged, again, limited, answered, hears};

use answers::Refusal;
use counters::{Counts, Seq, Wrapped};
use frames::Message;
use packets::Category;
use sender::Sender;
use setup::CHANNELS;

// How many packets an accepted number releases.
fn releases(s: Sender, number: Seq) -> usize
    ensures { result ≡ releases s number }
{
    number.sub(s.acked).0 as usize
}

// Where a running replay goes on after k packets are released and `left` are left.
pub fn moved(k: usize, left: usize, at: Option<usize>) -> Option<usize>
    ensures { result ≡ moved k left at }
{
    let Some(i) = at else {
        return None;
    };
    if k <= i {
        return Some(i - k);
    }
    if left == 0 {
        return None;
    }
    Some(0)
}

// All up to an accepted number are released; the replay count is set to 0.
#[tactic(auto, unfolding(crate::specs::Hearing::acknowledged))]
fn acknowledged(s: Sender, number: Seq) -> Sender
    ensures { result ≡ acknowledged s number }
{
    let k = releases(s, number);
    let buffer = s.buffer.release(k);
    let mut r = s;
    r.buffer = buffer;
    r.acked = number;
    r.replay.at = moved(k, buffer.len, s.replay.at);
    r.replay.count = 0;
    r
}

// After a Nak a replay starts if anything is left.
fn again(s: Sender) -> Sender
    ensures { result ≡ again s }
{
    if s.buffer.len == 0 {
        return s;
    }
    s.begin()
}

// An Ack or Nak; refused where its number is not accepted.
#[tactic(auto, using(answers::proofs::Outcomes::no_refusal_is_0), unfolding(crate::specs::Hearing::answered))]
fn answered(s: Sender, number: Seq, nak: bool) -> Result<Sender, Refusal>
    ensures { told_of s result ≡ answered s number nak }
{
    s.acked.ack_answer(s.buffer.len, number)?;
    let freed = acknowledged(s, number);
    Ok(if nak { again(freed) } else { freed })
}

// An update replaces both limits of its channel and category; refused where it is not accepted, as on a channel that there is not.
#[tactic(auto, using(answers::proofs::Outcomes::no_refusal_is_0), unfolding(crate::specs::Hearing::limited, counters::specs::Counters::update_answer))]
fn limited(s: Sender, channel: u8, c: Category, limits: Counts) -> Result<Sender, Refusal>
    ensures { told_of s result ≡ limited s channel c limits }
{
    let k = channel as usize;
    if k >= CHANNELS {
        return Err(Refusal::Update);
    }
    let credit = s.credit(k, c);
    credit.update_answer(limits)?;
    Ok(s.with_credit(k, c, credit.updated(limits)))
}

// What a link message that arrived whole does.
#[tactic(auto, unfolding(crate::specs::Hearing::hears))]
pub fn hear(s: Sender, m: Message) -> Result<Sender, Refusal>
    ensures { told_of s result ≡ hears s m }
{
    match m {
        Message::Ack(number) => answered(s, number, false),
        Message::Nak(number) => answered(s, number, true),
        Message::Update {
            channel,
            category,
            counts,
        } => limited(s, channel, category, counts),
    }
}
