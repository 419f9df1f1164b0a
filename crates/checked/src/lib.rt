// The steps of a single end whose state is handed in from outside, by a host that may hand in anything: a state out of shape is refused, else the step is made.
// Assumes nothing: every function takes all values.
#![tactic(auto)]

ghost use Rattle.std.specs.Prelude.{◌≡◌, if◌then◌else◌};
ghost use Rattle.answers.specs.Answers.{answer_of};
ghost use Rattle.ends.specs.Ends.{stepped_of};
ghost use Rattle.ends.specs.Sends.{sent_of};
ghost use Rattle.shape.specs.Shape.{in_shape};
ghost use Rattle.checked.specs.Checked.{checked_submit, checked_send, checked_arrive, checked_damage, checked_take, checked_timer, checked_refresh};

use answers::{After, Refusal};
use ends::{End, Outgoing};
use frames::Frame;
use packets::Packet;

// Refused where the state is out of shape.
fn shaped(e: End) -> Result<(), Refusal>
    ensures { answer_of result ≡ (if in_shape e then 0 else 10) }
{
    if shape::in_shape(e) {
        Ok(())
    } else {
        Err(Refusal::Shape)
    }
}

// A packet joins its channel's send queue.
#[tactic(auto, using(answers::proofs::Outcomes::no_refusal_is_0), unfolding(crate::specs::Checked::guarded))]
pub fn submit(e: End, p: Packet) -> Result<After<End>, Refusal>
    ensures { stepped_of e result ≡ checked_submit e p }
{
    shaped(e)?;
    e.submit(p)
}

// The first frame that applies.
#[tactic(auto, using(answers::proofs::Outcomes::no_refusal_is_0), unfolding(crate::specs::Checked::guarded_sent))]
pub fn send(e: End) -> Result<Outgoing, Refusal>
    ensures { sent_of e result ≡ checked_send e }
{
    shaped(e)?;
    e.send()
}

// A frame arrives whole.
#[tactic(auto, using(answers::proofs::Outcomes::no_refusal_is_0), unfolding(crate::specs::Checked::guarded))]
pub fn arrive(e: End, f: Frame) -> Result<After<End>, Refusal>
    ensures { stepped_of e result ≡ checked_arrive e f }
{
    shaped(e)?;
    e.arrive(f)
}

// A frame arrives damaged.
#[tactic(auto, using(answers::proofs::Outcomes::no_refusal_is_0), unfolding(crate::specs::Checked::guarded))]
pub fn damage(e: End, f: Frame) -> Result<After<End>, Refusal>
    ensures { stepped_of e result ≡ checked_damage e f }
{
    shaped(e)?;
    Ok(e.damage(f))
}

// The oldest packet of a channel and category is handed out.
#[tactic(auto, using(answers::proofs::Outcomes::no_refusal_is_0), unfolding(crate::specs::Checked::guarded))]
pub fn take(e: End, channel: u8, category: u8) -> Result<After<End>, Refusal>
    ensures { stepped_of e result ≡ checked_take e channel category }
{
    shaped(e)?;
    e.take(channel, category)
}

// A replay starts.
#[tactic(auto, using(answers::proofs::Outcomes::no_refusal_is_0), unfolding(crate::specs::Checked::guarded))]
pub fn timer(e: End) -> Result<After<End>, Refusal>
    ensures { stepped_of e result ≡ checked_timer e }
{
    shaped(e)?;
    e.timer()
}

// All updates of channels in use are marked.
#[tactic(auto, using(answers::proofs::Outcomes::no_refusal_is_0), unfolding(crate::specs::Checked::guarded))]
pub fn refresh(e: End) -> Result<After<End>, Refusal>
    ensures { stepped_of e result ≡ checked_refresh e }
{
    shaped(e)?;
    Ok(e.refresh())
}
