// The steps of one end in lent words, but Send.
// Assumes that its 474 words are lent: the sending half, then the receiving half. The setup is as the end sees it.
ghost use Rattle.std.specs.Prelude.{◌≡◌, is_ok, length};
ghost use Rattle.answers.specs.Answers.{answer_of};
ghost use Rattle.setup.specs.declared.Setup.{Setup};
ghost use Rattle.ends.specs.Ends.{submit_answer, submit_of, arrive_of, damage_of, take_at, timer_of, refresh_of};
ghost use Rattle.words.specs.Words.{frame_in};
ghost use Rattle.words.specs.Memory.{end_words, end_in};
ghost use Rattle.memory.specs.Said.{said, said_of, said_stepped, Keeps};
ghost use Rattle.memory.specs.Unasked.{frame_step};

use crate::receiving::RECEIVER;
use crate::sending::SENDER;
use answers::Refusal;
use ends::QUEUE;
use frames::Frame;
use packets::Packet;
use setup::Setup;
use words::{Word, frame_in};

// Refused by a packet rule, then for too many data units, then for a full queue.
#[tactic(auto, using(answers::proofs::Outcomes::no_refusal_is_0), unfolding(ends::specs::Ends::submit_answer, words::specs::Memory::end_in, packets::specs::Packets::need_of))]
fn submit_answer(m: &[u64], link: Setup, p: Packet) -> Result<(), Refusal>
    requires { length m.now ≡ end_words }
    ensures { answer_of result ≡ submit_answer (end_in link m.now) p }
{
    p.answer()?;
    let c = p.category();
    let channel = link.channel_of(p.class);
    let units = link.units_at(1, channel, c.number() as usize);
    if units.payload < p.need().d.0 {
        return Err(Refusal::TooManyUnits);
    }
    if QUEUE <= crate::sending::waiting(&m[0..SENDER], channel, c) {
        return Err(Refusal::QueueFull);
    }
    Ok(())
}

// A packet joins its channel's send queue.
#[tactic(auto, using(answers::proofs::Outcomes::no_refusal_is_0), unfolding(ends::specs::Ends::submit_of))]
pub fn submit(m: &mut [u64], link: Setup, p: Packet) -> Result<(), Refusal>
    requires { length m.old ≡ end_words }
    ensures value { (answer_of result ≡ (submit_of (end_in link m.old) p).answer) × (end_in link m.new ≡ (submit_of (end_in link m.old) p).end) }
    ensures m_len { length m.new ≡ end_words }
    ensures keeps { Keeps (is_ok result) m.old m.new }
{
    submit_answer(m, link, p)?;
    let channel = link.channel_of(p.class);
    crate::sending::submit(&mut m[0..SENDER], channel, p.to_word());
    Ok(())
}

// The frame of these two words arrives whole.
pub fn arrive(m: &mut [u64], link: Setup, head: u64, rest: u64) -> Result<u32, Refusal>
    requires { length m.old ≡ end_words }
    ensures value { (said_of result ≡ said_stepped (arrive_of (end_in link m.old) (frame_in head rest))) × (end_in link m.new ≡ (arrive_of (end_in link m.old) (frame_in head rest)).end) }
    ensures m_len { length m.new ≡ end_words }
    ensures keeps { Keeps (is_ok result) m.old m.new }
{
    let f = frame_in(head, rest);
    f.answer(link.n)?;
    match f {
        Frame::Packet(number, p) => {
            let channel = link.channel_of(p.class);
            crate::receiving::arrive(&mut m[SENDER..SENDER + RECEIVER], channel, number, rest)
        }
        Frame::Message(x) => {
            crate::messages::hear(&mut m[0..SENDER], x)?;
            Ok(0)
        }
    }
}

// The frame of these two words arrives damaged. This step and the next ones hold of every setup, or of every one with n channels.
pub fn damage(m: &mut [u64], head: u64, rest: u64) -> u32
    requires { length m.old ≡ end_words }
    ensures value { (link : Setup) → (said 0 result ≡ said_stepped (damage_of (end_in link m.old) (frame_in head rest))) × (end_in link m.new ≡ (damage_of (end_in link m.old) (frame_in head rest)).end) }
    ensures m_len { length m.new ≡ end_words }
{
    if let Frame::Packet(_, _) = frame_in(head, rest) {
        crate::receiving::damage(&mut m[SENDER..SENDER + RECEIVER]);
    }
    4
}

// That frame reaches the end, whole or damaged.
pub fn reach(m: &mut [u64], link: Setup, head: u64, rest: u64, whole: bool) -> Result<u32, Refusal>
    requires { length m.old ≡ end_words }
    ensures value { (said_of result ≡ said_stepped (frame_step whole (end_in link m.old) (frame_in head rest))) × (end_in link m.new ≡ (frame_step whole (end_in link m.old) (frame_in head rest)).end) }
    ensures m_len { length m.new ≡ end_words }
    ensures keeps { Keeps (is_ok result) m.old m.new }
{
    if whole {
        arrive(m, link, head, rest)
    } else {
        Ok(damage(m, head, rest))
    }
}

pub fn take(m: &mut [u64], n: u8, channel: u8, category: u8) -> Result<u32, Refusal>
    requires { length m.old ≡ end_words }
    ensures value { (link : Setup) → n ≡ link.n → (said_of result ≡ said_stepped (take_at (end_in link m.old) channel category)) × (end_in link m.new ≡ (take_at (end_in link m.old) channel category).end) }
    ensures m_len { length m.new ≡ end_words }
    ensures keeps { Keeps (is_ok result) m.old m.new }
{
    crate::receiving::take(&mut m[SENDER..SENDER + RECEIVER], n, channel, category)
}

pub fn timer(m: &mut [u64]) -> Result<(), Refusal>
    requires { length m.old ≡ end_words }
    ensures value { (link : Setup) → (answer_of result ≡ (timer_of (end_in link m.old)).answer) × (end_in link m.new ≡ (timer_of (end_in link m.old)).end) }
    ensures m_len { length m.new ≡ end_words }
    ensures keeps { Keeps (is_ok result) m.old m.new }
{
    crate::sending::timer(&mut m[0..SENDER])
}

pub fn refresh(m: &mut [u64], n: u8)
    requires { length m.old ≡ end_words }
    ensures m_after { (link : Setup) → n ≡ link.n → end_in link m.new ≡ (refresh_of (end_in link m.old)).end }
    ensures m_len { length m.new ≡ end_words }
{
    crate::receiving::refresh(&mut m[SENDER..SENDER + RECEIVER], n);
}
