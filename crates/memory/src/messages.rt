// What a link message does at the sending half of an end in lent words: Ack, Nak and update.
// Assumes that the half's 263 words are lent.
ghost use Rattle.std.specs.Prelude.{◌≡◌, is_ok, length};
ghost use Rattle.answers.specs.Answers.{answer_of};
ghost use Rattle.hearing.specs.Hearing.{acknowledged, again, limited, answered, hears};
ghost use Rattle.words.specs.Memory.{sender_words, sender_in};
ghost use Rattle.memory.specs.Said.{Keeps};

use crate::lists::LIST;
use crate::sending::{ACKED_AT, BUFFER_AT, CREDITS_AT, OUT_AT, REPLAY_AT};
use answers::Refusal;
use counters::{Counts, Seq, Wrapped};
use credits::Credit;
use frames::Message;
use packets::Category;
use sender::Replay;
use setup::CHANNELS;
use words::Word;

// All up to an accepted number are released; the replay count is set to 0.
fn acknowledge(s: &mut [u64], number: Seq)
    requires { length s.old ≡ sender_words }
    ensures s_after { sender_in s.new ≡ acknowledged (sender_in s.old) number }
    ensures s_len { length s.new ≡ sender_words }
{
    let running = crate::sending::replay(s);
    let k = number.sub(Seq::from_word(s[ACKED_AT])).0 as usize;
    crate::lists::release(&mut s[BUFFER_AT..BUFFER_AT + LIST], k);
    let r = Replay {
        at: hearing::moved(k, s[OUT_AT] as usize, running.at),
        count: 0,
        ..running
    };
    s[ACKED_AT] = number.to_word();
    crate::sending::write_replay(&mut s[REPLAY_AT..REPLAY_AT + 4], r);
}

// After a Nak a replay starts if anything is left.
fn again(s: &mut [u64])
    requires { length s.old ≡ sender_words }
    ensures s_after { sender_in s.new ≡ again (sender_in s.old) }
    ensures s_len { length s.new ≡ sender_words }
{
    if s[OUT_AT] != 0 {
        crate::sending::begin(s);
    }
}

// An Ack or Nak; refused where its number is not accepted.
fn answer(s: &mut [u64], number: Seq, nak: bool) -> Result<(), Refusal>
    requires { length s.old ≡ sender_words }
    ensures value { (answer_of result ≡ (answered (sender_in s.old) number nak).answer) × (sender_in s.new ≡ (answered (sender_in s.old) number nak).sender) }
    ensures s_len { length s.new ≡ sender_words }
    ensures keeps { Keeps (is_ok result) s.old s.new }
{
    Seq::from_word(s[ACKED_AT]).ack_answer(s[OUT_AT] as usize, number)?;
    acknowledge(s, number);
    if nak {
        again(s);
    }
    Ok(())
}

// An update replaces both limits of its channel and category; refused where it is not accepted, as on a channel that there is not.
#[tactic(auto, unfolding(hearing::specs::Hearing::limited))]
fn limit(s: &mut [u64], channel: u8, c: Category, limits: Counts) -> Result<(), Refusal>
    requires { length s.old ≡ sender_words }
    ensures value { (answer_of result ≡ (limited (sender_in s.old) channel c limits).answer) × (sender_in s.new ≡ (limited (sender_in s.old) channel c limits).sender) }
    ensures s_len { length s.new ≡ sender_words }
    ensures keeps { Keeps (is_ok result) s.old s.new }
{
    let n = channel as usize;
    if n >= CHANNELS {
        return Err(Refusal::Update);
    }
    let k = CREDITS_AT + 3 * n + c.number() as usize;
    let credit = Credit::from_word(s[k]);
    credit.update_answer(limits)?;
    s[k] = credit.updated(limits).to_word();
    Ok(())
}

// What a link message that arrived whole does.
#[tactic(auto, unfolding(hearing::specs::Hearing::hears))]
pub fn hear(s: &mut [u64], m: Message) -> Result<(), Refusal>
    requires { length s.old ≡ sender_words }
    ensures value { (answer_of result ≡ (hears (sender_in s.old) m).answer) × (sender_in s.new ≡ (hears (sender_in s.old) m).sender) }
    ensures s_len { length s.new ≡ sender_words }
    ensures keeps { Keeps (is_ok result) s.old s.new }
{
    match m {
        Message::Ack(number) => answer(s, number, false),
        Message::Nak(number) => answer(s, number, true),
        Message::Update {
            channel,
            category,
            counts,
        } => limit(s, channel, category, counts),
    }
}
