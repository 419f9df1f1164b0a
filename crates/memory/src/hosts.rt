// One end in memory that its host lends as words, its setup behind it, stepped there with no copy; ends_export has the same for a host in
// C or Rust. No step looks at the shape of the end: `end_shape` does. A step that is refused leaves every word as it was. Assumes
// nothing: memory of another length is refused.
ghost use Rattle.std.specs.Prelude.{◌≡◌, ◌≤◌, eqb, length};
ghost use Rattle.answers.specs.Answers.{number_of};
ghost use Rattle.memory.specs.Said.{said_of};
ghost use Rattle.ends.specs.Ends.{submit_of, arrive_of, damage_of, take_at, timer_of, refresh_of};
ghost use Rattle.ends.specs.Sends.{send_of};
ghost use Rattle.pairs.specs.Pairs.{end_at, start_of};
ghost use Rattle.words.specs.Words.{frame_in};
ghost use Rattle.memory.specs.Hosted.{hosted_words, hosted_in, is_hosted, answer_in, said_in, packet, Leaves, sending, sent_in, start_answer, started_end, shape_answer, retrains_in};

use crate::END;
use crate::sending::SENDER;
use crate::setups::SETUP;
use answers::{Refusal, answer_of};
use ends::End;
use packets::Packet;
use pairs::Pair;
use setup::Setup;
use words::{frame_in, frame_words};

// The words of an end and its setup.
const HOSTED: usize = END + SETUP;

// What a step says. A host in C reads it: hence its layout, and an answer by its number.
#[repr(C)]
#[derive(Clone, Copy)]
pub struct Said {
    pub answer: u8,
    pub detail: u32,
}

// What Send says. A frame is two words; where there is none, both are 0. A host in C reads it: hence its layout.
#[repr(C)]
#[derive(Clone, Copy)]
pub struct Sending {
    pub answer: u8,
    pub detail: u32,
    pub head: u64,
    pub rest: u64,
}

fn say(outcome: Result<u32, Refusal>) -> Said
    ensures { result ≡ said_of outcome }
{
    match outcome {
        Ok(detail) => Said { answer: 0, detail },
        Err(refusal) => Said {
            answer: refusal.number(),
            detail: 0,
        },
    }
}

fn no_frame(refusal: Refusal) -> Sending
    ensures { result ≡ sending (number_of refusal) 0 0 0 }
{
    Sending {
        answer: refusal.number(),
        detail: 0,
        head: 0,
        rest: 0,
    }
}

// A packet joins its channel's send queue.
#[tactic(auto, unfolding(crate::specs::Hosted::hosted_in))]
pub fn end_submit(m: &mut [u64], kind: u8, class: u8, length: u16, ident: u32) -> u8
    ensures value { result ≡ answer_in m.old (submit_of (hosted_in m.old) (packet kind class length ident)) }
    ensures leaves { Leaves (is_hosted m.old) result m.old m.new (submit_of (hosted_in m.old) (packet kind class length ident)).end }
{
    if m.len() != HOSTED {
        return Refusal::Shape.number();
    }
    let link = crate::setups::setup_in(&m[END..HOSTED]);
    let p = Packet {
        kind,
        class,
        length,
        ident,
    };
    answer_of(crate::one_end::submit(&mut m[0..END], link, p))
}

// The frame of these two words arrives whole.
#[tactic(auto, unfolding(crate::specs::Hosted::hosted_in))]
pub fn end_arrive(m: &mut [u64], head: u64, rest: u64) -> Said
    ensures value { result ≡ said_in m.old (arrive_of (hosted_in m.old) (frame_in head rest)) }
    ensures leaves { Leaves (is_hosted m.old) result.answer m.old m.new (arrive_of (hosted_in m.old) (frame_in head rest)).end }
{
    if m.len() != HOSTED {
        return say(Err(Refusal::Shape));
    }
    let link = crate::setups::setup_in(&m[END..HOSTED]);
    say(crate::one_end::arrive(&mut m[0..END], link, head, rest))
}

// The frame of these two words arrives damaged.
#[tactic(auto, unfolding(crate::specs::Hosted::hosted_in))]
pub fn end_damage(m: &mut [u64], head: u64, rest: u64) -> Said
    ensures value { result ≡ said_in m.old (damage_of (hosted_in m.old) (frame_in head rest)) }
    ensures leaves { Leaves (is_hosted m.old) result.answer m.old m.new (damage_of (hosted_in m.old) (frame_in head rest)).end }
{
    if m.len() != HOSTED {
        return say(Err(Refusal::Shape));
    }
    say(Ok(crate::one_end::damage(&mut m[0..END], head, rest)))
}

// The oldest packet of a channel and category leaves.
#[tactic(auto, unfolding(crate::specs::Hosted::hosted_in))]
pub fn end_take(m: &mut [u64], channel: u8, category: u8) -> Said
    ensures value { result ≡ said_in m.old (take_at (hosted_in m.old) channel category) }
    ensures leaves { Leaves (is_hosted m.old) result.answer m.old m.new (take_at (hosted_in m.old) channel category).end }
{
    if m.len() != HOSTED {
        return say(Err(Refusal::Shape));
    }
    let n = crate::setups::n_in(&m[END..HOSTED]);
    say(crate::one_end::take(&mut m[0..END], n, channel, category))
}

#[tactic(auto, unfolding(crate::specs::Hosted::hosted_in))]
pub fn end_timer(m: &mut [u64]) -> u8
    ensures value { result ≡ answer_in m.old (timer_of (hosted_in m.old)) }
    ensures leaves { Leaves (is_hosted m.old) result m.old m.new (timer_of (hosted_in m.old)).end }
{
    if m.len() != HOSTED {
        return Refusal::Shape.number();
    }
    answer_of(crate::one_end::timer(&mut m[0..END]))
}

#[tactic(auto, unfolding(crate::specs::Hosted::hosted_in, ends::specs::Ends::refresh_of))]
pub fn end_refresh(m: &mut [u64]) -> u8
    ensures value { result ≡ answer_in m.old (refresh_of (hosted_in m.old)) }
    ensures leaves { Leaves (is_hosted m.old) result m.old m.new (refresh_of (hosted_in m.old)).end }
{
    if m.len() != HOSTED {
        return Refusal::Shape.number();
    }
    let n = crate::setups::n_in(&m[END..HOSTED]);
    crate::one_end::refresh(&mut m[0..END], n);
    0
}

// The first frame that applies; 18 where none does.
pub fn end_send(m: &mut [u64]) -> Sending
    ensures value { result ≡ sent_in m.old (send_of (hosted_in m.old)) }
    ensures leaves { Leaves (is_hosted m.old) result.answer m.old m.new (send_of (hosted_in m.old)).end }
{
    if m.len() != HOSTED {
        return no_frame(Refusal::Shape);
    }
    let Some(source) = crate::sources::first_source(&m[0..END]) else {
        return no_frame(Refusal::NoFrame);
    };
    let g = crate::sources::give(&mut m[0..END], source);
    // The words anew: bits without meaning are 0.
    let w = frame_words(frame_in(g.head, g.rest));
    Sending {
        answer: 0,
        detail: g.detail,
        head: w.head,
        rest: w.rest,
    }
}

// 10 where the end is out of shape, or there is none.
#[tactic(auto, unfolding(crate::specs::Hosted::hosted_in))]
pub fn end_shape(m: &[u64]) -> u8
    ensures { result ≡ shape_answer m.now }
{
    if m.len() != HOSTED {
        return Refusal::Shape.number();
    }
    let link = crate::setups::setup_in(&m[END..HOSTED]);
    let e = crate::loads::end_in(&m[0..END], link);
    if shape::in_shape(e) {
        0
    } else {
        Refusal::Shape.number()
    }
}

// How often the link was trained again.
#[tactic(auto, using(crate::proofs::HostLaws::sending_is))]
pub fn end_retrains(m: &[u64]) -> u16
    ensures { result ≡ retrains_in m.now }
{
    if m.len() != HOSTED {
        return 0;
    }
    crate::sending::replay(&m[0..SENDER]).retrains.0
}

// An end of the pair of this setup. One pair alone is made: a start that answers it, and another in its place where it is refused, takes twice as long.
#[tactic(auto, unfolding(pairs::specs::Pairs::start_of))]
fn started_end(link: Setup, which: usize) -> End
    requires { which ≤ 1 }
    ensures { result ≡ end_at (start_of link).pair which }
{
    let link = if link.in_range() {
        link
    } else {
        Setup::blank()
    };
    Pair::of(link).ends[which]
}

// Writes the end, and its setup behind it.
fn store_hosted(m: &mut [u64], e: End)
    requires { length m.old ≡ hosted_words }
    ensures m_after { hosted_in m.new ≡ e }
    ensures m_len { length m.new ≡ hosted_words }
{
    crate::stores::store_end(&mut m[0..END], e);
    crate::setups::store_setup(&mut m[END..HOSTED], e.setup);
}

// Starts an end of a pair, from the setup's bytes in a script.
pub fn end_start(m: &mut [u64], b: &[u8], which: u8) -> u8
    ensures value { result ≡ start_answer m.old b.now which }
    ensures leaves { Leaves (eqb result 0) result m.old m.new (started_end b.now which) }
{
    if m.len() != HOSTED {
        return Refusal::Room.number();
    }
    let link = match setup::read_setup(b) {
        Ok(link) => link,
        Err(refusal) => return refusal.number(),
    };
    if 1 < which {
        return Refusal::End.number();
    }
    store_hosted(m, started_end(link, which as usize));
    0
}
