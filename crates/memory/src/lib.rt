// A pair in memory that its host lends as words, stepped there: no step copies a list, an end or a line. What the words mean
// stands in words/specs/Memory. No step looks at the shape of the pair. A step that is refused leaves every word as it was.
// Assumes nothing: `step` takes every memory.
#![tactic(auto)]

pub mod hosts;
mod lines;
mod lists;
mod loads;
mod messages;
mod one_end;
mod receiving;
mod sending;
mod setups;
mod sources;
mod stores;

ghost use Rattle.std.specs.Prelude.{◌≡◌, ◌≤◌, eqb, is_ok, length, if◌then◌else◌};
ghost use Rattle.setup.specs.Setup.{blank_setup};
ghost use Rattle.pairs.specs.Pairs.{start_of, send_at, reach_at, lose_at};
ghost use Rattle.pairs.specs.Steps.{act};
ghost use Rattle.words.specs.Memory.{end_words, end_in, pair_words, pair_in};
ghost use Rattle.memory.specs.Said.{said, said_of, said_stepped, said_done, Keeps};
ghost use Rattle.memory.specs.Unasked.{setups_of, end_step, frame_step, unasked};

use answers::Refusal;
use lines::{LINE, ON_IT};
use pairs::Pair;
use script::{Action, Step};
use setup::Setup;

// The words of a pair: two ends, then two lines.
pub const WORDS: usize = 1014;
// Parts of the memory are lent as slices, whose lengths the contracts state. Arrays would have them in their types, but a part
// becomes an array only by a conversion that may fail, and each call would have an arm for what never comes.

// The words of an end.
const END: usize = sending::SENDER + receiving::RECEIVER;
// Where the lines stand.
const LINES_AT: usize = 948;

// Where the frame comes from.
#[derive(Clone, Copy)]
pub enum Source {
    Nak,
    Ack,
    Update(usize),
    Replay(usize),
    New { channel: usize, place: usize },
}

// The two words of the frame, and the detail.
#[derive(Clone, Copy)]
pub struct Given {
    pub head: u64,
    pub rest: u64,
    pub detail: u32,
}

// The frame of end i goes on the line to the other end.
fn send_at(m: &mut [u64], links: [Setup; 2], i: usize) -> Result<u32, Refusal>
    requires { (length m.old ≡ pair_words) × (i ≤ 1) }
    ensures value { (said_of result ≡ said_done (send_at (pair_in links m.old) i)) × (pair_in links m.new ≡ (send_at (pair_in links m.old) i).pair) }
    ensures m_len { length m.new ≡ pair_words }
    ensures keeps { Keeps (is_ok result) m.old m.new }
{
    let e = END * i;
    let l = LINES_AT + LINE * (1 - i);
    let source = sources::first_source(&m[e..e + END]).ok_or(Refusal::NoFrame)?;
    if lines::is_full(&m[l..l + LINE]) {
        return Err(Refusal::LineFull);
    }
    let g = sources::give(&mut m[e..e + END], source);
    lines::put(&mut m[l..l + LINE], g.head, g.rest);
    Ok(g.detail)
}

// The oldest frame on the line to end i reaches it, whole or damaged. If the end refuses it, it stays on the line.
// A flag and no closure: one over lent words would need its condition and its result stated over all lists of that length.
fn reach_at(m: &mut [u64], links: [Setup; 2], i: usize, whole: bool) -> Result<u32, Refusal>
    requires { (length m.old ≡ pair_words) × (i ≤ 1) }
    ensures value { (said_of result ≡ said_done (reach_at (frame_step whole) (pair_in links m.old) i)) × (pair_in links m.new ≡ (reach_at (frame_step whole) (pair_in links m.old) i).pair) }
    ensures m_len { length m.new ≡ pair_words }
    ensures keeps { Keeps (is_ok result) m.old m.new }
{
    let e = END * i;
    let l = LINES_AT + LINE * i;
    if m[l + ON_IT] == 0 {
        return Err(Refusal::LineEmpty);
    }
    let head = m[l];
    let rest = m[l + 1];
    let detail = one_end::reach(&mut m[e..e + END], links[i], head, rest, whole)?;
    lines::leave(&mut m[l..l + LINE]);
    Ok(detail)
}

// The oldest frame on the line to end i vanishes.
fn lose_at(m: &mut [u64], links: [Setup; 2], i: usize) -> Result<u32, Refusal>
    requires { (length m.old ≡ pair_words) × (i ≤ 1) }
    ensures value { (said_of result ≡ said_done (lose_at (pair_in links m.old) i)) × (pair_in links m.new ≡ (lose_at (pair_in links m.old) i).pair) }
    ensures m_len { length m.new ≡ pair_words }
    ensures keeps { Keeps (is_ok result) m.old m.new }
{
    let l = LINES_AT + LINE * i;
    if m[l + ON_IT] == 0 {
        return Err(Refusal::LineEmpty);
    }
    lines::leave(&mut m[l..l + LINE]);
    Ok(0)
}

// A step of the end of these words alone: Submit, Take, Timer; else Refresh.
#[tactic(auto, unfolding(ends::specs::Ends::refresh_of))]
fn step_end(m: &mut [u64], link: Setup, t: Step) -> Result<u32, Refusal>
    requires { length m.old ≡ end_words }
    ensures value { (said_of result ≡ said_stepped (end_step (end_in link m.old) t)) × (end_in link m.new ≡ (end_step (end_in link m.old) t).end) }
    ensures m_len { length m.new ≡ end_words }
    ensures keeps { Keeps (is_ok result) m.old m.new }
{
    match t.action() {
        Some(Action::Submit) => {
            one_end::submit(m, link, pairs::packet_of(t))?;
            Ok(0)
        }
        Some(Action::Take) => {
            let channel = pairs::capped(255, t.class);
            let category = pairs::capped(255, t.kind);
            one_end::take(m, link.n, channel as u8, category as u8)
        }
        Some(Action::Timer) => {
            one_end::timer(m)?;
            Ok(0)
        }
        _ => {
            one_end::refresh(m, link.n);
            Ok(0)
        }
    }
}

// The step, of an end there is, in form.
#[tactic(auto, unfolding(pairs::specs::Steps::act, pairs::specs::Pairs::by_end))]
fn act(m: &mut [u64], links: [Setup; 2], t: Step) -> Result<u32, Refusal>
    requires { (length m.old ≡ pair_words) × (t.end ≤ 1) }
    ensures value { (said_of result ≡ said_done (act (pair_in links m.old) t)) × (pair_in links m.new ≡ (act (pair_in links m.old) t).pair) }
    ensures m_len { length m.new ≡ pair_words }
    ensures keeps { Keeps (is_ok result) m.old m.new }
{
    let i = t.end as usize;
    match t.action() {
        Some(Action::Send) => send_at(m, links, i),
        Some(Action::Arrive) => reach_at(m, links, i, true),
        Some(Action::Damage) => reach_at(m, links, i, false),
        Some(Action::Lose) => lose_at(m, links, i),
        _ => {
            let e = END * i;
            step_end(&mut m[e..e + END], links[i], t)
        }
    }
}

// One step of the pair in this memory; memory of another length holds no pair. The setups stand beside the words and in no struct with
// them: it would hold the borrow of the words, and be built anew at each step.
#[tactic(auto, unfolding(crate::specs::Unasked::unasked))]
pub fn step(m: &mut [u64], links: [Setup; 2], t: Step) -> Result<u32, Refusal>
    ensures value { said_of result ≡ (if eqb (length m.old) pair_words then said_done (unasked (pair_in links m.old) t) else said 10 0) }
    ensures m_after { pair_in links m.new ≡ (if eqb (length m.old) pair_words then (unasked (pair_in links m.old) t).pair else pair_in links m.old) }
    ensures m_len_unchanged { length m.new ≡ length m.old }
    ensures keeps { Keeps (is_ok result) m.old m.new }
{
    if m.len() != WORDS {
        return Err(Refusal::Shape);
    }
    if 1 < t.end {
        return Err(Refusal::End);
    }
    if !script::formed(t) {
        return Err(Refusal::Form);
    }
    act(m, links, t)
}

// The pair in this memory. Memory of another length holds none: the pair of the blank setup.
pub fn load(m: &[u64], links: [Setup; 2]) -> Pair
    ensures { result ≡ (if eqb (length m.now) pair_words then pair_in links m.now else (start_of blank_setup).pair) }
{
    if m.len() != WORDS {
        return Pair::of(Setup::blank());
    }
    let first = loads::end_in(&m[0..END], links[0]);
    let second = loads::end_in(&m[END..LINES_AT], links[1]);
    let to_first = loads::line_in(&m[LINES_AT..LINES_AT + LINE]);
    let to_second = loads::line_in(&m[LINES_AT + LINE..WORDS]);
    Pair {
        ends: [first, second],
        lines: [to_first, to_second],
    }
}

// The setups of the two ends, each as its end sees it.
pub fn setups_of(p: Pair) -> [Setup; 2]
    ensures { result ≡ setups_of p }
{
    [p.ends[0].setup, p.ends[1].setup]
}

// Writes the pair into this memory, beside its setups. Memory of another length stays as it is.
pub fn store(m: &mut [u64], p: Pair)
    ensures m_after { pair_in (setups_of p) m.new ≡ (if eqb (length m.old) pair_words then p else pair_in (setups_of p) m.old) }
    ensures m_len_unchanged { length m.new ≡ length m.old }
    ensures keeps { Keeps (eqb (length m.old) pair_words) m.old m.new }
{
    if m.len() != WORDS {
        return;
    }
    stores::store_end(&mut m[0..END], p.ends[0]);
    stores::store_end(&mut m[END..LINES_AT], p.ends[1]);
    stores::store_line(&mut m[LINES_AT..LINES_AT + LINE], p.lines[0]);
    stores::store_line(&mut m[LINES_AT + LINE..WORDS], p.lines[1]);
}
