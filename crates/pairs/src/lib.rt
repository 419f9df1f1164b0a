// Two ends and one line each way: the start and the eight steps. Line i leads to end i.
// `act` does not look at the shape of the pair: `step` asks for it first. Assumes nothing: every function takes all values.
#![tactic(auto)]

ghost use Rattle.std.specs.Prelude.{◌≡◌, ◌≤◌, set, Ok};
ghost use Rattle.ends.specs.Ends.{arrive_of, damage_of, stepped_of};
ghost use Rattle.pairs.specs.Capped.{capped, capped_packet};
ghost use Rattle.pairs.specs.Steps.{act, slot_fits, line_fits, pair_in_shape, step_of};
ghost use Rattle.pairs.specs.Pairs.{pair, done_of, paired_of, end_at, line_at, swapped, pair_of, start_of, by_end, send_at, reached, reach_at, lose_at};

use answers::{After, Refusal};
use ends::End;
use frames::Frame;
use line::{Line, Slot};
use packets::Packet;
use script::{Action, Step};
use setup::{PER_END, Setup};

#[derive(Clone, Copy)]
pub struct Pair {
    pub ends: [End; 2],
    pub lines: [Line; 2],
}

// The setup as end 1 sees it: its own units first.
#[tactic(auto, unfolding(crate::specs::Pairs::swapped))]
fn swapped(link: Setup) -> Setup
    ensures { result ≡ swapped link }
{
    let mut r = link;
    r.units.rotate_left(PER_END);
    r
}

// A number, or the largest that its type holds: what is over that is refused like it.
pub fn capped(most: u32, x: u32) -> u32
    ensures { (result ≡ capped most x) × (result ≤ most) }
{
    if x <= most { x } else { most }
}

// The packet of a Submit that is in form: each number fits its bytes.
pub fn packet_of(t: Step) -> Packet
    ensures { result ≡ capped_packet t }
{
    let kind = capped(255, t.kind);
    let class = capped(255, t.class);
    let length = capped(65535, t.length);
    Packet {
        kind: kind as u8,
        class: class as u8,
        length: length as u16,
        ident: t.ident,
    }
}

#[tactic(auto, using(answers::proofs::Outcomes::accepts))]
fn slot_fits(n: u8, s: Slot) -> bool
    ensures { result ≡ slot_fits n s }
{
    s.frame.answer(n).is_ok()
}

// Is the line within its bound, and each of its frames in range, where n channels are in use?
#[tactic(auto, unfolding(crate::specs::Steps::line_fits))]
fn line_fits(n: u8, l: Line) -> bool
    ensures { result ≡ line_fits n l }
{
    l.len <= 16 && l.slots[..l.len].iter().all(|s| slot_fits(n, *s))
}

impl Pair {
    // The pair of any setup, also of one that is out of range.
    #[tactic(auto, unfolding(crate::specs::Pairs::pair_of))]
    pub fn of(link: Setup) -> Pair
        ensures { result ≡ pair_of link }
    {
        let first = End::of(link);
        let second = End::of(swapped(link));
        let empty = Line::empty();
        Pair {
            ends: [first, second],
            lines: [empty, empty],
        }
    }

    // Starts a pair from its setup.
    #[tactic(auto, unfolding(crate::specs::Pairs::start_of))]
    pub fn start(link: Setup) -> Result<Pair, Refusal>
        ensures { paired_of result ≡ start_of link }
    {
        if link.in_range() {
            return Ok(Pair::of(link));
        }
        Err(Refusal::Setup)
    }

    fn end(self, i: usize) -> End
        requires { i ≤ 1 }
        ensures { result ≡ end_at self i }
    {
        self.ends[i]
    }

    fn line(self, i: usize) -> Line
        requires { i ≤ 1 }
        ensures { result ≡ line_at self i }
    {
        self.lines[i]
    }

    fn with_end(mut self, i: usize, end: End) -> Pair
        requires { i ≤ 1 }
        ensures { result ≡ pair (set self.ends i end) self.lines }
    {
        self.ends[i] = end;
        self
    }

    fn with_line(mut self, i: usize, line: Line) -> Pair
        requires { i ≤ 1 }
        ensures { result ≡ pair self.ends (set self.lines i line) }
    {
        self.lines[i] = line;
        self
    }

    // The pair after a step of end i alone.
    #[tactic(auto, unfolding(crate::specs::Pairs::by_end))]
    fn by_end(self, i: usize, s: Result<After<End>, Refusal>) -> Result<After<Pair>, Refusal>
        requires { i ≤ 1 }
        ensures { done_of self result ≡ by_end self i (stepped_of (end_at self i) s) }
    {
        let moved = s?;
        Ok(After {
            state: self.with_end(i, moved.state),
            detail: moved.detail,
        })
    }

    // The frame of end i goes on the line to the other end.
    #[tactic(auto, unfolding(crate::specs::Pairs::send_at))]
    fn send_at(self, i: usize) -> Result<After<Pair>, Refusal>
        requires { i ≤ 1 }
        ensures { done_of self result ≡ send_at self i }
    {
        let Ok(sent) = self.end(i).send() else {
            return Err(Refusal::NoFrame);
        };
        let line = self.line(1 - i);
        if line.is_full() {
            return Err(Refusal::LineFull);
        }
        Ok(After {
            state: self
                .with_end(i, sent.end)
                .with_line(1 - i, line.put(sent.frame)),
            detail: sent.detail,
        })
    }

    // The oldest frame on the line to end i reached it.
    #[tactic(auto, unfolding(crate::specs::Pairs::reached))]
    fn reached(self, i: usize, moved: After<End>) -> After<Pair>
        requires { i ≤ 1 }
        ensures { done_of self (Ok result) ≡ reached self i (stepped_of (end_at self i) (Ok moved)) }
    {
        After {
            state: self
                .with_end(i, moved.state)
                .with_line(i, self.line(i).rest()),
            detail: moved.detail,
        }
    }

    #[tactic(auto, using(answers::proofs::Outcomes::no_refusal_is_0), unfolding(crate::specs::Pairs::reach_at, crate::specs::Pairs::reached))]
    fn arrive_at(self, i: usize) -> Result<After<Pair>, Refusal>
        requires { i ≤ 1 }
        ensures { done_of self result ≡ reach_at arrive_of self i }
    {
        let f = self.line(i).front().ok_or(Refusal::LineEmpty)?;
        let moved = self.end(i).arrive(f)?;
        Ok(self.reached(i, moved))
    }

    #[tactic(auto, unfolding(crate::specs::Pairs::reach_at))]
    fn damage_at(self, i: usize) -> Result<After<Pair>, Refusal>
        requires { i ≤ 1 }
        ensures { done_of self result ≡ reach_at damage_of self i }
    {
        let f = self.line(i).front().ok_or(Refusal::LineEmpty)?;
        Ok(self.reached(i, self.end(i).damage(f)))
    }

    #[tactic(auto, unfolding(crate::specs::Pairs::lose_at))]
    fn lose_at(self, i: usize) -> Result<After<Pair>, Refusal>
        requires { i ≤ 1 }
        ensures { done_of self result ≡ lose_at self i }
    {
        let line = self.line(i);
        if line.front().is_none() {
            return Err(Refusal::LineEmpty);
        }
        Ok(After {
            state: self.with_line(i, line.rest()),
            detail: 0,
        })
    }

    // The step, of an end there is, in form.
    #[tactic(auto, unfolding(crate::specs::Steps::act))]
    fn act(self, t: Step) -> Result<After<Pair>, Refusal>
        requires { t.end ≤ 1 }
        ensures { done_of self result ≡ act self t }
    {
        let i = t.end as usize;
        let e = self.end(i);
        match t.action() {
            Some(Action::Submit) => self.by_end(i, e.submit(packet_of(t))),
            Some(Action::Send) => self.send_at(i),
            Some(Action::Arrive) => self.arrive_at(i),
            Some(Action::Damage) => self.damage_at(i),
            Some(Action::Lose) => self.lose_at(i),
            Some(Action::Take) => self.by_end(
                i,
                e.take(capped(255, t.class) as u8, capped(255, t.kind) as u8),
            ),
            Some(Action::Timer) => self.by_end(i, e.timer()),
            Some(Action::Refresh) | None => self.by_end(i, Ok(e.refresh())),
        }
    }

    // Are both ends and both lines in shape?
    #[tactic(auto, unfolding(crate::specs::Steps::pair_in_shape))]
    pub fn in_shape(self) -> bool
        ensures { result ≡ pair_in_shape self }
    {
        let first = self.end(0);
        let second = self.end(1);
        shape::in_shape(first)
            && shape::in_shape(second)
            && line_fits(first.setup.n, self.line(0))
            && line_fits(second.setup.n, self.line(1))
    }

    // One step of the pair, by its six fields.
    #[tactic(auto, unfolding(crate::specs::Steps::step_of))]
    pub fn step(self, t: Step) -> Result<After<Pair>, Refusal>
        ensures { done_of self result ≡ step_of self t }
    {
        if !self.in_shape() {
            return Err(Refusal::Shape);
        }
        if 1 < t.end {
            return Err(Refusal::End);
        }
        if !script::formed(t) {
            return Err(Refusal::Form);
        }
        self.act(t)
    }
}
