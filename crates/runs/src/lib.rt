// A run of steps over a pair, with the counts of packets accepted and taken at each end.
// Assumes nothing: every function takes all values.
#![tactic(auto)]

ghost use Rattle.std.specs.Prelude.{◌≡◌, ◌/◌, true, length};
ghost use Rattle.words.specs.Memory.{pair_words, pair_in};
ghost use Rattle.script.specs.Step.{step_of};
ghost use Rattle.script.specs.Script.{steps_in};
ghost use Rattle.runs.specs.Kept.{counted, counted_after, will_last, run_in};
ghost use Rattle.runs.specs.Runs.{step_from, start_of, grown, advanced_of, advance_of, run_of, answers_of, filled, noted};

use answers::{After, Refusal};
use memory::WORDS;
use pairs::Pair;
use script::{Action, Step};
use setup::Setup;

// By end: packets accepted by Submit there, packets taken there.
#[derive(Clone, Copy)]
pub struct Run {
    pub pair: Pair,
    pub accepted: [u32; 2],
    pub taken: [u32; 2],
}

// One more at this end, if it counts.
#[tactic(auto, unfolding(crate::specs::Runs::grown, counters::specs::Wrapped::plus))]
fn grown(mut counts: [u32; 2], end: u32, one: bool) -> [u32; 2]
    ensures { result ≡ grown counts end one }
{
    let i = end as usize;
    if one && i < counts.len() {
        counts[i] = counts[i].wrapping_add(1);
    }
    counts
}

// A step of its six numbers. The same stands in `script`, which keeps it to itself.
#[tactic(auto, unfolding(script::specs::Step::step_of))]
fn step_in(l: &[u32]) -> Step
    requires { length l.now ≡ 6 }
    ensures { result ≡ step_of l.now }
{
    Step {
        step: l[0],
        end: l[1],
        class: l[2],
        kind: l[3],
        length: l[4],
        ident: l[5],
    }
}

// Step i of a list of numbers, six for each; a step out of form where the list ends before it.
#[tactic(auto, unfolding(crate::specs::Runs::step_from))]
pub fn step_from(l: &[u32], i: usize) -> Step
    ensures { result ≡ step_from l.now i }
{
    if i < l.len() / 6 {
        let at = 6 * i;
        return step_in(&l[at..at + 6]);
    }
    Step {
        step: 0,
        end: 0,
        class: 0,
        kind: 0,
        length: 0,
        ident: 0,
    }
}

impl Run {
    // Nothing is accepted or taken yet.
    #[tactic(auto, unfolding(crate::specs::Runs::start_of))]
    pub fn start(pair: Pair) -> Run
        ensures { result ≡ start_of pair }
    {
        Run {
            pair,
            accepted: [0u32; 2],
            taken: [0u32; 2],
        }
    }

    fn counted(self) -> Counted
        ensures { result ≡ counted self.accepted self.taken }
    {
        let Run {
            accepted,
            taken,
            ..
        } = self;
        Counted { accepted, taken }
    }

    // One step more. A step that is refused leaves the run as it was.
    #[tactic(auto, using(answers::proofs::Outcomes::no_refusal_is_0), unfolding(crate::specs::Runs::advance_of, crate::specs::Runs::grown, crate::specs::Kept::counted_after))]
    pub fn advance(self, t: Step) -> Result<After<Run>, Refusal>
        ensures { advanced_of self result ≡ advance_of self t }
    {
        let after = self.pair.step(t)?;
        let Counted { accepted, taken } = self.counted().after(t, true);
        Ok(After {
            state: Run {
                pair: after.state,
                accepted,
                taken,
            },
            detail: after.detail,
        })
    }
}

// Writes answer and detail of step i, where the list has room for both.
#[tactic(auto, unfolding(crate::specs::Runs::noted))]
fn note(out: &mut [u32], i: usize, answer: u8, detail: u32)
    ensures { out.new ≡ noted out.old i answer detail }
{
    if i < out.len() / 2 {
        out[2 * i] = u32::from(answer);
        out[2 * i + 1] = detail;
    }
}

// The same as `run_listing`, on any pair: each step asks first for the shape.
fn run_asked(r: Run, l: &[u32], out: &mut [u32]) -> Run
    ensures { (result ≡ run_of r (steps_in l.now (length l.now / 6))) × (out.new ≡ filled out.old (answers_of r (steps_in l.now (length l.now / 6)))) }
{
    let mut x = r;
    for i in 0..l.len() / 6 {
        match x.advance(step_from(l, i)) {
            Ok(after) => {
                note(out, i, 0, after.detail);
                x = after.state;
            }
            Err(refusal) => note(out, i, refusal.number(), 0),
        }
    }
    x
}

// The counts of a run whose pair is kept elsewhere.
#[derive(Clone, Copy)]
pub struct Counted {
    pub accepted: [u32; 2],
    pub taken: [u32; 2],
}

impl Counted {
    // After a step that was made or refused.
    #[tactic(auto, unfolding(crate::specs::Kept::counted_after))]
    fn after(self, t: Step, made: bool) -> Counted
        ensures { result ≡ counted_after self t made }
    {
        let submits = t.action() == Some(Action::Submit);
        let takes = t.action() == Some(Action::Take);
        Counted {
            accepted: grown(self.accepted, t.end, submits && made),
            taken: grown(self.taken, t.end, takes && made),
        }
    }
}

// Will the pair be in shape after every step? It is in shape, and both ends use as many channels.
fn will_last(p: Pair) -> bool
    ensures { result ≡ will_last p }
{
    p.in_shape() && p.ends[0].setup.n == p.ends[1].setup.n
}

// Runs the steps on the pair in this memory, which stays in shape: no step asks for it, and none copies the pair.
fn run_words(
    m: &mut [u64],
    links: [Setup; 2],
    start: Counted,
    l: &[u32],
    out: &mut [u32],
) -> Counted
    requires { (length m.old ≡ pair_words) × (will_last (pair_in links m.old) ≡ true) }
    ensures result_after { run_in links m.new result ≡ run_of (run_in links m.old start) (steps_in l.now (length l.now / 6)) }
    ensures m_len { length m.new ≡ pair_words }
    ensures out_after { out.new ≡ filled out.old (answers_of (run_in links m.old start) (steps_in l.now (length l.now / 6))) }
{
    let mut c = start;
    for i in 0..l.len() / 6 {
        let t = step_from(l, i);
        let outcome = memory::step(m, links, t);
        note(out, i, answers::answer_of(outcome), outcome.unwrap_or(0));
        let made = outcome.is_ok();
        c = c.after(t, made);
    }
    c
}

// The run of a pair that will last: in memory.
fn run_kept(r: Run, l: &[u32], out: &mut [u32]) -> Run
    requires { will_last r.pair ≡ true }
    ensures { (result ≡ run_of r (steps_in l.now (length l.now / 6))) × (out.new ≡ filled out.old (answers_of r (steps_in l.now (length l.now / 6)))) }
{
    let mut m = [0u64; WORDS];
    let links = memory::setups_of(r.pair);
    memory::store(&mut m, r.pair);
    let Counted { accepted, taken } = run_words(&mut m, links, r.counted(), l, out);
    Run {
        pair: memory::load(&m, links),
        accepted,
        taken,
    }
}

// Runs the steps of a list of numbers, six for each, and writes answer and detail of each into the list lent, as far as it has room.
pub fn run_listing(r: Run, l: &[u32], out: &mut [u32]) -> Run
    ensures { (result ≡ run_of r (steps_in l.now (length l.now / 6))) × (out.new ≡ filled out.old (answers_of r (steps_in l.now (length l.now / 6)))) }
{
    if will_last(r.pair) {
        return run_kept(r, l, out);
    }
    run_asked(r, l, out)
}

// Runs the steps of a list of numbers, six for each.
pub fn run_steps(r: Run, l: &[u32]) -> Run
    ensures { result ≡ run_of r (steps_in l.now (length l.now / 6)) }
{
    run_listing(r, l, &mut [])
}
