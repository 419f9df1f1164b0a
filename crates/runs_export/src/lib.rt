// The run of a whole script, for a host in C or Rust: how many packets are taken comes back, or every count, with
// answer and detail of each step. The list lent is filled with the numbers of the script's steps, and these steps
// alone are run.
// Assumes nothing.
#![tactic(auto)]

ghost use Rattle.std.specs.Prelude.{◌≡◌, ◌*◌, ◌≤◌, length};
ghost use Rattle.answers.specs.Answers.{number_of};
ghost use Rattle.pairs.specs.Pairs.{end_at};
ghost use Rattle.script.specs.Script.{list_after, most_steps, steps_in};
ghost use Rattle.runs.specs.Runs.{answers_of, filled, run_of};
ghost use Rattle.runs_export.specs.Taken.{fresh_of, taken_after, taken_by, taken_in};
ghost use Rattle.runs_export.specs.Ran.{out_after, ran_by, ran_of, refused_as};

use pairs::Pair;
use runs::Run;
use script::Rejection;
use setup::Setup;

// What the run of a script gives: its steps, then, by end, packets accepted by Submit there, packets taken there and
// the retrain count. A refused script has an answer and a place, and zeros. A host in C reads it: hence its layout, and the number.
#[repr(C)]
#[derive(Clone, Copy)]
pub struct Ran {
    pub answer: u32,
    pub place: u32,
    pub count: u32,
    pub accepted: [u32; 2],
    pub taken: [u32; 2],
    pub retrains: [u32; 2],
}

// The run of this setup's pair at the start. One pair alone is made: a start that answers it, and another in its place where it is refused, takes longer.
#[tactic(auto, unfolding(pairs::specs::Pairs::start_of))]
fn fresh(link: Setup) -> Run
    ensures { result ≡ fresh_of link }
{
    let link = if link.in_range() {
        link
    } else {
        Setup::blank()
    };
    Run::start(Pair::of(link))
}

// ---- the packets taken

fn taken_by(run: Run) -> u32
    ensures { result ≡ taken_by run }
{
    run.taken[0].wrapping_add(run.taken[1])
}

fn taken_after(link: Setup, l: &[u32], count: usize) -> u32
    requires { 6 * count ≤ length l.now }
    ensures { result ≡ taken_after link l.now count }
{
    taken_by(runs::run_steps(fresh(link), &l[..6 * count]))
}

#[tactic(auto, using(answers::proofs::Outcomes::no_refusal_is_0), unfolding(crate::specs::Taken::taken_in))]
#[unsafe(no_mangle)]
pub extern "C" fn script_taken(b: &[u8], l: &mut [u32]) -> u32
    ensures { (result ≡ taken_in b.now l.old) × (l.new ≡ list_after b.now l.old) }
{
    match script::read_script(b, l) {
        Ok(script) => taken_after(script.setup, l, script.count),
        Err(_) => 0,
    }
}

// ---- every count, and the answers

#[tactic(auto, unfolding(crate::specs::Ran::refused_as))]
fn refused(r: Rejection) -> Ran
    ensures { result ≡ refused_as (number_of r.refusal) r.place }
{
    Ran {
        answer: u32::from(r.refusal.number()),
        place: (r.place % 4294967296) as u32,
        count: 0,
        accepted: [0u32; 2],
        taken: [0u32; 2],
        retrains: [0u32; 2],
    }
}

fn retrains_at(p: Pair, i: usize) -> u32
    requires { i ≤ 1 }
    ensures { result ≡ (end_at p i).sender.replay.retrains.0 }
{
    u32::from(p.ends[i].sender.replay.retrains.0)
}

fn ran_by(run: Run, count: usize) -> Ran
    requires { count ≤ most_steps }
    ensures { result ≡ ran_by run count }
{
    let Run {
        pair,
        accepted,
        taken,
    } = run;
    let retrains = [retrains_at(pair, 0), retrains_at(pair, 1)];
    Ran {
        answer: 0,
        place: 0,
        count: count as u32,
        accepted,
        taken,
        retrains,
    }
}

fn ran_after(link: Setup, l: &[u32], count: usize, out: &mut [u32]) -> Ran
    requires { (count ≤ most_steps) × (6 * count ≤ length l.now) }
    ensures { (result ≡ ran_by (run_of (fresh_of link) (steps_in l.now count)) count) × (out.new ≡ filled out.old (answers_of (fresh_of link) (steps_in l.now count))) }
{
    ran_by(runs::run_listing(fresh(link), &l[..6 * count], out), count)
}

#[tactic(auto, using(answers::proofs::Outcomes::no_refusal_is_0), unfolding(crate::specs::Ran::ran_of, crate::specs::Ran::out_after))]
#[unsafe(no_mangle)]
pub extern "C" fn script_run(b: &[u8], l: &mut [u32], out: &mut [u32]) -> Ran
    ensures { (result ≡ ran_of b.now l.old) × (l.new ≡ list_after b.now l.old) × (out.new ≡ out_after b.now l.old out.old) }
{
    match script::read_script(b, l) {
        Ok(script) => ran_after(script.setup, l, script.count, out),
        Err(rejection) => refused(rejection),
    }
}
