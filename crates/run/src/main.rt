// The program: reads a script from standard input and writes its listing to standard output.
// What the lines say is promised by `runs` and `listing`; here bytes are moved. Assumes nothing.
#![tactic(auto)]

ghost use Rattle.std.specs.Prelude.{◌≤◌, length};

use listing::LONGEST;
use pairs::Pair;
use runs::Run;
use script::{MOST_STEPS, Rejection};
use setup::Setup;
use std::io;

// The bytes that are read: more than the longest script has.
const IN: usize = 65536;
// The bytes that wait to be written, in memory of a fixed size: `BufWriter` would ask for its own, which may be refused.
const OUT: usize = 8192;
// The numbers of the longest script's steps, six for each.
const NUMBERS: usize = 6 * MOST_STEPS;
// Their answers and details.
const ANSWERS: usize = 2 * MOST_STEPS;

// Writes a line for each step, from its answer and detail. Each line is lent the room of the longest; what waits is written where that is not left.
fn write_steps(rt: &impl Print, answers: &[u32]) -> io::Result<()> {
    let mut out = [0u8; OUT];
    let mut at = listing::header_line(&mut out[..LONGEST]);
    for (index, step) in (0u32..).zip(answers.chunks_exact(2)) {
        if at > OUT - LONGEST {
            rt.write_all(&out[..at])?;
            at = 0;
        }
        at += listing::step_line(&mut out[at..at + LONGEST], index, step[0], step[1]);
    }
    rt.write_all(&out[..at])
}

fn write_ends(rt: &impl Print, run: Run) -> io::Result<()> {
    let mut line = [0u8; LONGEST];
    for k in 0..2usize {
        let retrains = u32::from(run.pair.ends[k].sender.replay.retrains.0);
        let n = listing::end_line(&mut line, k as u32, run.accepted[k], run.taken[k], retrains);
        rt.write_all(&line[..n])?;
    }
    Ok(())
}

fn write_refused(rt: &impl Print, r: Rejection) -> io::Result<()> {
    let mut line = [0u8; LONGEST];
    let place = u32::try_from(r.place).unwrap_or(u32::MAX);
    let n = listing::refused_line(&mut line, u32::from(r.refusal.number()), place);
    rt.write_all(&line[..n])
}

// Runs the steps, six numbers for each, and writes the listing.
fn list(rt: &impl Print, link: Setup, l: &[u32]) -> io::Result<()>
    requires { length l.now ≤ 32706 }
{
    let mut answers = [0u32; ANSWERS];
    let used = &mut answers[..2 * (l.len() / 6)];
    let run = runs::run_listing(Run::start(Pair::of(link)), l, used);
    write_steps(rt, used)?;
    write_ends(rt, run)
}

fn main(rt: HostRuntime) -> io::Result<()> {
    let mut bytes = [0u8; IN];
    let n = input::read_full(&mut rt.stdin(), &mut bytes);
    let mut numbers = [0u32; NUMBERS];
    let got = script::read_script(&bytes[..n], &mut numbers);
    match got {
        Ok(script) => {
            let used = 6 * script.count.min(MOST_STEPS);
            list(&rt, script.setup, &numbers[..used])
        }
        Err(r) => write_refused(&rt, r),
    }
}
