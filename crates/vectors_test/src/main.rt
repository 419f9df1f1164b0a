// Runs each script that an argument names and holds its listing, line by line, to the stored one that the next
// argument names. Prints which scripts have the same listing, or the first line that differs. It takes the steps
// one by one (`Run::advance`), where the program `run` takes them all at once (`run_listing`), so each has its own loop over the lines.
// Assumes nothing.
#![tactic(auto)]

ghost use Rattle.std.specs.Prelude.{◌≤◌, length};

use answers::answer_of;
use listing::LONGEST;
use pairs::Pair;
use runs::Run;
use script::{MOST_STEPS, Rejection};
use std::env::{Env, FillError};
use std::io;
use std::rt::Files;

// What is left of a stored listing, and the number of its next line, from 1.
#[derive(Drop)]
struct Stored<'a> {
    rest: &'a [u8],
    line: u32,
}

// The first line that is not as expected.
#[derive(Clone, Copy)]
struct Differs {
    line: u32,
}

impl<'a> Stored<'a> {
    // Goes behind this line, if it is the next one.
    fn pass(&mut self, line: &[u8]) -> Result<(), Differs> {
        let Some(rest) = self.rest.strip_prefix(line) else {
            return Err(Differs { line: self.line });
        };
        self.rest = rest;
        self.line = self.line.wrapping_add(1);
        Ok(())
    }

    // Nothing may stand behind the last line.
    fn close(&self) -> Result<(), Differs> {
        if self.rest.is_empty() {
            Ok(())
        } else {
            Err(Differs { line: self.line })
        }
    }

    fn pass_refused(&mut self, r: Rejection) -> Result<(), Differs> {
        let mut line = [0u8; LONGEST];
        let place = u32::try_from(r.place).unwrap_or(u32::MAX);
        let n = listing::refused_line(&mut line, u32::from(r.refusal.number()), place);
        self.pass(&line[..n])
    }

    // Runs so many steps one by one, and goes behind a line for each.
    fn pass_steps(&mut self, start: Run, l: &[u32], count: usize) -> Result<Run, Differs> {
        let mut line = [0u8; LONGEST];
        let n = listing::header_line(&mut line);
        self.pass(&line[..n])?;
        let mut run = start;
        for (index, i) in (0u32..).zip(0..count) {
            let outcome = run.advance(runs::step_from(l, i));
            let answer = u32::from(answer_of(outcome));
            let (state, detail) = outcome.map_or((run, 0), |x| (x.state, x.detail));
            let n = listing::step_line(&mut line, index, answer, detail);
            self.pass(&line[..n])?;
            run = state;
        }
        Ok(run)
    }

    fn pass_ends(&mut self, run: Run) -> Result<(), Differs> {
        let mut line = [0u8; LONGEST];
        for k in 0..2usize {
            let retrains = u32::from(run.pair.ends[k].sender.replay.retrains.0);
            let n = listing::end_line(&mut line, k as u32, run.accepted[k], run.taken[k], retrains);
            self.pass(&line[..n])?;
        }
        Ok(())
    }
}

// Holds a script's listing to the stored one.
fn compared(script: &[u8], listing: &[u8]) -> Result<(), Differs> {
    let mut stored = Stored {
        rest: listing,
        line: 1,
    };
    let mut numbers = [0u32; 6 * MOST_STEPS];
    match script::read_script(script, &mut numbers) {
        Ok(script) => {
            let start = Run::start(Pair::of(script.setup));
            let run = stored.pass_steps(start, &numbers, script.count)?;
            stored.pass_ends(run)?;
        }
        Err(r) => stored.pass_refused(r)?,
    }
    stored.close()
}

// How many arguments there are, the program's own name among them.
fn arg_count(rt: &impl Env) -> usize {
    let mut buf = [0u8; 1];
    for i in 0..usize::MAX {
        if let Err(FillError::NotPresent) = rt.arg(i, &mut buf) {
            return i;
        }
    }
    usize::MAX
}

// Reads the file that an argument names. Nothing is read of one that cannot be opened.
fn read_file(rt: &(impl Env + Files + Eprint), i: usize, buf: &mut [u8]) -> usize
    ensures { result ≤ length buf.new }
{
    let mut path = [0u8; 4096];
    let length = cases::arg(rt, i, &mut path);
    cases::read_path(rt, &path[..length], buf)
}

// Prints an argument.
fn print_path(rt: &(impl Env + Print), i: usize) -> io::Result<()> {
    let mut path = [0u8; 4096];
    let length = cases::arg(rt, i, &mut path);
    rt.write_all(&path[..length])
}

// Prints what comes of the script that argument i names and the listing that argument j names, and answers whether they agree.
fn agree(rt: &(impl Env + Files + Print + Eprint), i: usize, j: usize) -> io::Result<bool> {
    print_path(rt, i)?;
    let mut script = [0u8; cases::MOST_BYTES];
    let n = read_file(rt, i, &mut script);
    let mut listing = [0u8; cases::MOST_BYTES];
    let m = read_file(rt, j, &mut listing);
    let compared = compared(&script[..n], &listing[..m]);
    match compared {
        Ok(()) => println!(rt; " same")?,
        Err(Differs { line }) => println!(rt; " differs at line {line}")?,
    }
    Ok(compared.is_ok())
}

fn main(rt: HostRuntime) -> io::Result<()> {
    let scripts = arg_count(&rt) / 2;
    let mut differ = 0u32;
    for k in 0..scripts {
        if !agree(&rt, 2 * k + 1, 2 * k + 2)? {
            differ = differ.wrapping_add(1);
        }
    }
    println!(rt; "{scripts} scripts, {differ} differ")
}
