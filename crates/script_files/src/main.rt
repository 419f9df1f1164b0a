// Reads each script that an argument names and writes it again. Then it spoils one of them, document 01's Listing A, in one byte or number
// at a time, and tries lists and buffers that are one too short. Each line of its input is a case; the first number says what is done:
// 1 is a script, 2 is a byte, 3 is a list, 4 writes.
// Assumes nothing.
#![tactic(auto)]

ghost use Rattle.std.specs.Prelude.{◌≤◌, length};

use cases::Case;
use script::{FRAME, MOST_STEPS, Rejection};
use setup::Setup;
use std::env::Env;
use std::io;
use std::rt::Files;

// How many of the first bytes are the same.
fn same(a: &[u8], b: &[u8]) -> usize {
    a.iter().zip(b).take_while(|(x, y)| *x == *y).count()
}

// What the reader or the writer answers, and the place.
fn tell<T: Copy>(rt: &impl Print, outcome: Result<T, Rejection>) -> io::Result<()> {
    match outcome {
        Ok(_) => print!(rt; ": 0 0"),
        Err(r) => print!(rt; ": {} {}", r.refusal.number(), r.place),
    }
}

// Writes steps, and tells how many bytes are written and how many are as they were.
fn write_again(rt: &impl Print, s: Setup, l: &[u32], count: usize, b: &[u8]) -> io::Result<()> {
    let mut out = [0u8; FRAME + 12 * MOST_STEPS];
    let w = script::write_script(s, l, count, &mut out);
    tell(rt, w)?;
    print!(rt; " {} {}", w.unwrap_or(0), same(b, &out))
}

// Reads a script and, unless it is refused, writes its steps again.
fn show(rt: &impl Print, b: &[u8]) -> io::Result<()> {
    let mut list = [0u32; 6 * MOST_STEPS];
    let r = script::read_script(b, &mut list);
    tell(rt, r)?;
    if let Ok(script) = r {
        print!(rt; " {}", script.count)?;
        write_again(rt, script.setup, &list, script.count, b)?;
    }
    Ok(())
}

// Reads the file that an argument names.
fn read_file(rt: &(impl Env + Files + Eprint), i: usize, buf: &mut [u8]) -> usize
    ensures { result ≤ length buf.new }
{
    let mut path = [0u8; 4096];
    let length = cases::arg(rt, i, &mut path);
    cases::read_path(rt, &path[..length], buf)
}

fn show_file(rt: &(impl Print + Env + Files + Eprint), i: usize) -> io::Result<()> {
    let mut buf = [0u8; cases::MOST_BYTES];
    let n = read_file(rt, i, &mut buf);
    show(rt, &buf[..n])
}

// Reads Listing A into the first numbers of a list. It has 10 steps, 60 numbers and 236 bytes.
fn read_into(rt: &impl Print, b: &[u8], room: usize) -> io::Result<()> {
    let mut list = [0u32; 60];
    if let Some(lent) = list.get_mut(..room) {
        tell(rt, script::read_script(b, lent))?;
    }
    Ok(())
}

// Reads Listing A with one byte changed.
fn spoil(rt: &impl Print, b: &[u8; 236], at: usize, value: u8) -> io::Result<()> {
    let mut changed = *b;
    if let Some(byte) = changed.get_mut(at) {
        *byte = value;
    }
    read_into(rt, &changed, 60)
}

// Writes so many steps of a list to the first bytes of a buffer.
fn write(rt: &impl Print, s: Setup, l: &[u32], count: usize, room: usize) -> io::Result<()> {
    let mut out = [0u8; 236];
    match out.get_mut(..room) {
        Some(lent) => tell(rt, script::write_script(s, l, count, lent)),
        None => Ok(()),
    }
}

// Writes the steps of Listing A with one number changed.
fn spoil_number(rt: &impl Print, b: &[u8], c: Case) -> io::Result<()> {
    let mut list = [0u32; 60];
    let r = script::read_script(b, &mut list);
    if let Some(number) = list.get_mut(c.number::<usize>(4)) {
        *number = c.number(5);
    }
    let link = match r {
        Ok(script) if c.number::<u64>(3) != 0 => script.setup,
        _ => Setup::blank(),
    };
    write(rt, link, &list, c.number(1), c.number(2))
}

fn done(rt: &(impl Print + Env + Files + Eprint), b: &[u8; 236], c: Case) -> io::Result<()> {
    match c.code() {
        1 => show_file(rt, c.number(1)),
        2 => spoil(rt, b, c.number(1), c.number(2)),
        3 => read_into(rt, b, c.number(1)),
        _ => spoil_number(rt, b, c),
    }
}

// Listing A is argument 16.
fn main(rt: HostRuntime) -> io::Result<()> {
    let mut listing = [0u8; 236];
    read_file(&rt, 16, &mut listing);
    cases::each(&rt, |case| done(&rt, &listing, case))
}
