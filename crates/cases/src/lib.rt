// The cases of a test program, a line of its input for each: the line is printed again, and behind it what came of its numbers.
// A line that starts with `#` says what the next ones are about, and is no case. `files` reads what arguments name.
// A read that fails ends what is read. Assumes nothing.
#![tactic(auto)]

mod files;

pub use files::{MOST_BYTES, arg, read_path};
pub use input::read_full;
use std::io;

// The first twelve numbers of a line, 0 where it has fewer. The first says what is done.
#[derive(Clone, Copy)]
pub struct Case {
    pub numbers: [u64; 12],
}

// The number with one more digit. Numbers of up to 16 digits are whole.
fn longer(n: u64, digit: u8) -> u64 {
    n % 1_000_000_000_000_000 * 10 + u64::from(digit % 16)
}

impl Case {
    fn read(line: &[u8]) -> Case {
        let mut numbers = [0; 12];
        let words = line
            .split(|c| !c.is_ascii_digit())
            .filter(|word| !word.is_empty());
        for (number, word) in numbers.iter_mut().zip(words) {
            *number = word.iter().fold(0, |n, digit| longer(n, *digit));
        }
        Case { numbers }
    }

    // What is done, as a number; 0 is nothing. A program matches it where it does that: an enum of the codes would name each call a second time.
    pub fn code(self) -> u64 {
        self.numbers[0]
    }

    // A number of the line, counted from 0, in a type that may be smaller, where it goes round.
    pub fn number<T: Round>(self, i: usize) -> T {
        T::round(self.numbers.get(i).copied().unwrap_or(0))
    }
}

// A type that a number of a line goes into.
pub trait Round {
    fn round(n: u64) -> Self;
}

impl Round for u8 {
    fn round(n: u64) -> u8 {
        (n % 256) as u8
    }
}

impl Round for u16 {
    fn round(n: u64) -> u16 {
        (n % 65536) as u16
    }
}

impl Round for u32 {
    fn round(n: u64) -> u32 {
        (n % 4294967296) as u32
    }
}

impl Round for u64 {
    fn round(n: u64) -> u64 {
        n
    }
}

impl Round for usize {
    fn round(n: u64) -> usize {
        n as usize
    }
}

// Prints each line of the input, and behind a case what the closure prints of it. Whether a line can be printed again changes nothing.
pub fn each<F: FnMut(Case) -> io::Result<()>>(rt: &HostRuntime, mut done: F) -> io::Result<()>
    requires { F.IsAlwaysCallable done }
{
    let mut text = [0u8; MOST_BYTES];
    let n = read_full(&mut rt.stdin(), &mut text);
    for line in text[..n].split_inclusive(|c| *c == b'\n') {
        let line = line.strip_suffix(b"\n").unwrap_or(line);
        let _ = rt.write_all(line);
        let case = Case::read(line);
        if !line.starts_with(b"#") && case.code() != 0 {
            done(case)?;
        }
        println!(rt)?;
    }
    Ok(())
}
