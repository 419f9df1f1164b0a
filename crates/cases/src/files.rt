// What a test program reads: its standard input, and the files that its arguments name. A read that fails ends what is read.
// Assumes nothing.
ghost use Rattle.std.specs.Prelude.{◌≤◌, length};

use input::read_full;
use std::env::Env;
use std::rt::Files;
use std::{fs, io, str};

// The bytes of the buffer that a file or the standard input is read into.
pub const MOST_BYTES: usize = 65536;

// Puts an argument at the start of a buffer and answers its length, 0 where it is missing or longer than the buffer.
pub fn arg(rt: &impl Env, i: usize, buf: &mut [u8]) -> usize
    ensures { result ≤ length buf.new }
{
    rt.arg(i, buf).unwrap_or(0)
}

// A name that is no text names no file.
fn open<R: Files>(rt: &R, path: &[u8]) -> io::Result<R::File> {
    match str::from_utf8(path) {
        Ok(name) => fs::open(rt, name),
        Err(_) => Err(io::Error::from(io::ErrorKind::InvalidFilename)),
    }
}

// Says on standard error why a file cannot be opened. Whether that can be said changes nothing.
fn fail(rt: &impl Eprint, path: &[u8], error: io::Error) {
    let name = str::from_utf8(path).unwrap_or("a name that is no text");
    let _ = eprintln!(rt; "{name}: {error}");
}

// Reads a file. Nothing is read of one that cannot be opened.
pub fn read_path(rt: &(impl Files + Eprint), path: &[u8], buf: &mut [u8]) -> usize
    ensures { result ≤ length buf.new }
{
    match open(rt, path) {
        Ok(mut file) => read_full(&mut file, buf),
        Err(error) => {
            fail(rt, path, error);
            0
        }
    }
}
