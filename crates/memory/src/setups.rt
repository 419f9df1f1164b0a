// A setup, read from its words and written as them.
// Assumes of each function that the words of what it reads or writes are lent.
ghost use Rattle.std.specs.Prelude.{◌≡◌, length};
ghost use Rattle.memory.specs.Hosted.{setup_words, setup_in};

use crate::loads::all_in;
use crate::stores::write_all;
use setup::Setup;
use words::Word;

// The words of a setup.
pub const SETUP: usize = 32;
// Where the units stand.
const UNITS_AT: usize = 8;

// How many channels are in use.
pub fn n_in(x: &[u64]) -> u8
    requires { length x.now ≡ setup_words }
    ensures { result ≡ (setup_in x.now).n }
{
    u8::from_word(x[0])
}

pub fn setup_in(x: &[u64]) -> Setup
    requires { length x.now ≡ setup_words }
    ensures { result ≡ setup_in x.now }
{
    Setup {
        n: n_in(x),
        classes: all_in(&x[1..UNITS_AT]),
        units: all_in(&x[UNITS_AT..SETUP]),
    }
}

pub fn store_setup(x: &mut [u64], s: Setup)
    requires { length x.old ≡ setup_words }
    ensures x_after { setup_in x.new ≡ s }
    ensures x_len { length x.new ≡ setup_words }
{
    write_all(&mut x[1..UNITS_AT], &s.classes);
    write_all(&mut x[UNITS_AT..SETUP], &s.units);
    x[0] = s.n.to_word();
}
