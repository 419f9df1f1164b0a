// The reader and the writer of scripts, for a host in C or Rust: the answer number comes back, and the
// list or the buffer is filled where it is 0. A setup goes in as its 104 bytes.
// Assumes nothing.
#![tactic(auto)]

ghost use Rattle.std.specs.Prelude.{◌≡◌, length};
ghost use Rattle.setup.specs.Bytes.{read_setup};
ghost use Rattle.script.specs.Script.{buffer_after, list_after, read_script, write_script};
ghost use Rattle.script_export.specs.Numbers.{number_in};

use script::Rejection;
use setup::Setup;

// What a host reads: 0, or the number of the refusal.
fn number<T: Copy>(outcome: Result<T, Rejection>) -> u8
    ensures { result ≡ number_in outcome }
{
    match outcome {
        Ok(_) => 0,
        Err(rejection) => rejection.refusal.number(),
    }
}

#[unsafe(no_mangle)]
pub extern "C" fn script_read(b: &[u8], l: &mut [u32]) -> u8
    ensures { (result ≡ (read_script b.now (length l.old)).answer) × (l.new ≡ list_after b.now l.old) }
{
    number(script::read_script(b, l))
}

// Bytes that are no setup are written as the blank one, which is refused.
#[unsafe(no_mangle)]
pub extern "C" fn script_write(s: &[u8], l: &[u32], count: usize, w: &mut [u8]) -> u8
    ensures { (result ≡ (write_script (read_setup s.now).setup l.now count (length w.old)).answer) × (w.new ≡ buffer_after (read_setup s.now).setup l.now count w.old) }
{
    let setup = setup::read_setup(s).unwrap_or(Setup::blank());
    number(script::write_script(setup, l, count, w))
}
