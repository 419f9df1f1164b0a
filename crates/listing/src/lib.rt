// The listing's text: a header line, a line for each step, two end lines, and the line of a bad script.
// A line goes over the first bytes of a buffer lent, or not at all where the buffer is shorter.
// Assumes nothing.
#![tactic(auto)]

ghost use Rattle.std.specs.Prelude.{◌≡◌, ◌+◌, ◌≤◌, ◌++◌, length};
ghost use Rattle.listing.specs.Listing.{after, digits, end_line, header_line, placed, refused_line, step_line, written};

// The most bytes of a line.
pub const LONGEST: usize = 72;

// How many digits a number has.
fn count(n: u32) -> usize
    ensures { result ≡ length (digits n) }
{
    let mut rest = n;
    let mut k = 1;
    while rest >= 10 {
        rest /= 10;
        k += 1;
    }
    k
}

// Writes the digits of a number over the bytes lent, the last digit first.
fn spell(w: &mut [u8], n: u32)
    requires { length w.old ≡ length (digits n) }
    ensures { w.new ≡ digits n }
{
    let mut rest = n;
    let mut i = w.len() - 1;
    while rest >= 10 {
        w[i] = 48 + (rest % 10) as u8;
        rest /= 10;
        i -= 1;
    }
    w[i] = 48 + rest as u8;
}

// Each of these three writes a piece of a line from a place on, and answers the place behind. A number
// wants room for ten digits, the most that it can have.
fn put_text(w: &mut [u8], at: usize, text: &[u8]) -> usize
    requires { at + length text.now ≤ length w.old }
    ensures upper_bound { result ≤ length w.old }
    ensures value { (result ≡ at + length text.now) × (w.new ≡ placed at text.now w.old) }
{
    w[at..at + text.len()].copy_from_slice(text);
    at + text.len()
}

fn put_number(w: &mut [u8], at: usize, n: u32) -> usize
    requires { at + 10 ≤ length w.old }
    ensures upper_bound { result ≤ at + 10 }
    ensures value { (result ≡ at + length (digits n)) × (w.new ≡ placed at (digits n) w.old) }
{
    let end = at + count(n);
    spell(&mut w[at..end], n);
    end
}

fn put_field(w: &mut [u8], at: usize, name: &[u8], n: u32) -> usize
    requires { at + length name.now + 10 ≤ length w.old }
    ensures upper_bound { result ≤ at + length name.now + 10 }
    ensures value { (result ≡ at + length (name.now ++ digits n)) × (w.new ≡ placed at (name.now ++ digits n) w.old) }
{
    let from = put_text(w, at, name);
    put_number(w, from, n)
}

// Writes a whole line over a buffer, if it fits.
fn hand_out(w: &mut [u8], line: &[u8]) -> usize
    ensures upper_bound { result ≤ length w.old }
    ensures value { (result ≡ written line.now w.old) × (w.new ≡ after line.now w.old) }
{
    if w.len() < line.len() {
        return 0;
    }
    put_text(w, 0, line)
}

pub fn header_line(w: &mut [u8]) -> usize
    ensures upper_bound { result ≤ length w.old }
    ensures value { (result ≡ written header_line w.old) × (w.new ≡ after header_line w.old) }
{
    hand_out(w, b"step answer detail\n")
}

// The line of a step: its index from 0, its answer and its detail.
pub fn step_line(w: &mut [u8], index: u32, answer: u32, detail: u32) -> usize
    ensures upper_bound { result ≤ length w.old }
    ensures value { (result ≡ written (step_line index answer detail) w.old) × (w.new ≡ after (step_line index answer detail) w.old) }
{
    let mut line = [0u8; LONGEST];
    let a = put_number(&mut line, 0, index);
    let b = put_field(&mut line, a, b" ", answer);
    let c = put_field(&mut line, b, b" ", detail);
    let d = put_text(&mut line, c, b"\n");
    hand_out(w, &line[..d])
}

// The line of an end: the packets accepted by Submit there, those taken there, and its retrain count.
pub fn end_line(w: &mut [u8], end: u32, accepted: u32, taken: u32, retrains: u32) -> usize
    ensures upper_bound { result ≤ length w.old }
    ensures value { (result ≡ written (end_line end accepted taken retrains) w.old) × (w.new ≡ after (end_line end accepted taken retrains) w.old) }
{
    let mut line = [0u8; LONGEST];
    let a = put_field(&mut line, 0, b"end ", end);
    let b = put_field(&mut line, a, b" accepted ", accepted);
    let c = put_field(&mut line, b, b" taken ", taken);
    let d = put_field(&mut line, c, b" retrains ", retrains);
    let e = put_text(&mut line, d, b"\n");
    hand_out(w, &line[..e])
}

// The one line for a bad script: the number of its refusal, and the place.
pub fn refused_line(w: &mut [u8], number: u32, place: u32) -> usize
    ensures upper_bound { result ≤ length w.old }
    ensures value { (result ≡ written (refused_line number place) w.old) × (w.new ≡ after (refused_line number place) w.old) }
{
    let mut line = [0u8; LONGEST];
    let a = put_field(&mut line, 0, b"refused ", number);
    let b = put_field(&mut line, a, b" at ", place);
    let c = put_text(&mut line, b, b"\n");
    hand_out(w, &line[..c])
}
