// Scripts: steps, their records of 12 bytes, the trailer, and the reader and the writer of whole scripts.
// Assumes nothing.
#![tactic(auto)]

ghost use Rattle.std.specs.Prelude.{◌≡◌, ◌||◌, true, ◌++◌, map, ◌*◌, ◌≤◌, length, drop};
ghost use Rattle.basics.specs.Each.{first_not};
ghost use Rattle.basics.specs.Parts.{cut, joined};
ghost use Rattle.setup.specs.Setup.{in_range};
ghost use Rattle.script.specs.Step.{action_number, action_of, FitsBytes, fields_fit, form_by, formed, in_form, is_submit, is_take, numbers_of, record_bytes, record_in_form, room, step_at, step_of};
ghost use Rattle.script.specs.Script.{agrees, buffer_after, list_after, most_steps, read_of, read_script, script_bytes, script_length, steps_in, trailer_at, trailer_bytes, write_script, written_of};

use answers::Refusal;
use basics::fill_parts;
use setup::Setup;

// The most steps in a script.
pub const MOST_STEPS: usize = 5451;
// A script's bytes besides its records: the setup and the trailer.
pub const FRAME: usize = setup::BYTES + 12;

// The mark that ends a script.
const MARK: [u8; 4] = *b"PLRN";

// A step is its six fields as numbers. `class` is the channel and `kind` the category where the step is
// Take. `end` is the acting end. They are numbers and no enums, since `formed` and the pair's step refuse those that no enum could hold.
#[derive(Clone, Copy)]
pub struct Step {
    pub step: u32,
    pub end: u32,
    pub class: u32,
    pub kind: u32,
    pub length: u32,
    pub ident: u32,
}

// What a step does, by its number.
#[derive(Clone, Copy, Debug, PartialEq, Eq)]
pub enum Action {
    Submit = 1,
    Send = 2,
    Arrive = 3,
    Damage = 4,
    Lose = 5,
    Take = 6,
    Timer = 7,
    Refresh = 8,
}

impl Action {
    pub fn number(self) -> u32
        ensures { result ≡ action_number self }
    {
        self as u32
    }
}

impl Step {
    // What it does; nothing where there is no step of its number.
    pub fn action(self) -> Option<Action>
        ensures { result ≡ action_of self.step }
    {
        match self.step {
            1 => Some(Action::Submit),
            2 => Some(Action::Send),
            3 => Some(Action::Arrive),
            4 => Some(Action::Damage),
            5 => Some(Action::Lose),
            6 => Some(Action::Take),
            7 => Some(Action::Timer),
            8 => Some(Action::Refresh),
            _ => None,
        }
    }
}

// The last 12 bytes: the setup's offset, the count of steps, and whether the mark is there.
#[derive(Clone, Copy)]
struct Trailer {
    offset: u32,
    count: u32,
    marked: bool,
}

// What a script says: the count of its steps, and its setup.
#[derive(Clone, Copy)]
pub struct Script {
    pub count: usize,
    pub setup: Setup,
}

// Why a script is refused, and at which of its bytes.
#[derive(Clone, Copy, Debug, PartialEq, Eq)]
pub struct Rejection {
    pub refusal: Refusal,
    pub place: usize,
}

// The most that a field can hold, of a step that uses it or not.
fn room(used: bool, most: u32) -> u32
    ensures { result ≡ room used most }
{
    if used { most } else { 0 }
}

fn uses_channel(t: Step) -> bool
    ensures { result ≡ (is_submit t.step || is_take t.step) }
{
    matches!(t.action(), Some(Action::Submit | Action::Take))
}

#[tactic(auto, unfolding(crate::specs::Step::fields_fit))]
fn fields_fit(one: u32, two: u32, t: Step) -> bool
    ensures { result ≡ fields_fit one two t }
{
    let most = room(uses_channel(t), one);
    let submit = t.action() == Some(Action::Submit);
    t.class <= most
        && t.kind <= most
        && t.length <= room(submit, two)
        && t.ident <= room(submit, u32::MAX)
}

#[tactic(auto, unfolding(crate::specs::Step::form_by))]
fn form_by(one: u32, two: u32, t: Step) -> bool
    ensures { result ≡ form_by one two t }
{
    t.action().is_some() && t.end <= 1 && fields_fit(one, two, t)
}

// Is a step in form: known, at end 0 or 1, with zeros in place?
pub fn formed(t: Step) -> bool
    ensures { result ≡ formed t }
{
    form_by(u32::MAX, u32::MAX, t)
}

// Is it in form as a record, so that each number also fits its bytes?
pub fn in_form(t: Step) -> bool
    ensures { result ≡ in_form t }
{
    form_by(255, 65535, t)
}

// ---- a record of 12 bytes

#[tactic(auto, unfolding(crate::specs::Step::step_at))]
fn step_at(r: &[u8]) -> Step
    requires { length r.now ≡ 12 }
    ensures { result ≡ step_at r.now }
{
    Step {
        step: u32::from(r[0]),
        end: u32::from(r[1]),
        class: u32::from(r[2]),
        kind: u32::from(r[3]),
        length: u32::from(u16::from_le_bytes([r[4], r[5]])),
        ident: u32::from_le_bytes([r[8], r[9], r[10], r[11]]),
    }
}

#[tactic(auto, unfolding(crate::specs::Step::record_in_form))]
fn record_in_form(r: &[u8]) -> bool
    requires { length r.now ≡ 12 }
    ensures { result ≡ record_in_form r.now }
{
    r[6] == 0 && r[7] == 0 && in_form(step_at(r))
}

#[tactic(auto, unfolding(crate::specs::Step::record_bytes))]
fn record_bytes(t: Step) -> [u8; 12]
    requires { FitsBytes t }
    ensures { result ≡ record_bytes t }
{
    let [length_0, length_1] = (t.length as u16).to_le_bytes();
    let [ident_0, ident_1, ident_2, ident_3] = t.ident.to_le_bytes();
    [
        t.step as u8,
        t.end as u8,
        t.class as u8,
        t.kind as u8,
        length_0,
        length_1,
        0,
        0,
        ident_0,
        ident_1,
        ident_2,
        ident_3,
    ]
}

// ---- a step as six numbers

#[tactic(auto, unfolding(crate::specs::Step::step_of))]
fn step_of(l: &[u32]) -> Step
    requires { length l.now ≡ 6 }
    ensures { result ≡ step_of l.now }
{
    Step {
        step: l[0],
        end: l[1],
        class: l[2],
        kind: l[3],
        length: l[4],
        ident: l[5],
    }
}

// One number after the other: where an array of the six is made and copied, a full script takes about three times as long to read.
fn put_step(l: &mut [u32], t: Step)
    requires { length l.old ≡ 6 }
    ensures { l.new ≡ numbers_of t }
{
    l[0] = t.step;
    l[1] = t.end;
    l[2] = t.class;
    l[3] = t.kind;
    l[4] = t.length;
    l[5] = t.ident;
}

// ---- the trailer

#[tactic(auto, unfolding(crate::specs::Script::trailer_at))]
fn trailer_at(t: &[u8]) -> Trailer
    requires { length t.now ≡ 12 }
    ensures { result ≡ trailer_at t.now }
{
    Trailer {
        offset: u32::from_le_bytes([t[0], t[1], t[2], t[3]]),
        count: u32::from_le_bytes([t[4], t[5], t[6], t[7]]),
        marked: [t[8], t[9], t[10], t[11]] == MARK,
    }
}

// Does a trailer agree with the script's length?
#[tactic(auto, unfolding(crate::specs::Script::agrees))]
fn agrees(t: Trailer, size: usize) -> bool
    ensures { result ≡ agrees t size }
{
    let count = t.count as usize;
    t.offset as usize == 12 * count && size == 12 * count + FRAME && count <= MOST_STEPS
}

#[tactic(auto, unfolding(crate::specs::Script::trailer_bytes))]
fn put_trailer(w: &mut [u8], count: usize)
    requires { (length w.old ≡ 12) × (count ≤ most_steps) }
    ensures { w.new ≡ trailer_bytes count }
{
    w[..4].copy_from_slice(&(12 * count as u32).to_le_bytes());
    w[4..8].copy_from_slice(&(count as u32).to_le_bytes());
    w[8..].copy_from_slice(&MARK);
}

// ---- the reader

// How many of the first records are in form before the first that is not.
fn first_record(b: &[u8], count: usize) -> usize
    requires { (count ≤ most_steps) × (12 * count ≤ length b.now) }
    ensures { result ≡ first_not record_in_form (cut 12 count b.now) }
{
    (0..count)
        .find(|i| !record_in_form(&b[12 * i..12 * i + 12]))
        .unwrap_or(count)
}

fn fill_steps(b: &[u8], count: usize, l: &mut [u32])
    requires { (count ≤ most_steps) × (12 * count ≤ length b.now) × (6 * count ≤ length l.old) }
    ensures { l.new ≡ joined (map numbers_of (map step_at (cut 12 count b.now))) ++ drop (6 * count) l.old }
{
    fill_parts(
        l,
        6,
        count,
        |i, six| put_step(six, step_at(&b[12 * i..12 * i + 12])),
    );
}

fn reject(refusal: Refusal, place: usize) -> Rejection
    ensures { result ≡ record { refusal = refusal; place = place } }
{
    Rejection { refusal, place }
}

// What reading answers, with room for so many numbers; nothing is filled yet.
fn checked(b: &[u8], space: usize) -> Result<Script, Rejection>
    ensures { read_of result ≡ read_script b.now space }
{
    let size = b.len();
    if size < FRAME {
        return Err(reject(Refusal::ScriptTooShort, 0));
    }
    if size > 12 * MOST_STEPS + FRAME {
        return Err(reject(Refusal::ScriptTooLong, 0));
    }
    let trailer = trailer_at(&b[size - 12..size]);
    if !trailer.marked {
        return Err(reject(Refusal::Mark, 0));
    }
    if !agrees(trailer, size) {
        return Err(reject(Refusal::Trailer, 0));
    }
    let count = trailer.count as usize;
    let at = 12 * count;
    let Ok(setup) = setup::read_setup(&b[at..at + setup::BYTES]) else {
        return Err(reject(Refusal::Setup, at));
    };
    let first = first_record(b, count);
    if first < count {
        return Err(reject(Refusal::Form, 12 * first));
    }
    if space < 6 * count {
        return Err(reject(Refusal::Room, 0));
    }
    Ok(Script { count, setup })
}

// Reads a script: its setup and, over the list lent, six numbers for each of its steps.
pub fn read_script(b: &[u8], l: &mut [u32]) -> Result<Script, Rejection>
    ensures { (read_of result ≡ read_script b.now (length l.old)) × (l.new ≡ list_after b.now l.old) }
{
    let script = checked(b, l.len())?;
    fill_steps(b, script.count, l);
    Ok(script)
}

// ---- the writer

// How many of the first steps are in form before the first that is not.
fn first_step(l: &[u32], count: usize) -> usize
    requires { (count ≤ most_steps) × (6 * count ≤ length l.now) }
    ensures { result ≡ first_not in_form (steps_in l.now count) }
{
    (0..count)
        .find(|i| !in_form(step_of(&l[6 * i..6 * i + 6])))
        .unwrap_or(count)
}

fn fill_records(l: &[u32], count: usize, w: &mut [u8])
    requires { (count ≤ most_steps) × (6 * count ≤ length l.now) × (12 * count ≤ length w.old) × (first_not in_form (steps_in l.now count) ≡ count) }
    ensures { w.new ≡ joined (map record_bytes (steps_in l.now count)) ++ drop (12 * count) w.old }
{
    fill_parts(w, 12, count, |i, twelve| {
        twelve.copy_from_slice(&record_bytes(step_of(&l[6 * i..6 * i + 6])));
    });
}

// The records, then the setup's part, then the trailer's.
fn fill_script(s: Setup, l: &[u32], count: usize, w: &mut [u8])
    requires { (count ≤ most_steps) × (6 * count ≤ length l.now) × (script_length count ≤ length w.old) × (first_not in_form (steps_in l.now count) ≡ count) × (in_range s ≡ true) }
    ensures { w.new ≡ script_bytes s (steps_in l.now count) ++ drop (script_length count) w.old }
{
    fill_records(l, count, w);
    let at = 12 * count;
    let end = at + setup::BYTES;
    let _ = setup::write_setup(&mut w[at..end], s);
    put_trailer(&mut w[end..end + 12], count);
}

// Writes a script of a setup and of the first `count` steps of a list, six numbers each, over the buffer lent. Answers its length.
pub fn write_script(s: Setup, l: &[u32], count: usize, w: &mut [u8]) -> Result<usize, Rejection>
    ensures { (written_of result ≡ write_script s l.now count (length w.old)) × (w.new ≡ buffer_after s l.now count w.old) }
{
    if count > MOST_STEPS {
        return Err(reject(Refusal::Trailer, 0));
    }
    if l.len() < 6 * count {
        return Err(reject(Refusal::Trailer, 0));
    }
    if !s.in_range() {
        return Err(reject(Refusal::Setup, 12 * count));
    }
    let first = first_step(l, count);
    if first < count {
        return Err(reject(Refusal::Form, 12 * first));
    }
    let length = 12 * count + FRAME;
    if w.len() < length {
        return Err(reject(Refusal::Room, 0));
    }
    fill_script(s, l, count, w);
    Ok(length)
}
