// The setup of a link: how many channels it has, the channel of each class, and the units of each end,
// channel and category; its rule (answer 5), and its 104 bytes, read and written.
// Assumes nothing.
#![tactic(auto)]

ghost use Rattle.std.specs.Prelude.{◌≡◌, map, ◌*◌, length};
ghost use Rattle.basics.specs.Parts.{cut, joined};
ghost use Rattle.answers.specs.Answers.{answer_of};
ghost use Rattle.setup.specs.Setup.{blank_setup, categories_fit, channel_of, channels_fit, classes_fit, in_range, slots, units_at, units_fit};
ghost use Rattle.setup.specs.Bytes.{found_of, read_setup, setup_after, setup_at, setup_bytes, setup_length, units_bytes, units_of, write_answer};

use answers::Refusal;
use basics::fill_parts;
use std::array;

// The most channels that a setup can have. The format has room for the units of so many.
pub const CHANNELS: usize = 4;
// A category's units at one end, on each channel: CHANNELS channels, 3 categories.
pub const PER_END: usize = 3 * CHANNELS;
// A category's units at each end and on each channel: 2 ends, CHANNELS channels, 3 categories.
pub const SLOTS: usize = 6 * CHANNELS;
// The setup's bytes: n, the channels of classes 1 to 7, and 4 bytes for each slot.
pub const BYTES: usize = 8 + 4 * SLOTS;

// The units of one category on one channel at one end.
#[derive(Clone, Copy)]
pub struct Units {
    pub header: u16,
    pub payload: u16,
}

// `n` channels are in use; `classes` are the channels of classes 1 to 7. The units of an end, channel
// and category stand at 3 * CHANNELS * end + 3 * channel + category.
#[derive(Clone, Copy)]
pub struct Setup {
    pub n: u8,
    pub classes: [u8; 7],
    pub units: [Units; SLOTS],
}

const NO_UNITS: Units = Units {
    header: 0,
    payload: 0,
};

// Do the units of a used channel, or of an unused one, keep their bounds?
#[tactic(auto, unfolding(crate::specs::Setup::units_fit))]
fn units_fit(used: bool, u: Units) -> bool
    ensures { result ≡ units_fit used u }
{
    if used {
        (1..=16).contains(&u.header) && (1..=2047).contains(&u.payload)
    } else {
        u.header == 0 && u.payload == 0
    }
}

impl Setup {
    // What stands where there is no setup.
    #[tactic(auto, unfolding(crate::specs::Setup::blank_setup))]
    pub fn blank() -> Self
        ensures { result ≡ blank_setup }
    {
        Setup {
            n: 0,
            classes: [0u8; 7],
            units: [NO_UNITS; SLOTS],
        }
    }

    // The channel of a class: class 0 is on channel 0, and a class over 7 on none.
    #[tactic(auto, unfolding(crate::specs::Setup::channel_of))]
    pub fn channel_of(self, class: u8) -> usize
        ensures { result ≡ channel_of self class }
    {
        match class {
            0 => 0,
            1..=7 => usize::from(self.classes[usize::from(class) - 1]),
            _ => CHANNELS,
        }
    }

    // The units of an end, a channel and a category.
    #[tactic(auto, unfolding(crate::specs::Setup::units_at))]
    pub fn units_at(self, end: usize, channel: usize, category: usize) -> Units
        ensures { result ≡ units_at self end channel category }
    {
        if end >= 2 || channel >= CHANNELS || category >= 3 {
            return NO_UNITS;
        }
        self.units[PER_END * end + 3 * channel + category]
    }

    fn classes_fit(self) -> bool
        ensures { result ≡ classes_fit self }
    {
        (0..8).all(|class| self.channel_of(class) < usize::from(self.n))
    }

    fn categories_fit(self, end: usize, channel: usize) -> bool
        ensures { result ≡ categories_fit self end channel }
    {
        let used = channel < usize::from(self.n);
        (0..3).all(|category| units_fit(used, self.units_at(end, channel, category)))
    }

    fn channels_fit(self, end: usize) -> bool
        ensures { result ≡ channels_fit self end }
    {
        (0..CHANNELS).all(|channel| self.categories_fit(end, channel))
    }

    // The rule of answer 5.
    pub fn in_range(self) -> bool
        ensures { result ≡ in_range self }
    {
        (1..=CHANNELS).contains(&usize::from(self.n))
            && self.classes_fit()
            && (0..2).all(|end| self.channels_fit(end))
    }
}

#[tactic(auto, unfolding(crate::specs::Bytes::units_of))]
fn units_of(b: &[u8]) -> Units
    requires { length b.now ≡ 4 }
    ensures { result ≡ units_of b.now }
{
    Units {
        header: u16::from_le_bytes([b[0], b[1]]),
        payload: u16::from_le_bytes([b[2], b[3]]),
    }
}

fn units_in(b: &[u8]) -> [Units; SLOTS]
    requires { length b.now ≡ 4 * slots }
    ensures { result ≡ map units_of (cut 4 slots b.now) }
{
    array::from_fn(|slot| units_of(&b[4 * slot..4 * slot + 4]))
}

#[tactic(auto, unfolding(crate::specs::Bytes::setup_at))]
fn setup_at(b: &[u8]) -> Setup
    requires { length b.now ≡ setup_length }
    ensures { result ≡ setup_at b.now }
{
    let mut classes = [0; 7];
    classes.copy_from_slice(&b[1..8]);
    Setup {
        n: b[0],
        classes,
        units: units_in(&b[8..]),
    }
}

// Reads a setup from its bytes.
#[tactic(auto, unfolding(crate::specs::Bytes::read_setup, crate::specs::Bytes::no_setup))]
pub fn read_setup(b: &[u8]) -> Result<Setup, Refusal>
    ensures { found_of result ≡ read_setup b.now }
{
    if b.len() != BYTES {
        return Err(Refusal::Setup);
    }
    let setup = setup_at(b);
    if !setup.in_range() {
        return Err(Refusal::Setup);
    }
    Ok(setup)
}

#[tactic(auto, unfolding(crate::specs::Bytes::units_bytes))]
fn put_units(w: &mut [u8], u: Units)
    requires { length w.old ≡ 4 }
    ensures { w.new ≡ units_bytes u }
{
    w[..2].copy_from_slice(&u.header.to_le_bytes());
    w[2..].copy_from_slice(&u.payload.to_le_bytes());
}

fn put_all_units(w: &mut [u8], units: [Units; SLOTS])
    requires { length w.old ≡ 4 * slots }
    ensures { w.new ≡ joined (map units_bytes units) }
{
    fill_parts(w, 4, SLOTS, |slot, four| put_units(four, units[slot]));
}

fn put_setup(w: &mut [u8], s: Setup)
    requires { length w.old ≡ setup_length }
    ensures { w.new ≡ setup_bytes s }
{
    w[0] = s.n;
    w[1..8].copy_from_slice(&s.classes);
    put_all_units(&mut w[8..], s.units);
}

// Writes a setup's bytes over the first of the room lent. Refused where it is out of range, or the room too short.
#[tactic(auto, unfolding(crate::specs::Bytes::write_answer, crate::specs::Bytes::setup_after))]
pub fn write_setup(w: &mut [u8], s: Setup) -> Result<(), Refusal>
    ensures { (answer_of result ≡ write_answer s (length w.old)) × (w.new ≡ setup_after s w.old) }
{
    if !s.in_range() {
        return Err(Refusal::Setup);
    }
    if w.len() < BYTES {
        return Err(Refusal::Room);
    }
    put_setup(&mut w[0..BYTES], s);
    Ok(())
}
