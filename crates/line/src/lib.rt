// One line of the link: the frames on it in the order in which they were sent, oldest first. Lines never reorder.
// Assumes nothing: every function takes all values, also a length past the end.
#![tactic(auto, unfolding(crate::specs::Line::put, crate::specs::Line::rest_of))]

ghost use Rattle.std.specs.Prelude.{◌≡◌};
ghost use Rattle.line.specs.Line.{empty, is_full, put, front_of, rest_of};

use counters::Seq;
use frames::Frame;
use packets::Packet;

// A place on the line: `on_line` and the theorems speak of places.
#[derive(Clone, Copy)]
pub struct Slot {
    pub frame: Frame,
}

// The first `len` slots are on the line. An array and its length, since `len` may pass the end: `shape::in_shape` and the pair's
// step answer 10 on just such values.
#[derive(Clone, Copy)]
pub struct Line {
    pub slots: [Slot; 16],
    pub len: usize,
}

impl Line {
    pub fn empty() -> Line
        ensures { result ≡ empty }
    {
        let zeros = Packet {
            kind: 0,
            class: 0,
            length: 0,
            ident: 0,
        };
        let blank = Slot {
            frame: Frame::Packet(Seq(0), zeros),
        };
        Line {
            slots: [blank; 16],
            len: 0,
        }
    }

    pub fn is_full(self) -> bool
        ensures { result ≡ is_full self }
    {
        16 <= self.len
    }

    // With one more frame at its end, or as it was where it is full.
    pub fn put(self, f: Frame) -> Line
        ensures { result ≡ put self f }
    {
        let mut r = self;
        if self.len < 16 {
            r.slots[self.len] = Slot { frame: f };
            r.len += 1;
        }
        r
    }

    // The oldest frame, if there is one.
    pub fn front(self) -> Option<Frame>
        ensures { result ≡ front_of self }
    {
        if self.len == 0 {
            return None;
        }
        Some(self.slots[0].frame)
    }

    // Without its oldest frame, or as it was where there is none: the later ones move down.
    pub fn rest(self) -> Line
        ensures { result ≡ rest_of self }
    {
        let mut r = self;
        if (1..=16).contains(&self.len) {
            r.slots.copy_within(1..self.len, 0);
            r.len -= 1;
        }
        r
    }
}
