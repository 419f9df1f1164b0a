// What is answered: a refusal, which says why a script, a step, a frame or a state is not accepted, or what a step leaves.
// Each refusal has the number that users and hosts see.
// Assumes nothing.
#![tactic(auto)]

ghost use Rattle.std.specs.Prelude.{◌≡◌};
ghost use Rattle.answers.specs.Answers.{answer_of, number_of};

use std::error::Error;
use std::fmt;

#[derive(Clone, Copy, Debug, PartialEq, Eq)]
pub enum Refusal {
    ScriptTooShort = 1,
    ScriptTooLong = 2,
    Mark = 3,
    Trailer = 4,
    Setup = 5,
    Form = 6,
    Room = 7,
    Shape = 10,
    End = 11,
    Kind = 12,
    Class = 13,
    Length = 14,
    TooManyUnits = 15,
    QueueFull = 16,
    LineFull = 17,
    NoFrame = 18,
    LineEmpty = 19,
    Channel = 20,
    NoneWaits = 21,
    PostedWaits = 22,
    NothingOut = 23,
    Acknowledgement = 24,
    Update = 25,
    OverRoom = 26,
    Field = 27,
}

// What a step that is not refused leaves: the state after it, and its detail.
#[derive(Clone, Copy)]
pub struct After<T> {
    pub state: T,
    pub detail: u32,
}

impl Refusal {
    // Its number.
    pub fn number(self) -> u8
        ensures { result ≡ number_of self }
    {
        self as u8
    }
}

// What is answered: 0, or the number of the refusal.
pub fn answer_of<T: Copy>(outcome: Result<T, Refusal>) -> u8
    ensures { result ≡ answer_of outcome }
{
    match outcome {
        Ok(_) => 0,
        Err(refusal) => refusal.number(),
    }
}

impl fmt::Display for Refusal {
    fn fmt<W: fmt::Write>(&self, f: &mut fmt::Formatter<W>) -> fmt::Result {
        f.write_str(match self {
            Refusal::ScriptTooShort => "script under 116 bytes",
            Refusal::ScriptTooLong => "script over 65,528 bytes",
            Refusal::Mark => "mark wrong",
            Refusal::Trailer => "trailer disagrees with the length, or too many steps",
            Refusal::Setup => "setup out of range",
            Refusal::Form => "a step out of form",
            Refusal::Room => "buffer or list too short",
            Refusal::Shape => "state handed in out of shape",
            Refusal::End => "end not 0 or 1",
            Refusal::Kind => "kind over 9",
            Refusal::Class => "class over 7, or not 0 for kinds 2 to 5",
            Refusal::Length => "length out of the kind's range",
            Refusal::TooManyUnits => "needs more data units than the other end's setup gives",
            Refusal::QueueFull => "queue full: 8 of its category wait on its channel",
            Refusal::LineFull => "line full",
            Refusal::NoFrame => "no frame applies",
            Refusal::LineEmpty => "line empty",
            Refusal::Channel => "channel not in use, or category over 2",
            Refusal::NoneWaits => "none waiting",
            Refusal::PostedWaits =>
                "not posted, and a posted packet that arrived earlier waits on that channel",
            Refusal::NothingOut => "nothing unacknowledged",
            Refusal::Acknowledgement => "Ack or Nak number not accepted",
            Refusal::Update => "update not accepted",
            Refusal::OverRoom => "packet in sequence but over the free room",
            Refusal::Field => "a field of a frame out of range",
        })
    }
}

impl Error for Refusal {}
