// Credits: what one category of one channel may still send, and the room that its receiver has for it.
// Assumes nothing: every function takes all values.
#![tactic(auto, unfolding(crate::specs::Credits::advertised, crate::specs::Credits::spent, crate::specs::Credits::updated, crate::specs::Credits::room_answer, crate::specs::Credits::received, crate::specs::Credits::given_back, crate::specs::Credits::marked, crate::specs::Credits::unmarked))]

ghost use Rattle.std.specs.Prelude.{◌≡◌};
ghost use Rattle.answers.specs.Answers.{answer_of};
ghost use Rattle.counters.specs.Counters.{update_answer};
ghost use Rattle.credits.specs.Credits.{advertised, credit_for, suffices, spent, updated, room_of, free_of, room_answer, received, given_back, marked, unmarked};

use answers::Refusal;
use counters::{Counts, Data, Header, Wrapped};

// The units that a setup gives, as counts. Answer 5 refuses more header units than their counter holds; here they count as none.
pub fn advertised(header: u16, units: u16) -> Counts
    ensures { result ≡ advertised header units }
{
    let h = if header < Header::RANGE {
        Header::of(header)
    } else {
        Header::start()
    };
    Counts { h, d: Data(units) }
}

// The sender's side: the limit comes from the other end, consumed counts what was sent as new.
#[derive(Clone, Copy)]
pub struct Credit {
    pub limit: Counts,
    pub consumed: Counts,
}

impl Credit {
    // From 0, under the limit of the other end's setup.
    pub fn start(limit: Counts) -> Credit
        ensures { result ≡ credit_for limit }
    {
        Credit {
            limit,
            consumed: Counts::start(),
        }
    }

    // May a packet of this need be sent?
    pub fn may_send(self, need: Counts) -> bool
        ensures { result ≡ suffices self need }
    {
        self.limit.may_send(self.consumed, need)
    }

    // A new packet of this need was sent.
    pub fn spend(self, need: Counts) -> Credit
        ensures { result ≡ spent self need }
    {
        Credit {
            consumed: self.consumed.add(need),
            ..self
        }
    }

    // Refused where an update to these limits is not accepted.
    pub fn update_answer(self, limits: Counts) -> Result<(), Refusal>
        ensures { answer_of result ≡ update_answer self.limit limits }
    {
        self.limit.update_answer(limits)
    }

    // An accepted update: both limits are replaced.
    pub fn updated(self, limits: Counts) -> Credit
        ensures { result ≡ updated self limits }
    {
        Credit {
            limit: limits,
            ..self
        }
    }
}

// The receiver's side: the units that it made known, those that came in, and whether an update is marked.
#[derive(Clone, Copy)]
pub struct Room {
    pub allocated: Counts,
    pub received: Counts,
    pub marked: bool,
}

impl Room {
    // From 0, with the units of its own setup.
    pub fn start(allocated: Counts) -> Room
        ensures { result ≡ room_of allocated }
    {
        Room {
            allocated,
            received: Counts::start(),
            marked: false,
        }
    }

    // Allocated − received.
    pub fn free(self) -> Counts
        ensures { result ≡ free_of self }
    {
        self.allocated.sub(self.received)
    }

    // Refused where the need is over the free header or data room.
    pub fn room_answer(self, need: Counts) -> Result<(), Refusal>
        ensures { answer_of result ≡ room_answer self need }
    {
        let free = self.free();
        if need.h.0 <= free.h.0 && need.d.0 <= free.d.0 {
            Ok(())
        } else {
            Err(Refusal::OverRoom)
        }
    }

    // A packet of this need was accepted: received grows.
    pub fn receive(self, need: Counts) -> Room
        ensures { result ≡ received self need }
    {
        Room {
            received: self.received.add(need),
            ..self
        }
    }

    // A packet of this need was taken: its units are allocated anew and the update is marked.
    pub fn give_back(self, need: Counts) -> Room
        ensures { result ≡ given_back self need }
    {
        Room {
            allocated: self.allocated.add(need),
            ..self.mark()
        }
    }

    // Its update is marked.
    pub fn mark(self) -> Room
        ensures { result ≡ marked self }
    {
        Room {
            marked: true,
            ..self
        }
    }

    // Its update was sent: the mark is cleared.
    pub fn unmark(self) -> Room
        ensures { result ≡ unmarked self }
    {
        Room {
            marked: false,
            ..self
        }
    }
}
