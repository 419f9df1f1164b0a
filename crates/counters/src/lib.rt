// The counters of the link: header units, data units, sequence numbers and the retrain count. All wrap.
// Each keeps its modulus and half range, which stand nowhere else in the code; `Wrapped` has what follows from them, once for all.
// Assumes nothing: every function takes all values.
#![tactic(auto, unfolding(crate::specs::Wrapped::plus, crate::specs::Wrapped::minus, crate::specs::Counters::added, crate::specs::Counters::between, crate::specs::Counters::may_send, crate::specs::Counters::update_answer))]

ghost use Rattle.std.specs.Prelude.{◌≡◌, ℕ, ◌-◌, ◌<◌, refl};
ghost use Rattle.std.proofs.Common.{ltb-true};
ghost use Rattle.counters.specs.Wrapped.{plus, minus, within, gate};
ghost use Rattle.answers.specs.Answers.{answer_of};
ghost use Rattle.counters.specs.Counters.{header_range, header_half, headers, data_range, data_half, datas, seq_range, seq_half, seq, next_of, before_of, after_of, order_of, ack_answer, retrain_range, retrains, counts, added, between, may_send, update_answer};

use answers::Refusal;

// Header units: one for each packet.
#[derive(Clone, Copy)]
pub struct Header(pub u8);

// Data units: one for each four words of payload.
#[derive(Clone, Copy)]
pub struct Data(pub u16);

// Sequence numbers of packets on a line.
#[derive(Clone, Copy, PartialEq, Eq)]
pub struct Seq(pub u16);

// How often the link was trained again. It only grows by one and takes all of its type, so it has no half range and is not `Wrapped`.
#[derive(Clone, Copy)]
pub struct Retrain(pub u16);

// A counter that wraps at RANGE: its sum, its difference and the tests on them. Each counter gives its numbers alone.
pub trait Wrapped: Copy {
    ghost RANGE: { ℕ };

    ghost HALF: { ℕ };

    // The number that a counter stores, and the counter that stores a number.
    ghost stored: { Self → ℕ };

    ghost storing: { ℕ → Self };

    const RANGE: u16;

    const HALF: u16;

    fn number(self) -> u16
        ensures { result ≡ stored self };

    fn of(n: u16) -> Self
        requires { n < RANGE }
        ensures { result ≡ storing n };

    // By the remainder; a counter that takes all of its type wraps by itself.
    fn add(self, n: Self) -> Self
        ensures { result ≡ storing (plus RANGE (stored self) (stored n)) }
    {
        let sum = u32::from(self.number()) + u32::from(n.number());
        Self::of((sum % u32::from(Self::RANGE)) as u16)
    }

    fn sub(self, n: Self) -> Self
        ensures { result ≡ storing (minus RANGE (stored self) (stored n)) }
    {
        let range = u32::from(Self::RANGE);
        let ahead = u32::from(self.number()) + (range - u32::from(n.number()) % range);
        Self::of((ahead % range) as u16)
    }

    final fn start() -> Self
        ensures { result ≡ storing 0 }
    {
        Self::of(0)
    }

    // Does this lie at most so far ahead of the other?
    final fn is_within(self, most: usize, other: Self) -> bool
        ensures { result ≡ within RANGE most (stored self) (stored other) }
    {
        usize::from(self.sub(other).number()) <= most
    }

    // Does this limit allow so many more?
    final fn allows(self, consumed: Self, need: Self) -> bool
        ensures { result ≡ gate RANGE HALF (stored self) (stored consumed) (stored need) }
    {
        self.sub(consumed).is_within(usize::from(Self::HALF), need)
    }

    // Does this count lie less than half the range ahead of the one stored?
    final fn follows(self, other: Self) -> bool
        ensures { result ≡ within RANGE (HALF - 1) (stored self) (stored other) }
    {
        self.is_within(usize::from(Self::HALF) - 1, other)
    }

    ghost positive: { 0 < RANGE };

    ghost halved: { 0 < HALF };

    ghost kept: { (n : ℕ) → n < RANGE → stored (storing n) ≡ n };
}

impl Wrapped for Header {
    ghost RANGE = { header_range };

    ghost HALF = { header_half };

    ghost stored = { λ c. c.0 };

    ghost storing = { headers };

    ghost positive = { ltb-true 0 header_range refl };

    ghost halved = { ltb-true 0 header_half refl };

    ghost kept = { λ n h. refl };

    const RANGE: u16 = 256;

    const HALF: u16 = 128;

    fn number(self) -> u16 {
        u16::from(self.0)
    }

    fn of(n: u16) -> Header {
        Header(n as u8)
    }

    fn add(self, n: Header) -> Header {
        Header(self.0.wrapping_add(n.0))
    }

    fn sub(self, n: Header) -> Header {
        Header(self.0.wrapping_sub(n.0))
    }
}

impl Wrapped for Data {
    ghost RANGE = { data_range };

    ghost HALF = { data_half };

    ghost stored = { λ c. c.0 };

    ghost storing = { datas };

    ghost positive = { ltb-true 0 data_range refl };

    ghost halved = { ltb-true 0 data_half refl };

    ghost kept = { λ n h. refl };

    const RANGE: u16 = 4096;

    const HALF: u16 = 2048;

    fn number(self) -> u16 {
        self.0
    }

    fn of(n: u16) -> Data {
        Data(n)
    }
}

impl Wrapped for Seq {
    ghost RANGE = { seq_range };

    ghost HALF = { seq_half };

    ghost stored = { λ c. c.0 };

    ghost storing = { seq };

    ghost positive = { ltb-true 0 seq_range refl };

    ghost halved = { ltb-true 0 seq_half refl };

    ghost kept = { λ n h. refl };

    const RANGE: u16 = 4096;

    const HALF: u16 = 2048;

    fn number(self) -> u16 {
        self.0
    }

    fn of(n: u16) -> Seq {
        Seq(n)
    }
}

// Where a packet's number stands to the one that is to be received next.
#[derive(Clone, Copy)]
pub enum Order {
    Next,
    Duplicate,
    OutOfOrder,
}

impl Seq {
    pub fn next(self) -> Self
        ensures { result ≡ next_of self }
    {
        self.add(Seq(1))
    }

    pub fn previous(self) -> Self
        ensures { result ≡ before_of self }
    {
        self.sub(Seq(1))
    }

    // The number n after this one.
    pub fn after(self, n: usize) -> Self
        ensures { result ≡ after_of self n }
    {
        self.add(Seq((n % usize::from(Seq::RANGE)) as u16))
    }

    // What a packet of this number is where self is next-receive.
    pub fn order(self, number: Seq) -> Order
        ensures { result ≡ order_of self number }
    {
        if number == self {
            Order::Next
        } else if self.is_within(usize::from(Seq::HALF), number) {
            Order::Duplicate
        } else {
            Order::OutOfOrder
        }
    }

    // Refused where an Ack or Nak of this number is not accepted: self was acknowledged last, and `out` packets are out after it.
    pub fn ack_answer(self, out: usize, number: Seq) -> Result<(), Refusal>
        ensures { answer_of result ≡ ack_answer self out number }
    {
        if number.is_within(out, self) {
            Ok(())
        } else {
            Err(Refusal::Acknowledgement)
        }
    }
}

impl Retrain {
    pub const RANGE: u32 = 65536;

    pub fn start() -> Self
        ensures { result ≡ retrains 0 }
    {
        Retrain(0)
    }

    pub fn grow(self) -> Self
        ensures { result ≡ retrains (plus retrain_range self.0 1) }
    {
        Retrain(self.0.wrapping_add(1))
    }
}

// Header units and data units side by side: a limit, a count or what a packet needs. No sum takes one of each.
#[derive(Clone, Copy)]
pub struct Counts {
    pub h: Header,
    pub d: Data,
}

impl Counts {
    pub fn start() -> Self
        ensures { result ≡ counts (headers 0) (datas 0) }
    {
        Counts {
            h: Header::start(),
            d: Data::start(),
        }
    }

    pub fn add(self, n: Counts) -> Self
        ensures { result ≡ added self n }
    {
        Counts {
            h: self.h.add(n.h),
            d: self.d.add(n.d),
        }
    }

    pub fn sub(self, n: Counts) -> Self
        ensures { result ≡ between self n }
    {
        Counts {
            h: self.h.sub(n.h),
            d: self.d.sub(n.d),
        }
    }

    // May a packet of this need be sent under this limit?
    pub fn may_send(self, consumed: Counts, need: Counts) -> bool
        ensures { result ≡ may_send self consumed need }
    {
        self.h.allows(consumed.h, need.h) && self.d.allows(consumed.d, need.d)
    }

    // Refused where an update is not accepted in place of this limit.
    pub fn update_answer(self, update: Counts) -> Result<(), Refusal>
        ensures { answer_of result ≡ update_answer self update }
    {
        if update.h.follows(self.h) && update.d.follows(self.d) {
            Ok(())
        } else {
            Err(Refusal::Update)
        }
    }
}
