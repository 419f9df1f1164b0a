// Which packet of a channel's send queue goes next: its oldest eligible one.
// Assumes nothing: every function takes all values.
#![tactic(auto, unfolding(crate::specs::Seen::seen_in, crate::specs::Choice::chosen))]

ghost use Rattle.std.specs.Prelude.{◌≡◌, []};
ghost use Rattle.store.specs.Store.{held};
ghost use Rattle.choice.specs.Choice.{credit_of, chosen};
ghost use Rattle.choice.specs.Seen.{seen_in, has_seen, seeing, may_go};

use credits::Credit;
use packets::{Category, Packet};
use store::Packets;

// Which categories the packets passed are of, by the category's number.
#[derive(Clone, Copy)]
pub struct Seen {
    pub flags: [bool; 3],
}

impl Seen {
    pub fn none() -> Seen
        ensures { result ≡ seen_in [] }
    {
        Seen { flags: [false; 3] }
    }

    // Was one of category c passed?
    fn has(self, c: Category) -> bool
        ensures { result ≡ has_seen self c }
    {
        self.flags[usize::from(c.number())]
    }

    // One of category c is passed.
    pub fn with(self, c: Category) -> Seen
        ensures { result ≡ seeing self c }
    {
        let mut r = self;
        r.flags[usize::from(c.number())] = true;
        r
    }

    // May a packet go after these? One of its category rules it out, and so does a posted one, whatever it is itself.
    pub fn lets(self, c: Category, credit: Credit, p: Packet) -> bool
        ensures { result ≡ may_go self c credit p }
    {
        !self.has(c) && credit.may_send(p.need()) && !self.has(Category::Posted)
    }
}

// The credit of a category, of a channel's three.
pub fn credit_of(credits: [Credit; 3], c: Category) -> Credit
    ensures { result ≡ credit_of credits c }
{
    credits[usize::from(c.number())]
}

// The place of the oldest eligible packet, in one walk.
pub fn choose(q: Packets, credits: [Credit; 3]) -> Option<usize>
    ensures { result ≡ chosen credits (held q) }
{
    let mut seen = Seen::none();
    for (i, p) in q.held().iter().enumerate() {
        let c = p.category();
        if seen.lets(c, credit_of(credits, c), *p) {
            return Some(i);
        }
        seen = seen.with(c);
    }
    None
}
