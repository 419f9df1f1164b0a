// A bounded list of packets in the order of their age, oldest first: a send queue, a receive buffer or a replay buffer.
// Assumes nothing: every function takes all values, also a length past the end.
#![tactic(auto, unfolding(crate::specs::Store::pushed, crate::specs::Store::without))]

ghost use Rattle.std.specs.Prelude.{◌≡◌, ◌≤◌, ◌+◌, length};
ghost use Rattle.basics.specs.Lists.{find};
ghost use Rattle.packets.specs.Packets.{data_together};
ghost use Rattle.store.specs.Store.{no_packet, empty, held, at, pushed, without, removed, released, is_of, of_category};

use packets::{Category, Packet};

// The first `len` items are held. Its largest use has 48: a receive buffer with 16 header units in each of three categories.
// An array and its length, since `len` may pass the end: `shape::in_shape` and the steps answer 10 on just such values.
#[derive(Clone, Copy)]
pub struct Packets {
    pub items: [Packet; 48],
    pub len: usize,
}

fn no_packet() -> Packet
    ensures { result ≡ no_packet }
{
    Packet {
        kind: 0,
        class: 0,
        length: 0,
        ident: 0,
    }
}

// Is this packet of category c?
pub fn is_of(p: Packet, c: Category) -> bool
    ensures { result ≡ is_of c p }
{
    p.category() == c
}

impl Packets {
    pub fn empty() -> Packets
        ensures { result ≡ empty }
    {
        Packets {
            items: [no_packet(); 48],
            len: 0,
        }
    }

    // How many it holds.
    pub fn size(self) -> usize
        ensures value { result ≡ length (held self) }
        ensures upper_bound { result ≤ 48 }
    {
        self.len.min(48)
    }

    // What it holds, oldest first.
    pub fn held(&self) -> &[Packet]
        ensures value { result.now ≡ held self.now }
        ensures upper_bound { length result.now ≤ 48 }
    {
        &self.items[..self.size()]
    }

    // The packet at place i, oldest first; past the end a packet of zeros.
    pub fn at(self, i: usize) -> Packet
        ensures { result ≡ at self i }
    {
        self.held().get(i).copied().unwrap_or(no_packet())
    }

    // With one more at the end, or as it was where it is full.
    pub fn push(self, p: Packet) -> Packets
        ensures { result ≡ pushed self p }
    {
        let mut r = self;
        if self.len < 48 {
            r.items[self.len] = p;
            r.len += 1;
        }
        r
    }

    // Without the packets from place a up to place b: the later ones move down. As it was where it does not hold so many.
    fn without(self, a: usize, b: usize) -> Packets
        ensures { result ≡ without self a b }
    {
        let mut r = self;
        if a <= b && b <= self.len && self.len <= 48 {
            r.items.copy_within(b..self.len, a);
            r.len -= b - a;
        }
        r
    }

    // Without the packet at place i, or as it was where there is none.
    pub fn remove(self, i: usize) -> Packets
        ensures { result ≡ removed self i }
    {
        if i < self.len {
            return self.without(i, i + 1);
        }
        self
    }

    // Without its k oldest, or as it was where it holds fewer.
    pub fn release(self, k: usize) -> Packets
        ensures { result ≡ released self k }
    {
        self.without(0, k)
    }

    // How many of category c it holds: these are also their header units.
    pub fn count_of(self, c: Category) -> usize
        ensures { result ≡ length (of_category c (held self)) }
    {
        self.held().iter().filter(|p| is_of(**p, c)).count()
    }

    // The data units of its packets of category c together.
    pub fn data_of(self, c: Category) -> usize
        ensures { result ≡ data_together (of_category c (held self)) }
    {
        self.held()
            .iter()
            .filter(|p| is_of(**p, c))
            .map(|p| usize::from(p.need().d.0))
            .sum()
    }

    // The place of its oldest packet of category c.
    pub fn oldest(self, c: Category) -> Option<usize>
        ensures { result ≡ find (is_of c) (held self) 0 }
    {
        self.held().iter().position(|p| is_of(*p, c))
    }
}
