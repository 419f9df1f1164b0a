// A bounded list of packets in lent words, oldest first: one more, some taken out, and the walks along it.
// Assumes that 49 words are lent: 48 places and the length.
ghost use Rattle.std.specs.Prelude.{◌≡◌, map, ◌≤◌, length, position};
ghost use Rattle.basics.specs.Lists.{find};
ghost use Rattle.choice.specs.Choice.{credit_of, chosen};
ghost use Rattle.store.specs.Store.{held, at, pushed, without, removed, released, is_of, of_category};
ghost use Rattle.words.specs.Words.{packet_in, credit_in};
ghost use Rattle.words.specs.Memory.{places, list_words, packets_in};

use choice::Seen;
use credits::Credit;
use packets::{Category, Packet};
use words::Word;

// The places of a list. Behind them stands how many it holds.
pub const PLACES: usize = 48;
// The words of a list.
pub const LIST: usize = 49;

// How many it holds.
pub fn size(q: &[u64]) -> usize
    requires { length q.now ≡ list_words }
    ensures value { result ≡ length (held (packets_in q.now)) }
    ensures upper_bound { result ≤ places }
{
    q[PLACES].min(PLACES as u64) as usize
}

// The word of the packet at place i; past the end 0, a packet of zeros.
pub fn word_at(q: &[u64], i: usize) -> u64
    requires { length q.now ≡ list_words }
    ensures { packet_in result ≡ at (packets_in q.now) i }
{
    if i < size(q) {
        return q[i];
    }
    0
}

// One more at the end, unless it is full.
pub fn push(q: &mut [u64], w: u64)
    requires { length q.old ≡ list_words }
    ensures q_after { packets_in q.new ≡ pushed (packets_in q.old) (packet_in w) }
    ensures q_len { length q.new ≡ list_words }
{
    let n = q[PLACES];
    if n < 48 {
        let k = n as usize;
        q[k] = w;
        q[PLACES] = n + 1;
    }
}

// Without the packets from place a up to place b, unless it does not hold so many.
fn leave_out(q: &mut [u64], a: usize, b: usize)
    requires { (length q.old ≡ list_words) × (a ≤ b) }
    ensures q_after { packets_in q.new ≡ without (packets_in q.old) a b }
    ensures q_len { length q.new ≡ list_words }
{
    let n = q[PLACES] as usize;
    if b <= n && n <= PLACES {
        q.copy_within(b..n, a);
        q[PLACES] = (n - (b - a)) as u64;
    }
}

// Without the packet at place i, unless there is none.
pub fn remove(q: &mut [u64], i: usize)
    requires { length q.old ≡ list_words }
    ensures q_after { packets_in q.new ≡ removed (packets_in q.old) i }
    ensures q_len { length q.new ≡ list_words }
{
    if i < PLACES {
        leave_out(q, i, i + 1);
    }
}

// Without its k oldest, unless it holds fewer.
pub fn release(q: &mut [u64], k: usize)
    requires { length q.old ≡ list_words }
    ensures q_after { packets_in q.new ≡ released (packets_in q.old) k }
    ensures q_len { length q.new ≡ list_words }
{
    leave_out(q, 0, k);
}

// Is the packet of this word of category c?
fn is_of(w: u64, c: Category) -> bool
    ensures { result ≡ is_of c (packet_in w) }
{
    store::is_of(Packet::from_word(w), c)
}

// How many of category c it holds.
pub fn count_of(q: &[u64], c: Category) -> usize
    requires { length q.now ≡ list_words }
    ensures { result ≡ length (of_category c (held (packets_in q.now))) }
{
    // No chain: the count of a filter has a branch for each word, and a step of mixed scripts then took a tenth longer.
    let mut n = 0;
    for w in &q[..size(q)] {
        n += usize::from(is_of(*w, c));
    }
    n
}

// The place of its oldest packet of category c.
pub fn oldest(q: &[u64], c: Category) -> Option<usize>
    requires { length q.now ≡ list_words }
    ensures { result ≡ find (is_of c) (held (packets_in q.now)) 0 }
{
    q[..size(q)].iter().position(|w| is_of(*w, c))
}

// The credit of a category, of a channel's three.
fn credit_for(k: &[u64], c: Category) -> Credit
    requires { length k.now ≡ 3 }
    ensures { result ≡ credit_of (map credit_in k.now) c }
{
    Credit::from_word(k[usize::from(c.number())])
}

// The place of the oldest eligible packet, in one walk, under a channel's three credits.
pub fn choose(q: &[u64], k: &[u64]) -> Option<usize>
    requires { (length q.now ≡ list_words) × (length k.now ≡ 3) }
    ensures { result ≡ chosen (map credit_in k.now) (held (packets_in q.now)) }
{
    let mut seen = Seen::none();
    for (i, w) in q[..size(q)].iter().enumerate() {
        let p = Packet::from_word(*w);
        let c = p.category();
        if seen.lets(c, credit_for(k, c), p) {
            return Some(i);
        }
        seen = seen.with(c);
    }
    None
}
