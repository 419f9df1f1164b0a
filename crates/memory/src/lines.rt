// A line in lent words: its oldest frame, one frame more, and what is left without the oldest.
// Assumes that its 33 words are lent: two for each of 16 frames, and the length.
ghost use Rattle.std.specs.Prelude.{◌≡◌, length};
ghost use Rattle.line.specs.Line.{is_full, put, rest_of};
ghost use Rattle.words.specs.Words.{frame_in};
ghost use Rattle.words.specs.Memory.{line_words, line_in};

// The places of a line.
pub const FRAMES: usize = 16;
// Where its length stands, behind the frames.
pub const ON_IT: usize = 32;
// The words of a line.
pub const LINE: usize = 33;

pub fn is_full(l: &[u64]) -> bool
    requires { length l.now ≡ line_words }
    ensures { result ≡ is_full (line_in l.now) }
{
    16 <= l[ON_IT]
}

// One more frame at its end, of these two words, unless it is full.
pub fn put(l: &mut [u64], head: u64, rest: u64)
    requires { length l.old ≡ line_words }
    ensures l_after { line_in l.new ≡ put (line_in l.old) (frame_in head rest) }
    ensures l_len { length l.new ≡ line_words }
{
    let n = l[ON_IT] as usize;
    if n < FRAMES {
        l[2 * n] = head;
        l[2 * n + 1] = rest;
        l[ON_IT] = (n + 1) as u64;
    }
}

// Without its oldest frame, unless there is none: the later ones move down.
pub fn leave(l: &mut [u64])
    requires { length l.old ≡ line_words }
    ensures l_after { line_in l.new ≡ rest_of (line_in l.old) }
    ensures l_len { length l.new ≡ line_words }
{
    let n = l[ON_IT] as usize;
    if 1 <= n && n <= FRAMES {
        l.copy_within(2..2 * n, 0);
        l[ON_IT] = (n - 1) as u64;
    }
}
