// What knows nothing of links, and that the library has not: a list filled in parts.
// Assumes nothing.
#![tactic(auto)]

ghost use Rattle.std.specs.Prelude.{◌≡◌, ℕ, ◌*◌, ◌<◌, ◌≤◌, List, ◌++◌, map, length, drop};
ghost use Rattle.std.specs.Borrow.{MutBor};
ghost use Rattle.std.specs.List.{range_with_len};
ghost use Rattle.basics.specs.Parts.{joined};

// Fills the first of a list part by part, all of one width: `put` writes part i.
pub fn fill_parts<T, F: Fn(usize, &mut [T]) + Drop>(
    list: &mut [T],
    width: usize,
    count: usize,
    put: F,
)
    requires callable { (i : ℕ) (x : MutBor (List T)) → i < count → length x.now ≡ width → F.pre put i x }
    requires room { width * count ≤ length list.old }
    ensures { (g : ℕ → List T) → ((i : ℕ) (x y : MutBor (List T)) → i < count → length x.now ≡ width → F.post put i x tt y → y.now ≡ g i) → list.new ≡ joined (map g (range_with_len 0 count)) ++ drop (width * count) list.old }
{
    for i in 0..count {
        put(i, &mut list[width * i..width * i + width]);
    }
}
