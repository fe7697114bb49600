// Sums one after another.
ghost use Rattle.std.specs.Prelude.{◌≡◌, ℕ, ℤ, ◌<◌, ◌≤◌, ◌^◌, nat_abs};
ghost use Rattle.integers.specs.Sum.{sum};
ghost use Rattle.definitions.specs.Words.{part};

// The sums of the first n terms, for n = 0..count.
pub fn running_sums<F: Fn(usize) -> i64>(count: usize, term: F) -> [i64; 16]
    requires few { count ≤ 15 }
    requires callable { (n : ℕ) → n < count → F.pre term n }
    requires small { (n : ℕ) (z : ℤ) → n < count → F.post term n z → nat_abs z ≤ 2 ^ 58 }
    ensures { (f : ℕ → ℤ) → ((n : ℕ) (z : ℤ) → n < count → F.post term n z → z ≡ f n)
        → (n : ℕ) → n ≤ count → part result n ≡ sum n f }
{
    let mut sums = [0i64; 16];
    let mut total = 0i64;
    for n in 0..count {
        total += term(n);
        sums[n + 1] = total;
    }
    sums
}
