// Division rounded down.
ghost use Rattle.std.specs.Prelude.{◌≡◌, pos, nat_abs, ◌<ℤ◌};
ghost use Rattle.integers.specs.Floor.{floor_div};

// x / d rounded down; `/` rounds toward zero.
pub fn floor(x: i64, d: i64) -> i64
    requires { pos 0 <ℤ d }
    ensures { result ≡ floor_div x (nat_abs d) }
{
    x.div_euclid(d)
}
