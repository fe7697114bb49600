// What every sum is made of.
ghost use Rattle.std.specs.Prelude.{◌≡◌, pos, ◌-ℤ◌, ◌*ℤ◌};
ghost use Rattle.differences.specs.Differences.{OfTerm};

// Weight times difference.
pub fn weighed(weight: u64, part: i64, observed: i64) -> i64
    requires { OfTerm weight part observed }
    ensures { result ≡ pos weight *ℤ (part -ℤ observed) }
{
    weight as i64 * (part - observed)
}
