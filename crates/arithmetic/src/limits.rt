// Numbers brought inside their limits.
ghost use Rattle.std.specs.Prelude.{◌≤◌, min, max, ◌≡◌};
ghost use Rattle.definitions.specs.Sweep.{bring_back};

const PART_LIMIT: i64 = 67_108_864;

// A part or a logarithm: z itself, or the limit that it has passed.
pub fn brought_back(z: i64) -> i64
    ensures { result ≡ bring_back z }
{
    z.clamp(-PART_LIMIT, PART_LIMIT)
}

// Any other number: v itself, or the limit that it has passed.
pub fn brought_within(low: u64, high: u64, v: u64) -> u64
    requires { low ≤ high }
    ensures { result ≡ max low (min high v) }
{
    v.clamp(low, high)
}
