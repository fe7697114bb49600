// The four units of the specification ("Words and units"), and the two formulas that turn one into another. No two of them are ever added.
#![tactic(auto)]

ghost use Rattle.std.specs.Prelude.{◌≡◌, ◌+◌, ◌/◌, ◌<◌, ◌^◌, pos};
ghost use Rattle.definitions.specs.Logarithm.{logarithm};
ghost use Rattle.definitions.specs.Weight.{weight};
ghost use Rattle.scales.specs.Squaring.{Start, Next, FourLogarithms};

// A cumulative amount of a triangle.
#[derive(Drop)]
pub struct Amount(pub u64);

// A number of ticks: a logarithm, or a sum or difference of logarithms. A doubling has 1,048,576 of them.
#[derive(Drop)]
pub struct Ticks(pub i64);

// A variance, in squared ticks.
#[derive(Drop)]
pub struct Variance(pub u64);

// The weight of a variance.
#[derive(Drop)]
pub struct Weight(pub u64);

// Four logarithms.
#[derive(Drop)]
pub struct FourTicks {
    pub first: Ticks,
    pub second: Ticks,
    pub third: Ticks,
    pub fourth: Ticks,
}

// Each squaring finds one bit behind the whole part: 20 of them for ticks, and one of half a tick, by which they are rounded.
const SQUARINGS: u32 = 21;

// What is between two squarings: y, and the logarithm's bits so far, the whole part first.
#[derive(Drop)]
struct Squaring {
    y: u64,
    bits: u32,
}

// The whole part, and y below 2^32: the highest one bit is brought to place 63, and from there to 31. Of 0 both are 0.
fn start(a: u64) -> Squaring
    ensures { Start a result }
{
    if a == 0 {
        return Squaring { y: 0, bits: 0 };
    }
    let zeros = a.leading_zeros();
    Squaring {
        y: (a << zeros) >> 32,
        bits: 63 - zeros,
    }
}

// One squaring. The square is at least 2^63 exactly if its highest bit is one, so that no branch is needed.
fn squared(s: Squaring) -> Squaring
    requires { (s.y < 2 ^ 32) × (s.bits < 2 ^ 31) }
    ensures { Next s result }
{
    let y = s.y;
    let square = y * y;
    let bit = square >> 63;
    Squaring {
        y: square >> (31 + bit),
        bits: 2 * s.bits + bit as u32,
    }
}

// The ticks, when all bits are found: the half ticks that these are, to the nearest, a half going up.
fn nearest(s: Squaring) -> Ticks
    requires { s.bits < 2 ^ 31 }
    ensures { result.0 ≡ pos ((s.bits + 1) / 2) }
{
    Ticks(((s.bits + 1) / 2) as i64)
}

// The logarithm of an amount, rounded to ticks; of 0 it is 0.
pub fn logarithm_of(a: Amount) -> Ticks
    ensures { result.0 ≡ pos (logarithm a.0) }
{
    let mut s = start(a.0);
    for _ in 0..SQUARINGS {
        s = squared(s);
    }
    nearest(s)
}

// The logarithms of four amounts. A squaring waits for the one before it, so the four are squared side by side.
pub fn four_logarithms_of(a: Amount, b: Amount, c: Amount, d: Amount) -> FourTicks
    ensures { FourLogarithms a.0 b.0 c.0 d.0 result }
{
    let mut first = start(a.0);
    let mut second = start(b.0);
    let mut third = start(c.0);
    let mut fourth = start(d.0);
    for _ in 0..SQUARINGS {
        first = squared(first);
        second = squared(second);
        third = squared(third);
        fourth = squared(fourth);
    }
    FourTicks {
        first: nearest(first),
        second: nearest(second),
        third: nearest(third),
        fourth: nearest(fourth),
    }
}

// The weight of a variance: 2^46 / v, rounded, a half up. It is 0 for 0, and for all above 2^47.
#[tactic(auto, using(std::proofs::lemmas::Grind::common_steps), unfolding(definitions::specs::Weight::weight))]
pub fn weight_of(v: Variance) -> Weight
    ensures { result.0 ≡ weight v.0 }
{
    let variance = v.0;
    if variance == 0 {
        return Weight(0);
    }
    if 140737488355328 < variance {
        return Weight(0);
    }
    Weight((140737488355328 + variance) / (2 * variance))
}
