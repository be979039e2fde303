// Helpers on f64 that the Rust has in its library: clamp, whole part, rounding, range tests. From comparisons and bits, so that each contract names the answer for every
// float: the library's `clamp` asks that lo <= hi, and its `max` and `min` drop a NaN.
#![tactic(auto)]

ghost use Rattle.std.specs.Prelude.{◌≡◌, not};
ghost use Rattle.float64.specs.Number.{is_number, is_finite, in_range, in_unit, in_signed_unit, is_plus_zero, rate_fits, coefficient_fits, phase_fits, frequency_fits, sine_fits, allpass_fits, saturated_fits, clamp_of, at_least, at_most, absolute, whole_part, significand_of, Small, round_half_away};

// IEEE 754's exponent field, the eleven bits under the sign. The field of 1.0: a number with a lower one is below one.
const FIELD_OF_ONE: u64 = 1023;
// The field of 2^52, from where on the significand's last bit weighs one or more: no bit is left for a fraction.
const FIELD_WITHOUT_FRACTION: u64 = 1075;
// The field of 2^64, the least number that a u64 does not hold.
const FIELD_BEYOND_U64: u64 = 1087;

// Whether x is a NaN.
#[tactic(auto, using(crate::proofs::Tests::nan_cases), unfolding(crate::specs::Number::is_number))]
pub fn is_nan(x: f64) -> bool
    ensures { result ≡ not (is_number x) }
{
    x.is_nan()
}

// Whether x is neither a NaN nor an infinity.
#[tactic(auto, using(crate::proofs::Tests::finite_cases), unfolding(crate::specs::Number::is_finite, crate::proofs::Literals::of_bits, crate::proofs::Literals::neg, crate::proofs::Literals::div))]
pub fn is_finite(x: f64) -> bool
    ensures { result ≡ is_finite x }
{
    let infinity = 1.0 / 0.0;
    x < infinity && x > -infinity
}

// Whether x is +0: no for -0. A NaN's bits may not be asked for; `x == 0.0` keeps it out.
#[tactic(auto, using(crate::proofs::Tests::other_bits), unfolding(crate::specs::Number::is_plus_zero, crate::proofs::Literals::of_bits))]
pub fn is_plus_zero(x: f64) -> bool
    ensures { result ≡ is_plus_zero x }
{
    if x == 0.0 {
        return f64::to_bits(x) == 0;
    }
    false
}

// Whether lo <= x <= hi: no for a NaN.
#[tactic(auto, unfolding(crate::specs::Number::in_range))]
pub fn in_range(x: f64, lo: f64, hi: f64) -> bool
    ensures { result ≡ in_range x lo hi }
{
    x >= lo && x <= hi
}

// Whether 0 <= x < 1: no for a NaN, yes for -0.
#[tactic(auto, unfolding(crate::specs::Number::in_unit, crate::proofs::Literals::of_bits, crate::proofs::Literals::of_int))]
pub fn in_unit(x: f64) -> bool
    ensures { result ≡ in_unit x }
{
    x >= 0.0 && x < 1.0
}

// Whether -1 <= x <= 1: no for a NaN, yes for both ends.
#[tactic(auto, unfolding(crate::proofs::Literals::of_bits, crate::proofs::Literals::of_int, crate::proofs::Literals::neg))]
fn in_signed_unit(x: f64) -> bool
    ensures { result ≡ in_signed_unit x }
{
    in_range(x, -1.0, 1.0)
}

// Whether x is a sample rate that a start accepts: 8,000 to 192,000.
#[tactic(auto, unfolding(crate::proofs::Literals::of_bits, crate::proofs::Literals::of_int))]
pub fn rate_fits(x: f64) -> bool
    ensures { result ≡ rate_fits x }
{
    in_range(x, 8000.0, 192000.0)
}

// Whether x is a glide coefficient.
// The test of `phase_fits` under a name of its own: each names a number that the table tests, a coefficient for causes 2 and 4, a phase for 4.
pub fn coefficient_fits(x: f64) -> bool
    ensures { result ≡ coefficient_fits x }
{
    in_unit(x)
}

// Whether x is a phase.
pub fn phase_fits(x: f64) -> bool
    ensures { result ≡ phase_fits x }
{
    in_unit(x)
}

// Whether x is a frequency that a tick accepts: 0 to 32 Hz.
#[tactic(auto, unfolding(crate::proofs::Literals::of_bits, crate::proofs::Literals::of_int))]
pub fn frequency_fits(x: f64) -> bool
    ensures { result ≡ frequency_fits x }
{
    in_range(x, 0.0, 32.0)
}

// Whether x is a sine.
// The test of `allpass_fits` and `saturated_fits` under a name of its own: each names a number that the table tests, all for cause 6, of other effects.
pub fn sine_fits(x: f64) -> bool
    ensures { result ≡ sine_fits x }
{
    in_signed_unit(x)
}

// Whether x is the coefficient of an all-pass.
pub fn allpass_fits(x: f64) -> bool
    ensures { result ≡ allpass_fits x }
{
    in_signed_unit(x)
}

// Whether x is a value that was saturated.
pub fn saturated_fits(x: f64) -> bool
    ensures { result ≡ saturated_fits x }
{
    in_signed_unit(x)
}

// x held to lo..=hi. What lies between passes as it is, -0 and a NaN too.
#[tactic(auto, unfolding(crate::specs::Number::clamp_of))]
pub fn clamp(x: f64, lo: f64, hi: f64) -> f64
    ensures { result ≡ clamp_of x lo hi }
{
    if x < lo {
        lo
    } else if x > hi {
        hi
    } else {
        x
    }
}

// The larger of x and lo; x where they are equal, and a NaN x.
#[tactic(auto, unfolding(crate::specs::Number::at_least))]
pub fn at_least(x: f64, lo: f64) -> f64
    ensures { result ≡ at_least x lo }
{
    if x < lo { lo } else { x }
}

// The smaller of x and hi; x where they are equal, and a NaN x.
#[tactic(auto, unfolding(crate::specs::Number::at_most))]
pub fn at_most(x: f64, hi: f64) -> f64
    ensures { result ≡ at_most x hi }
{
    if x > hi { hi } else { x }
}

// The absolute value: +0 for either zero, and a NaN for a NaN.
#[tactic(auto, using(crate::proofs::Absolute::absolute_cases), unfolding(crate::proofs::Literals::of_bits))]
pub fn abs(x: f64) -> f64
    ensures { result ≡ absolute x }
{
    if x > 0.0 { x } else { 0.0 - x }
}

// The 53-bit significand of a number whose exponent field is neither 0 nor 2047, by its bits: the 52 that are stored, under a leading one.
fn significand_of(bits: u64) -> u64
    ensures { result ≡ significand_of bits }
{
    (bits & 0xf_ffff_ffff_ffff) | 0x10_0000_0000_0000
}

// The whole part of a number from 1 to below 2^52, whose field is from 1,023 to 1,074: the second case of `whole_part`, which calls it there. Reads, line
// lengths and the predelay call it alone, as their numbers are known, or tested, to lie there.
#[tactic(auto, using(crate::proofs::Fields::small_cases))]
pub fn whole_part_small(x: f64) -> u64
    requires { Small x }
    ensures { result ≡ whole_part x }
{
    let bits: u64 = f64::to_bits(x);
    significand_of(bits) >> (FIELD_WITHOUT_FRACTION - (bits >> 52))
}

// The Rust's `x as usize`: toward zero, held to 0..=2^64 - 1, and 0 for a NaN; by the cases of the exponent field.
#[tactic(auto, using(crate::proofs::Fields::whole_cases), unfolding(crate::proofs::Literals::of_bits))]
pub fn whole_part(x: f64) -> u64
    ensures { result ≡ whole_part x }
{
    // A NaN's bits may not be asked for, and a sign would stand above the field.
    if 0.0 < x {
        let bits: u64 = f64::to_bits(x);
        let field: u64 = bits >> 52;
        // Below one.
        if field < FIELD_OF_ONE {
            return 0;
        }
        // To the last exponent with fraction bits.
        if field < FIELD_WITHOUT_FRACTION {
            return whole_part_small(x);
        }
        // Above there is no fraction; up to the last field that a u64 holds,
        if field < FIELD_BEYOND_U64 {
            return significand_of(bits) << (field - FIELD_WITHOUT_FRACTION);
        }
        // and from 2^64 on, an infinity too, the largest u64.
        return u64::MAX;
    }
    0
}

// The nearest whole number, halves away from zero: the Rust's `round(x) as usize`.
#[tactic(auto, using(crate::proofs::Rounding::rounding_cases), unfolding(crate::proofs::Literals::of_bits, crate::proofs::Literals::of_int))]
pub fn round_half_away(x: f64) -> u64
    ensures { result ≡ round_half_away x }
{
    let down = whole_part(x);
    if x < 4503599627370496.0 {
        if x - down as f64 >= 0.5 {
            return down + 1;
        }
    }
    down
}
