// What the effects share: a number for each side, the input rule, dry/wet, phases, and lines in lent memory.
#![tactic(auto)]

ghost use Rattle.std.specs.Prelude.{◌≡◌, true, ◌&&◌, ◌+◌, ◌-◌, ◌≤◌, ◌<◌, length, get_or, set};
ghost use Rattle.std.specs.Float.{nan};
ghost use Rattle.std.specs.Bool.{then_some};
ghost use Rattle.float64.specs.Number.{float_of, in_range, rate_fits, clamp_of, at_least, at_most};
ghost use Rattle.port.specs.Answer.{number_of};
ghost use Rattle.common.specs.Signal.{sanitized, blended, advanced, cause_number};
ghost use Rattle.common.specs.Line.{swept_length, sweep_fits, zeros, place, next_place, line_at, read_at, all_zero, nonzero, recounted};
ghost use Rattle.common.specs.Reads.{age_at};

use port::Refusal;

// A number of each side.
#[derive(Clone, Copy)]
pub struct Sides<T> {
    pub left: T,
    pub right: T,
}

// The input rule: non-finite audio becomes +0. Only a finite number less itself is 0; in this form it compiles without a branch.
#[tactic(auto, using(crate::proofs::Finite::itself, crate::proofs::Finite::not_itself), unfolding(float64::proofs::Literals::of_bits))]
pub fn sanitize_audio(x: f64) -> f64
    ensures { result ≡ sanitized x }
{
    if x - x == 0.0 { x } else { 0.0 }
}

// a x (1 - f) + b x f.
#[tactic(auto, unfolding(crate::specs::Signal::blended, float64::proofs::Literals::of_bits, float64::proofs::Literals::of_int))]
pub fn blend(a: f64, b: f64, f: f64) -> f64
    ensures { result ≡ blended a b f }
{
    a * (1.0 - f) + b * f
}

// The phase after one step: add; at 1 or more, subtract 1.
#[tactic(auto, unfolding(crate::specs::Signal::advanced, float64::proofs::Literals::of_bits, float64::proofs::Literals::of_int))]
pub fn advance_phase(phase: f64, step: f64) -> f64
    ensures { result ≡ advanced phase step }
{
    let next = phase + step;
    if next >= 1.0 { next - 1.0 } else { next }
}

// Causes 5 and 6 of a tick: whether a control that it reads is NaN, and whether its curve numbers are in range.
pub fn tick_causes(control_nan: bool, curves_fit: bool) -> Result<(), Refusal>
    ensures { number_of result ≡ cause_number control_nan curves_fit }
{
    if control_nan {
        return Err(Refusal::Control);
    }
    if !curves_fit {
        return Err(Refusal::Curve);
    }
    Ok(())
}

// The places of a swept line whose rate and milliseconds are in range.
#[tactic(auto, using(crate::proofs::Sweep::swept_cases), unfolding(float64::proofs::Literals::of_bits, float64::proofs::Literals::of_int))]
fn swept_length(rate: f64, milliseconds: f64) -> u64
    requires rate_in_range { rate_fits rate ≡ true }
    requires milliseconds_in_range { sweep_fits milliseconds ≡ true }
    ensures { result ≡ swept_length milliseconds rate }
{
    float64::whole_part_small(rate * milliseconds / 1000.0) + 10
}

// The places of a swept line; none for a rate or milliseconds out of range.
#[tactic(auto, using(float64::proofs::Tests::both), unfolding(float64::proofs::Literals::of_bits, float64::proofs::Literals::of_int))]
pub fn line_length(rate: f64, milliseconds: f64) -> Option<u64>
    ensures { result ≡ then_some (rate_fits rate && sweep_fits milliseconds) (swept_length milliseconds rate) }
{
    if !(float64::rate_fits(rate) & float64::in_range(milliseconds, 1.0, 100.0)) {
        return None;
    }
    Some(swept_length(rate, milliseconds))
}

// The same for whole milliseconds. They are a constant of an effect's, and the test of a constant is gone in the compiled code, where that of a float would stay: no
// one function of both, by which the ticks took six to nine instructions more.
#[tactic(auto, using(float64::proofs::Tests::both, crate::proofs::Sweep::sweep_whole))]
pub fn line_length_whole(rate: f64, milliseconds: u32) -> Option<u64>
    ensures { result ≡ then_some (rate_fits rate && sweep_fits (float_of milliseconds)) (swept_length (float_of milliseconds) rate) }
{
    if !(float64::rate_fits(rate) & ((1 <= milliseconds) & (milliseconds <= 100))) {
        return None;
    }
    Some(swept_length(rate, f64::from(milliseconds)))
}

// A distance held to a line: at least 1, and at most the last place.
#[tactic(auto, unfolding(float64::proofs::Literals::of_bits, float64::proofs::Literals::of_int))]
pub fn held_to_line(distance: f64, last: u32) -> f64
    ensures { result ≡ at_most (at_least distance (float_of 1)) (float_of last) }
{
    float64::at_most(float64::at_least(distance, 1.0), f64::from(last))
}

// This and the leaves below ask that a position lies in its line, and so do the reverb's: each of another line, so that a struct of both would be built for each.
// The place d samples behind w in a line of n places. A comparison in place of the `%` of the definition.
fn place_back(n: usize, w: usize, d: usize) -> usize
    requires w_lt_n { w < n }
    requires d_le_n { d ≤ n }
    requires d_at_least { 1 ≤ d }
    requires n_bound { n ≤ 4294967296 }
    ensures value { result ≡ place n w d }
    ensures upper_bound { result < n }
{
    if w >= d {
        return w - d;
    }
    w + n - d
}

// The place before p in a line of n places. By `place_back` a vibrato's tick took 160 instructions in place of 158, and a chorus's 318 in place of 314.
fn place_before(n: usize, p: usize) -> usize
    requires { p < n }
    ensures value { result ≡ place n p 1 }
    ensures upper_bound { result < n }
{
    if p == 0 {
        return n - 1;
    }
    p - 1
}

// The position after w in a line of n places, as a state keeps it.
pub fn next_place(n: usize, w: usize) -> u32
    requires inside { w < n }
    requires short { n ≤ 4294967296 }
    ensures { result ≡ next_place n w }
{
    let next = w + 1;
    if next >= n {
        return 0;
    }
    next as u32
}

// A line of lent memory with its write position, as it is read.
#[derive(Clone, Copy)]
pub struct Line<'a> {
    pub places: &'a [f64],
    pub write_pos: usize,
    ghost inside: { write_pos < length places.now },
    ghost some: { 2 ≤ length places.now },
    ghost short: { length places.now ≤ 16777217 },
}

// What a read hands back: the sample, and the age in ticks of the oldest sample of the line that it weighed above 0.
#[derive(Clone, Copy)]
pub struct Heard {
    pub sample: f64,
    pub age: u32,
}

impl<'a> Line<'a> {
    // What stands `distance` samples back from the write position, and how far back that is. Both places are multiplied, also where the fraction is 0, and the
    // second then counts for nothing in the age.
    #[tactic(auto, using(crate::proofs::Reading::distance_cases), unfolding(crate::specs::Reads::age_at))]
    pub fn read(self, distance: f64) -> Heard
        requires { in_range distance (float_of 1) (float_of (length self.places.now - 1)) ≡ true }
        ensures sample { result.sample ≡ read_at (line_at 0 (length self.entry.places.now) self.entry.write_pos self.entry.places.now) distance }
        ensures age { result.age ≡ age_at distance }
    {
        let line = self.places;
        let n = line.len();
        let whole = float64::whole_part_small(distance);
        let d = whole as usize;
        let f = distance - f64::from(whole as u32);
        let p = place_back(n, self.write_pos, d);
        let q = place_before(n, p);
        Heard {
            sample: blend(line[p], line[q], f),
            age: whole as u32 + nonzero(f),
        }
    }

    // A distance held to this line: 1 to its last place.
    #[tactic(auto, using(crate::proofs::Sweep::clamped_halves))]
    pub fn hold(self, distance: f64) -> f64
        ensures { result ≡ clamp_of distance (float_of 1) (float_of (length self.entry.places.now - 1)) }
    {
        held_to_line(distance, (self.places.len() - 1) as u32)
    }

    // The position after this one.
    pub fn next_place(self) -> u32
        ensures { result ≡ next_place (length self.entry.places.now) self.entry.write_pos }
    {
        next_place(self.places.len(), self.write_pos)
    }
}

// A clearing: +0 in every place. A loop and no `fill`, whose last store of its own took 16 bytes more of stack in a delay's start.
#[tactic(auto, using(crate::proofs::Fill::fill_more), unfolding(float64::proofs::Literals::of_bits))]
pub fn clear(mem: &mut [f64])
    ensures { mem.new ≡ zeros (length mem.old) }
{
    for place in mem {
        *place = 0.0;
    }
}

// 1 for a float that is neither +0 nor -0, as a NaN is; else 0.
#[tactic(auto, unfolding(float64::proofs::Literals::of_bits))]
pub fn nonzero(x: f64) -> u32
    ensures { result ≡ nonzero x }
{
    u32::from(x != 0.0)
}

// Of `count` such places among `all`: what it comes to where some are gained and some lost at once. The net change stops at both ends.
pub fn recount(all: u32, count: u32, gained: u32, lost: u32) -> u32
    requires { count + gained ≤ u32.MAX }
    ensures { result ≡ recounted all count gained lost }
{
    (count + gained).saturating_sub(lost).min(all)
}

// A store in a line all of whose places are in use, and the count after it.
pub fn store(places: &mut [f64], w: usize, value: f64, count: u32) -> u32
    requires inside { w < length places.old }
    requires most { count ≤ length places.old }
    requires short { length places.old < u32.MAX }
    ensures count { result ≡ recounted (length places.old) count (nonzero value) (nonzero (get_or places.old w nan)) }
    ensures stored { places.new ≡ set places.old w value }
{
    let lost = nonzero(places[w]);
    places[w] = value;
    recount(places.len() as u32, count, nonzero(value), lost)
}

// Whether every one of some numbers is +0 or -0. It reads them all, with no exit on the way.
pub fn all_zero(numbers: &[f64]) -> bool
    ensures { result ≡ all_zero numbers.now }
{
    numbers.iter().fold(true, |zero, x| zero & (*x == 0.0))
}
