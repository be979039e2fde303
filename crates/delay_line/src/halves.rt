// A delay's tick in its two halves, which the delay line makes one after the other and the tape delay in two calls.
ghost use Rattle.std.specs.Prelude.{◌≡◌, ◌≤◌, ◌<◌, true, ◌&&◌, length, set};
ghost use Rattle.std.specs.Bool.{then_some};
ghost use Rattle.float64.specs.Number.{is_number, rate_fits};
ghost use Rattle.port.specs.Answer.{number_of};
ghost use Rattle.delay_line.specs.Halves.{maximum_fits, line_length, settings_row, size, glide_fits, reader_fits, fits_in_line, linear_ms, samples_of, glided, half_read, count_after, half_stored};

use crate::DelayLine;
use common::Line;
use port::Refusal;

// What reads a line: its write position, the count of its places that are neither +0 nor -0, the rate and the maximum that give its length, and the glide.
#[derive(Clone, Copy)]
pub struct Reader {
    pub write_pos: u32,
    pub nonzero_places: u32,
    pub smoothed_delay: f64,
    pub sample_rate: f64,
    pub delay_smooth_coef: f64,
    pub max_delay_secs: f64,
    pub delay_primed: bool,
}

// What the read half keeps for the store half: the audio, what was read, and the mix.
#[derive(Clone, Copy)]
pub struct Kept {
    pub audio: f64,
    pub read: f64,
    pub mix: f64,
}

// What a read half comes to: that, the sum of the audio and what is fed back, the distance read at, and how far back it hears.
#[derive(Clone, Copy)]
pub struct HalfRead {
    pub kept: Kept,
    pub sum: f64,
    pub smoothed_delay: f64,
    pub age: u32,
}

// What a store half comes to: the position and the count after it, and what is heard.
#[derive(Clone, Copy)]
pub struct HalfStored {
    pub write_pos: u32,
    pub nonzero_places: u32,
    pub sample: f64,
}

#[tactic(auto, unfolding(float64::proofs::Literals::of_bits, float64::proofs::Literals::of_int, float64::proofs::Literals::round))]
fn maximum_fits(seconds: f64) -> bool
    ensures { result ≡ maximum_fits seconds }
{
    float64::in_range(
        seconds,
        DelayLine::MIN_DELAY_SECS,
        DelayLine::MAX_DELAY_CAP_SECS,
    )
}

// The places of a line whose rate and maximum are in range.
#[tactic(auto, using(crate::proofs::ReaderLaws::size_cases), unfolding(crate::specs::Halves::line_length))]
fn length_within(rate: f64, maximum: f64) -> u64
    requires { rate_fits rate && maximum_fits maximum ≡ true }
    ensures { result ≡ line_length rate maximum }
{
    float64::whole_part_small(rate * maximum) + 1
}

// The places of the line; none where the rate or the maximum is out of range.
pub fn line_length(rate: f64, maximum: f64) -> Option<u64>
    ensures { result ≡ then_some (rate_fits rate && maximum_fits maximum) (line_length rate maximum) }
{
    if !(float64::rate_fits(rate) & maximum_fits(maximum)) {
        return None;
    }
    Some(length_within(rate, maximum))
}

// The same for a maximum that is in range. The tape's is a constant, whose test the compiler would leave in each of its halves.
#[tactic(auto, using(float64::proofs::Tests::both))]
pub fn line_length_held(rate: f64, maximum: f64) -> Option<u64>
    requires { maximum_fits maximum ≡ true }
    ensures { result ≡ then_some (rate_fits rate) (line_length rate maximum) }
{
    if !float64::rate_fits(rate) {
        return None;
    }
    Some(length_within(rate, maximum))
}

// Causes 1, 2 and 3, the second of which no other effects have. A maximum out of range, which only a state that fails its test has, counts as a refused rate: the state
// test stands before these, and gives 4.
pub fn settings_refusal(
    rate: f64,
    maximum: f64,
    coefficient: f64,
    places: usize,
) -> Result<(), Refusal>
    ensures { number_of result ≡ settings_row rate maximum coefficient places }
{
    let n = line_length(rate, maximum).ok_or(Refusal::SampleRate)?;
    if !float64::coefficient_fits(coefficient) {
        return Err(Refusal::GlideCoefficient);
    }
    effect::check_memory(n, places)
}

// Linear time, in milliseconds: seconds, 0 to the maximum, times 1000.
#[tactic(auto, unfolding(crate::specs::Halves::linear_ms, float64::proofs::Literals::of_bits, float64::proofs::Literals::of_int))]
pub fn linear_ms(maximum: f64, time: f64) -> f64
    ensures { result ≡ linear_ms maximum time }
{
    float64::clamp(time, 0.0, maximum) * 1000.0
}

// Milliseconds x rate / 1000.
#[tactic(auto, unfolding(crate::specs::Halves::samples_of, float64::proofs::Literals::of_bits, float64::proofs::Literals::of_int))]
pub fn samples_of(rate: f64, milliseconds: f64) -> f64
    ensures { result ≡ samples_of rate milliseconds }
{
    milliseconds * rate / 1000.0
}

impl Reader {
    // The places of its line, where the numbers of the state pass their test.
    #[tactic(auto, using(crate::proofs::ReaderLaws::size_cases), unfolding(crate::specs::Halves::reader_fits, crate::specs::Halves::line_length))]
    pub fn fitting_places(self) -> Option<u64>
        ensures { result ≡ then_some (reader_fits self) (size self) }
    {
        let n = line_length(self.sample_rate, self.max_delay_secs)?;
        self.fits_in_line(n).then_some(n)
    }

    // Whether position, count, coefficient and glide fit a line of n places.
    pub fn fits_in_line(self, n: u64) -> bool
        requires n_at_least { 1 ≤ n }
        requires n_bound { n ≤ 11520001 }
        ensures { result ≡ fits_in_line self n }
    {
        u64::from(self.write_pos) < n
            && (u64::from(self.nonzero_places) <= n
                && (float64::coefficient_fits(self.delay_smooth_coef) && self.glide_fits(n)))
    }

    // The glide distance in a line of n places: +0 while unprimed, else 1 to n - 1.
    #[tactic(auto, unfolding(crate::specs::Halves::glide_fits, float64::proofs::Literals::of_bits, float64::proofs::Literals::of_int))]
    fn glide_fits(self, n: u64) -> bool
        requires n_at_least { 1 ≤ n }
        requires n_bound { n ≤ 11520001 }
        ensures { result ≡ glide_fits self.delay_primed self.smoothed_delay n }
    {
        if self.delay_primed {
            return float64::in_range(self.smoothed_delay, 1.0, f64::from((n - 1) as u32));
        }
        float64::is_plus_zero(self.smoothed_delay)
    }

    // The distance to read at: the target itself on the first read after a clearing, later ones glide to it. It stays inside the line by itself, so that
    // no clamp follows.
    #[tactic(auto, unfolding(crate::specs::Halves::glided))]
    fn glided(self, target: f64) -> f64
        ensures { result ≡ glided self target }
    {
        if !self.delay_primed {
            return target;
        }
        target + (self.smoothed_delay - target) * self.delay_smooth_coef
    }

    // The read half, of a delay of so many samples. The glide goes to the samples, held to the line.
    #[tactic(auto, using(crate::proofs::ReaderLaws::ready, crate::proofs::ReaderLaws::read_on_line), unfolding(crate::specs::Halves::reads_at, crate::specs::Halves::delayed_by, float64::proofs::Literals::of_bits, float64::proofs::Literals::of_int, float64::proofs::Literals::round))]
    pub fn read_half(
        self,
        places: &[f64],
        samples: f64,
        audio: f64,
        feedback: f64,
        mix: f64,
        ceiling: f64,
    ) -> HalfRead
        requires places_value { length places.now ≡ size self }
        requires self_fits { reader_fits self ≡ true }
        requires samples_is_number { is_number samples ≡ true }
        ensures { result ≡ half_read ceiling self samples audio feedback mix places.now }
    {
        let line = Line {
            places,
            write_pos: self.write_pos as usize,
        };
        let distance = self.glided(line.hold(samples));
        let input = common::sanitize_audio(audio);
        let back = float64::clamp(feedback, 0.0, ceiling);
        let wet = float64::clamp(mix, 0.0, 1.0);
        let delayed = line.read(distance);
        HalfRead {
            kept: Kept {
                audio: input,
                read: delayed.sample,
                mix: wet,
            },
            sum: input + delayed.sample * back,
            smoothed_delay: distance,
            age: delayed.age,
        }
    }
}

impl Kept {
    // The store half: `value` at the position, which moves on, and the count, handed as it was before.
    pub fn store_half(
        self,
        places: &mut [f64],
        write_pos: u32,
        value: f64,
        count: u32,
    ) -> HalfStored
        requires inside { write_pos < length places.old }
        requires most { count ≤ length places.old }
        requires short { length places.old < u32.MAX }
        ensures result { result ≡ half_stored (length places.old) write_pos (count_after (length places.old) write_pos value places.old count) self }
        ensures stored { places.new ≡ set places.old write_pos value }
    {
        let w = write_pos as usize;
        let next = common::next_place(places.len(), w);
        let nonzero_places = common::store(places, w, value, count);
        HalfStored {
            write_pos: next,
            nonzero_places,
            sample: common::blend(self.audio, self.read, self.mix),
        }
    }
}
