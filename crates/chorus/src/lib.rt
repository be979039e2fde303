// The chorus: one line in lent memory, read by three voices. The state goes in and out by value.
#![tactic(auto)]

ghost use Rattle.std.specs.Prelude.{ℕ, ◌≡◌, true, length, Float};
ghost use Rattle.std.specs.Bool.{then_some};
ghost use Rattle.float64.specs.Number.{float_of, in_range, rate_fits, sine_fits};
ghost use Rattle.port.specs.declared.Port.TheVariants.{Set};
ghost use Rattle.port.specs.Answer.{answer_reply, played};
ghost use Rattle.common.specs.Line.{line_at, read_at};
ghost use Rattle.common.specs.Reads.{age_at};
ghost use Rattle.effect.specs.Run.{tick, number_in};
ghost use Rattle.effect.specs.Contract.{Does};
ghost use Rattle.effect.specs.Needed.{places_if_accepted};
ghost use Rattle.chorus.specs.Chorus.{Tick, page, chorus, tick_of, line_length, phases_of, next_phases, cleared, fresh, distance_in, mixed};

use common::{Heard, Line};
use effect::{InMemory, Ticked, Unit};
use port::{Answer, Port, Refusal};

#[derive(Clone, Copy)]
pub struct Chorus {
    pub write_pos: u32,
    // How many places of the line are neither +0 nor -0.
    pub nonzero_places: u32,
    pub lfo_phases: [f64; 3],
    pub sample_rate: f64,
}

impl Unit for Chorus {
    type Start = f64;

    type Retune = f64;

    ghost InForce = { Float };

    ghost Tick = { Tick };

    ghost page = { page };

    fn blank() -> Chorus {
        Chorus::cleared([0.0; 3], 0.0)
    }

    fn started(rate: f64) -> Chorus {
        Chorus::fresh(rate)
    }

    fn restarted(self) -> Chorus {
        Chorus::fresh(self.sample_rate)
    }

    fn start_refusal(rate: f64, places: usize) -> Result<(), Refusal> {
        effect::check_rate(Chorus::line_length(rate), places)
    }

    #[tactic(auto, unfolding(crate::specs::Chorus::fits_with))]
    fn fitting_places(self) -> Option<u64> {
        let n = Chorus::line_length(self.sample_rate)?;
        let phases = self.lfo_phases;
        let fits = u64::from(self.write_pos) < n
            && (u64::from(self.nonzero_places) <= n
                && phases.iter().all(|phase| float64::phase_fits(*phase)));
        fits.then_some(n)
    }

    // Its state keeps nothing of the sound.
    fn quiet(self) -> bool {
        true
    }

    fn count(self) -> u32 {
        self.nonzero_places
    }
}

impl InMemory for Chorus {
    // The phases are kept.
    fn retuned(self, rate: f64) -> Chorus {
        Chorus::cleared(self.lfo_phases, rate)
    }

    fn retune_refusal(self, rate: f64, places: usize) -> Result<(), Refusal> {
        Chorus::start_refusal(rate, places)
    }
}

impl Chorus {
    pub const MAX_MOD_DELAY_MS: f64 = Chorus::MOD_MS as f64;

    pub const BASE_DELAY_MS: f64 = Chorus::BASE_MS as f64;

    // Whole, for the line's length.
    const MOD_MS: u32 = 25;

    const BASE_MS: u32 = 7;

    // The places of the line; none at a refused rate.
    #[tactic(auto, using(common::proofs::Sweep::sweep_whole), unfolding(crate::specs::Chorus::line_length))]
    fn line_length(rate: f64) -> Option<u64>
        ensures { result ≡ then_some (rate_fits rate) (line_length rate) }
    {
        common::line_length_whole(rate, Chorus::MOD_MS + Chorus::BASE_MS)
    }

    // The places that a start needs at the rate, none for a rate that is refused.
    pub fn places_needed(rate: f64) -> Option<u64>
        ensures { result ≡ places_if_accepted chorus rate }
    {
        Chorus::line_length(rate)
    }

    // Position 0, with the phases and the rate, in zeros.
    fn cleared(lfo_phases: [f64; 3], rate: f64) -> Chorus
        ensures { result ≡ cleared lfo_phases rate }
    {
        Chorus {
            write_pos: 0,
            nonzero_places: 0,
            lfo_phases,
            sample_rate: rate,
        }
    }

    // The start phases, with the rate.
    #[tactic(auto, unfolding(float64::proofs::Literals::of_bits, float64::proofs::Literals::round))]
    fn fresh(rate: f64) -> Chorus
        ensures { result ≡ fresh rate }
    {
        Chorus::cleared([0.0, 0.33, 0.67], rate)
    }

    // 7 x rate / 1000 + (sine x 0.5 + 0.5) x (depth x 25 x rate / 1000), held to the line.
    #[tactic(auto, unfolding(crate::specs::Chorus::distance_in, float64::proofs::Literals::of_bits, float64::proofs::Literals::of_int, float64::proofs::Literals::round))]
    fn distance(line: Line, rate: f64, depth: f64, sine: f64) -> f64
        ensures { result ≡ distance_in (length line.entry.places.now) rate depth sine }
    {
        let base = Chorus::BASE_DELAY_MS * rate / 1000.0;
        let swing = depth * Chorus::MAX_MOD_DELAY_MS * rate / 1000.0;
        line.hold(base + (sine * 0.5 + 0.5) * swing)
    }

    // What a voice with this sine reads in the line, at its own distance, which is a number.
    #[tactic(auto, using(crate::proofs::Laws::held_to_line))]
    fn voice(line: Line, rate: f64, depth: f64, sine: f64) -> Heard
        requires rate_in_range { rate_fits rate ≡ true }
        requires depth_in_range { in_range depth (float_of 0) (float_of 1) ≡ true }
        requires sine_in_range { sine_fits sine ≡ true }
        ensures sample { result.sample ≡ read_at (line_at 0 (length line.entry.places.now) line.entry.write_pos line.entry.places.now)
            (distance_in (length line.entry.places.now) rate depth sine) }
        ensures age { result.age ≡ age_at (distance_in (length line.entry.places.now) rate depth sine) }
    {
        line.read(Chorus::distance(line, rate, depth, sine))
    }

    // The phases after a tick: each voice's moves on by its own factor of the frequency.
    #[tactic(auto, using(crate::proofs::Laws::phases_by), unfolding(float64::proofs::Literals::of_bits, float64::proofs::Literals::of_int, float64::proofs::Literals::round))]
    fn next_phases(self, frequency: f64) -> [f64; 3]
        ensures { result ≡ next_phases frequency self.sample_rate (phases_of self) }
    {
        let phases = self.lfo_phases;
        let rate = self.sample_rate;
        [
            common::advance_phase(phases[0], frequency * 0.9 / rate),
            common::advance_phase(phases[1], frequency * 1.0 / rate),
            common::advance_phase(phases[2], frequency * 1.1 / rate),
        ]
    }

    // Mono, left and right of the three voices, each mixed with the audio.
    #[tactic(auto, unfolding(crate::specs::Chorus::mixed, float64::proofs::Literals::of_bits, float64::proofs::Literals::of_int, float64::proofs::Literals::round))]
    fn mixed(input: f64, mix: f64, d0: f64, d1: f64, d2: f64) -> Answer
        ensures { (age : ℕ) → answer_reply result age ≡ played (mixed input mix d0 d1 d2) age }
    {
        let mono = 0.0 + d0 + d1 + d2;
        let left = 0.0 + d0 * 0.5 + d1;
        let right = 0.0 + d0 * 0.5 + d2;
        Answer::Three(
            common::blend(input, mono / 3.0, mix),
            common::blend(input, left / 2.0, mix),
            common::blend(input, right / 2.0, mix),
        )
    }

    // An accepted tick with all its ports set, of the line by itself. All three voices read it before the one store.
    #[tactic(auto, using(crate::proofs::Laws::ready), unfolding(float64::proofs::Literals::of_bits, float64::proofs::Literals::of_int))]
    fn advance(
        self,
        places: &mut [f64],
        audio: f64,
        depth: f64,
        mix: f64,
        frequency: f64,
        sines: [f64; 3],
    ) -> Ticked<Chorus>
        requires places_value { length places.old ≡ line_length self.sample_rate }
        requires tick_accepted { number_in chorus (tick (tick_of (Set audio) (Set depth) (Set mix) frequency sines)) (length places.old) self ≡ 0 }
        ensures { Does chorus (tick (tick_of (Set audio) (Set depth) (Set mix) frequency sines)) self places.old result.state
            places.new (answer_reply result.answer result.age) }
    {
        let rate = self.sample_rate;
        let lfo_phases = self.next_phases(frequency);
        let input = common::sanitize_audio(audio);
        let depth = float64::clamp(depth, 0.0, 1.0);
        let mix = float64::clamp(mix, 0.0, 1.0);
        let w = self.write_pos as usize;
        let line = Line {
            places: &places[..],
            write_pos: w,
        };
        let d0 = Chorus::voice(line, rate, depth, sines[0]);
        let d1 = Chorus::voice(line, rate, depth, sines[1]);
        let d2 = Chorus::voice(line, rate, depth, sines[2]);
        let write_pos = line.next_place();
        let nonzero_places = common::store(places, w, input, self.nonzero_places);
        let state = Chorus {
            write_pos,
            nonzero_places,
            lfo_phases,
            sample_rate: rate,
        };
        Ticked {
            state,
            answer: Chorus::mixed(input, mix, d0.sample, d1.sample, d2.sample),
            age: d0.age.max(d1.age.max(d2.age)),
        }
    }

    // One sample. Frequency and sines are the host's curve numbers, the sines at the state's phases.
    #[tactic(auto, using(effect::proofs::Rows::first_places), unfolding(crate::specs::Chorus::tick_number))]
    pub fn tick(
        self,
        mem: &mut [f64],
        audio: Port,
        depth: Port,
        mix: Port,
        frequency: f64,
        sines: [f64; 3],
    ) -> Ticked<Chorus>
        ensures { Does chorus (tick (tick_of audio depth mix frequency sines)) self mem.old result.state mem.new
            (answer_reply result.answer result.age) }
    {
        let n = match self.checked(mem.len()) {
            Ok(n) => n,
            Err(cause) => return Ticked::refused(self, cause),
        };
        let audio = if let Port::Set(x) = audio { x } else { 0.0 };
        let depth = if let Port::Set(x) = depth { x } else { 0.5 };
        let mix = if let Port::Set(x) = mix { x } else { 0.5 };
        let sines_fit = float64::sine_fits(sines[0])
            & (float64::sine_fits(sines[1]) & float64::sine_fits(sines[2]));
        let causes = common::tick_causes(
            float64::is_nan(depth) | float64::is_nan(mix),
            float64::frequency_fits(frequency) & sines_fit,
        );
        if let Err(cause) = causes {
            return Ticked::refused(self, cause);
        }
        self.advance(&mut mem[..n as usize], audio, depth, mix, frequency, sines)
    }
}
