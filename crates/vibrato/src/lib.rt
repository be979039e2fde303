// The vibrato: one line in lent memory, read at a swept distance. The state goes in and out by value.
#![tactic(auto)]

ghost use Rattle.std.specs.Prelude.{◌≡◌, length, Float};
ghost use Rattle.std.specs.Bool.{then_some};
ghost use Rattle.float64.specs.Number.{rate_fits};
ghost use Rattle.port.specs.declared.Port.TheVariants.{Set};
ghost use Rattle.port.specs.Answer.{answer_reply};
ghost use Rattle.effect.specs.Run.{tick, number_in};
ghost use Rattle.effect.specs.Contract.{Does};
ghost use Rattle.effect.specs.Needed.{places_if_accepted};
ghost use Rattle.vibrato.specs.Vibrato.{Tick, page, vibrato, tick_of, line_length, fresh, distance_in};

use common::Line;
use effect::{InMemory, Ticked, Unit};
use port::{Answer, Port, Refusal};

#[derive(Clone, Copy)]
pub struct Vibrato {
    pub write_pos: u32,
    // How many places of the line are neither +0 nor -0.
    pub nonzero_places: u32,
    pub lfo_phase: f64,
    pub sample_rate: f64,
}

impl Unit for Vibrato {
    type Start = f64;

    type Retune = f64;

    ghost InForce = { Float };

    ghost Tick = { Tick };

    ghost page = { page };

    fn blank() -> Vibrato {
        Vibrato::fresh(0.0)
    }

    fn started(rate: f64) -> Vibrato {
        Vibrato::fresh(rate)
    }

    fn restarted(self) -> Vibrato {
        Vibrato::fresh(self.sample_rate)
    }

    fn start_refusal(rate: f64, places: usize) -> Result<(), Refusal> {
        effect::check_rate(Vibrato::line_length(rate), places)
    }

    #[tactic(auto, unfolding(crate::specs::Vibrato::state_fits))]
    fn fitting_places(self) -> Option<u64> {
        let n = Vibrato::line_length(self.sample_rate)?;
        let fits = u64::from(self.write_pos) < n
            && (u64::from(self.nonzero_places) <= n && float64::phase_fits(self.lfo_phase));
        fits.then_some(n)
    }

    // Its state keeps nothing of the sound.
    fn quiet(self) -> bool {
        true
    }

    fn count(self) -> u32 {
        self.nonzero_places
    }
}

impl InMemory for Vibrato {
    // The phase goes to 0 too.
    fn retuned(self, rate: f64) -> Vibrato {
        Vibrato::fresh(rate)
    }

    fn retune_refusal(self, rate: f64, places: usize) -> Result<(), Refusal> {
        Vibrato::start_refusal(rate, places)
    }
}

impl Vibrato {
    pub const MAX_DELAY_MS: f64 = Vibrato::LINE_MS as f64;

    // Whole, for the line's length.
    const LINE_MS: u32 = 20;

    // The places of the line; none at a refused rate.
    #[tactic(auto, using(common::proofs::Sweep::sweep_whole), unfolding(crate::specs::Vibrato::line_length))]
    fn line_length(rate: f64) -> Option<u64>
        ensures { result ≡ then_some (rate_fits rate) (line_length rate) }
    {
        common::line_length_whole(rate, Vibrato::LINE_MS)
    }

    // The places that a start needs at the rate; none for a rate that is refused.
    pub fn places_needed(rate: f64) -> Option<u64>
        ensures { result ≡ places_if_accepted vibrato rate }
    {
        Vibrato::line_length(rate)
    }

    // Position 0 and phase 0, with the rate, in zeros.
    fn fresh(rate: f64) -> Vibrato
        ensures { result ≡ fresh rate }
    {
        Vibrato {
            write_pos: 0,
            nonzero_places: 0,
            lfo_phase: 0.0,
            sample_rate: rate,
        }
    }

    // (10 + sine x (depth x 10 x 0.9)) x rate / 1000, held to the line.
    fn distance(line: Line, rate: f64, depth: f64, sine: f64) -> f64
        ensures { result ≡ distance_in (length line.entry.places.now) rate depth sine }
    {
        let base = Vibrato::MAX_DELAY_MS * 0.5;
        let swing = depth * base * 0.9;
        line.hold((base + sine * swing) * rate / 1000.0)
    }

    // An accepted tick with all its ports set, of the line by itself, which is read before the store. The phase comes first, as the next tick waits for it.
    #[tactic(auto, using(crate::proofs::Laws::ready, crate::proofs::Laws::held_to_line), unfolding(float64::proofs::Literals::of_bits, float64::proofs::Literals::of_int))]
    fn advance(
        self,
        places: &mut [f64],
        audio: f64,
        depth: f64,
        mix: f64,
        frequency: f64,
        sine: f64,
    ) -> Ticked<Vibrato>
        requires places_value { length places.old ≡ line_length self.sample_rate }
        requires tick_accepted { number_in vibrato (tick (tick_of (Set audio) (Set depth) (Set mix) frequency sine)) (length places.old) self ≡ 0 }
        ensures { Does vibrato (tick (tick_of (Set audio) (Set depth) (Set mix) frequency sine)) self places.old result.state
            places.new (answer_reply result.answer result.age) }
    {
        let rate = self.sample_rate;
        let phase = common::advance_phase(self.lfo_phase, frequency / rate);
        let amount = float64::clamp(depth, 0.0, 1.0);
        let wet = float64::clamp(mix, 0.0, 1.0);
        let w = self.write_pos as usize;
        let line = Line {
            places: &places[..],
            write_pos: w,
        };
        let delayed = line.read(Vibrato::distance(line, rate, amount, sine));
        let write_pos = line.next_place();
        let nonzero_places = common::store(places, w, audio, self.nonzero_places);
        let state = Vibrato {
            write_pos,
            nonzero_places,
            lfo_phase: phase,
            sample_rate: rate,
        };
        Ticked {
            state,
            answer: Answer::One(common::blend(audio, delayed.sample, wet)),
            age: delayed.age,
        }
    }

    // One sample. Frequency and sine are the host's curve numbers, the sine at the state's phase.
    #[tactic(auto, using(effect::proofs::Rows::first_places), unfolding(crate::specs::Vibrato::tick_number))]
    pub fn tick(
        self,
        mem: &mut [f64],
        audio: Port,
        depth: Port,
        mix: Port,
        frequency: f64,
        sine: f64,
    ) -> Ticked<Vibrato>
        ensures { Does vibrato (tick (tick_of audio depth mix frequency sine)) self mem.old result.state mem.new
            (answer_reply result.answer result.age) }
    {
        let n = match self.checked(mem.len()) {
            Ok(n) => n,
            Err(cause) => return Ticked::refused(self, cause),
        };
        let audio = if let Port::Set(x) = audio { x } else { 0.0 };
        let depth = if let Port::Set(x) = depth { x } else { 0.5 };
        let mix = if let Port::Set(x) = mix { x } else { 1.0 };
        let causes = common::tick_causes(
            float64::is_nan(depth) | float64::is_nan(mix),
            float64::frequency_fits(frequency) & float64::sine_fits(sine),
        );
        if let Err(cause) = causes {
            return Ticked::refused(self, cause);
        }
        self.advance(&mut mem[..n as usize], audio, depth, mix, frequency, sine)
    }
}
