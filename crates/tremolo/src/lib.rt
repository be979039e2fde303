// The tremolo: the audio's amplitude swept by a sine or a triangle. The state goes in and out by value; no memory is lent.
#![tactic(auto)]

ghost use Rattle.std.specs.Prelude.{◌≡◌, [], Float};
ghost use Rattle.port.specs.Answer.{answer_reply};
ghost use Rattle.effect.specs.Run.{tick};
ghost use Rattle.effect.specs.Contract.{Does};
ghost use Rattle.effect.specs.Needed.{places_if_accepted};
ghost use Rattle.tremolo.specs.Tremolo.{Tick, page, tremolo, tick_of, fresh, triangle, lfo, modulated};

use effect::{Ticked, Unit, WithoutMemory};
use port::{Answer, Port, Refusal};
use std::convert::Infallible;

#[derive(Clone, Copy)]
pub struct Tremolo {
    pub lfo_phase: f64,
    pub sample_rate: f64,
}

impl Unit for Tremolo {
    type Start = f64;

    // It has no retune.
    type Retune = Infallible;

    ghost InForce = { Float };

    ghost Tick = { Tick };

    ghost page = { page };

    fn blank() -> Tremolo {
        Tremolo::fresh(0.0)
    }

    fn started(rate: f64) -> Tremolo {
        Tremolo::fresh(rate)
    }

    fn restarted(self) -> Tremolo {
        Tremolo::fresh(self.sample_rate)
    }

    fn start_refusal(rate: f64, places: usize) -> Result<(), Refusal> {
        effect::check_rate(Tremolo::places_needed(rate), places)
    }

    #[tactic(auto, unfolding(crate::specs::Tremolo::state_fits))]
    fn fitting_places(self) -> Option<u64> {
        (float64::rate_fits(self.sample_rate) && float64::phase_fits(self.lfo_phase)).then_some(0)
    }

    // Its state keeps nothing of the sound.
    fn quiet(self) -> bool {
        true
    }

    // It is lent no place.
    fn count(self) -> u32 {
        0
    }
}

impl WithoutMemory for Tremolo {}

impl Tremolo {
    // The places that a start needs at the rate: 0; none for a rate that is refused.
    pub fn places_needed(rate: f64) -> Option<u64>
        ensures { result ≡ places_if_accepted tremolo rate }
    {
        float64::rate_fits(rate).then_some(0)
    }

    // Phase 0, with the rate.
    fn fresh(rate: f64) -> Tremolo
        ensures { result ≡ fresh rate }
    {
        Tremolo {
            lfo_phase: 0.0,
            sample_rate: rate,
        }
    }

    // 1 - 4 x |phase - 0.5|.
    #[tactic(auto, unfolding(crate::specs::Tremolo::triangle, float64::proofs::Literals::of_bits, float64::proofs::Literals::of_int, float64::proofs::Literals::round))]
    fn triangle(phase: f64) -> f64
        ensures { result ≡ triangle phase }
    {
        1.0 - 4.0 * float64::abs(phase - 0.5)
    }

    // The sweep from -1 to 1: a sine at shape 0, a triangle at shape 1.
    #[tactic(auto, unfolding(crate::specs::Tremolo::lfo, float64::proofs::Literals::of_bits, float64::proofs::Literals::of_int))]
    fn lfo(phase: f64, shape: f64, sine: f64) -> f64
        ensures { result ≡ lfo phase shape sine }
    {
        sine * (1.0 - shape) + Tremolo::triangle(phase) * shape
    }

    // The audio under the sweep.
    #[tactic(auto, unfolding(crate::specs::Tremolo::modulated, float64::proofs::Literals::of_bits, float64::proofs::Literals::of_int, float64::proofs::Literals::round))]
    fn modulated(input: f64, depth: f64, lfo: f64) -> f64
        ensures { result ≡ modulated input depth lfo }
    {
        input * (1.0 - depth * 0.5 * (1.0 - lfo))
    }

    // One sample. Frequency and sine are the host's curve numbers, the sine at the state's phase.
    pub fn tick(
        self,
        audio: Port,
        depth: Port,
        shape: Port,
        frequency: f64,
        sine: f64,
    ) -> Ticked<Tremolo>
        ensures { Does tremolo (tick (tick_of audio depth shape frequency sine)) self [] result.state [] (answer_reply result.answer result.age) }
    {
        if let Err(cause) = self.checked(0) {
            return Ticked::refused(self, cause);
        }
        let input = if let Port::Set(x) = audio { x } else { 0.0 };
        let amount = if let Port::Set(x) = depth { x } else { 0.5 };
        let blend = if let Port::Set(x) = shape { x } else { 0.0 };
        let causes = common::tick_causes(
            float64::is_nan(amount) | float64::is_nan(blend),
            float64::frequency_fits(frequency) & float64::sine_fits(sine),
        );
        if let Err(cause) = causes {
            return Ticked::refused(self, cause);
        }
        let phase = self.lfo_phase;
        let rate = self.sample_rate;
        let next = common::advance_phase(phase, frequency / rate);
        let lfo = Tremolo::lfo(phase, float64::clamp(blend, 0.0, 1.0), sine);
        let y = Tremolo::modulated(input, float64::clamp(amount, 0.0, 1.0), lfo);
        Ticked {
            state: Tremolo {
                lfo_phase: next,
                sample_rate: rate,
            },
            answer: Answer::One(y),
            age: 0,
        }
    }
}
