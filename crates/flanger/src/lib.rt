// The flanger: two lines in lent memory, swept by one phase, each fed back into itself. The state goes in and out by value.
#![tactic(auto)]

ghost use Rattle.std.specs.Prelude.{◌+◌, ◌*◌, ◌/◌, ◌≤◌, ◌<◌, ◌≡◌, length, get_or, set, Float};
ghost use Rattle.std.specs.Bool.{then_some};
ghost use Rattle.std.specs.Float.{nan};
ghost use Rattle.float64.specs.Number.{rate_fits};
ghost use Rattle.port.specs.declared.Port.TheVariants.{Set};
ghost use Rattle.port.specs.Answer.{answer_reply};
ghost use Rattle.common.specs.Line.{nonzero, recounted};
ghost use Rattle.effect.specs.Run.{tick, number_in};
ghost use Rattle.effect.specs.Contract.{Does};
ghost use Rattle.effect.specs.Needed.{places_if_accepted};
ghost use Rattle.flanger.specs.Flanger.{Tick, page, flanger, tick_of, line_length, cleared, distance_in};

use common::Line;
use effect::{InMemory, Ticked, Unit};
use port::{Answer, Port, Refusal};

#[derive(Clone, Copy)]
pub struct Flanger {
    pub write_pos: u32,
    // How many places of both lines are neither +0 nor -0.
    pub nonzero_places: u32,
    pub lfo_phase: f64,
    pub sample_rate: f64,
}

impl Unit for Flanger {
    type Start = f64;

    type Retune = f64;

    ghost InForce = { Float };

    ghost Tick = { Tick };

    ghost page = { page };

    fn blank() -> Flanger {
        Flanger::cleared(0.0, 0.0)
    }

    fn started(rate: f64) -> Flanger {
        Flanger::cleared(0.0, rate)
    }

    fn restarted(self) -> Flanger {
        Flanger::cleared(0.0, self.sample_rate)
    }

    fn start_refusal(rate: f64, places: usize) -> Result<(), Refusal> {
        effect::check_rate(Flanger::places_needed(rate), places)
    }

    #[tactic(auto, using(crate::proofs::Laws::length_fits), unfolding(crate::specs::Flanger::state_fits))]
    fn fitting_places(self) -> Option<u64> {
        let n = Flanger::line_length(self.sample_rate)?;
        let fits = u64::from(self.write_pos) < n
            && (u64::from(self.nonzero_places) <= 2 * n && float64::phase_fits(self.lfo_phase));
        fits.then_some(2 * n)
    }

    // Its state keeps nothing of the sound.
    fn quiet(self) -> bool {
        true
    }

    fn count(self) -> u32 {
        self.nonzero_places
    }
}

impl InMemory for Flanger {
    // The phase is kept.
    fn retuned(self, rate: f64) -> Flanger {
        Flanger::cleared(self.lfo_phase, rate)
    }

    fn retune_refusal(self, rate: f64, places: usize) -> Result<(), Refusal> {
        Flanger::start_refusal(rate, places)
    }
}

impl Flanger {
    pub const MAX_DELAY_MS: f64 = Flanger::LINE_MS as f64;

    // Whole, for a line's length.
    const LINE_MS: u32 = 10;

    // The places of a line; none at a refused rate.
    #[tactic(auto, using(common::proofs::Sweep::sweep_whole), unfolding(crate::specs::Flanger::line_length))]
    fn line_length(rate: f64) -> Option<u64>
        ensures { result ≡ then_some (rate_fits rate) (line_length rate) }
    {
        common::line_length_whole(rate, Flanger::LINE_MS)
    }

    // The places that a start needs at the rate; none for a rate that is refused.
    #[tactic(auto, using(crate::proofs::Laws::length_fits))]
    pub fn places_needed(rate: f64) -> Option<u64>
        ensures { result ≡ places_if_accepted flanger rate }
    {
        Flanger::line_length(rate).map(|n| 2 * n)
    }

    // Position 0, with the phase and the rate, in zeros.
    fn cleared(phase: f64, rate: f64) -> Flanger
        ensures { result ≡ cleared phase rate }
    {
        Flanger {
            write_pos: 0,
            nonzero_places: 0,
            lfo_phase: phase,
            sample_rate: rate,
        }
    }

    // (1 + (sine + 1) x 0.5 x (depth x 9)) x rate / 1000, held to the line.
    fn distance(line: Line, rate: f64, depth: f64, sine: f64) -> f64
        ensures { result ≡ distance_in (length line.entry.places.now) rate depth sine }
    {
        let swing = depth * (Flanger::MAX_DELAY_MS - 1.0);
        line.hold((1.0 + (sine + 1.0) * 0.5 * swing) * rate / 1000.0)
    }

    // A store in each line, at the same position, and the count after both, which goes by what they change together.
    fn store(lines: &mut [f64], w: usize, left: f64, right: f64, count: u32) -> u32
        requires inside { w < length lines.old / 2 }
        requires most { count ≤ length lines.old }
        requires short { length lines.old + 2 ≤ u32.MAX }
        ensures count { result ≡ recounted (length lines.old) count (nonzero left + nonzero right)
            (nonzero (get_or lines.old w nan) + nonzero (get_or lines.old (length lines.old / 2 + w) nan)) }
        ensures stored { lines.new ≡ set (set lines.old w left) (length lines.old / 2 + w) right }
    {
        let second = lines.len() / 2;
        let lost = common::nonzero(lines[w]) + common::nonzero(lines[second + w]);
        lines[w] = left;
        lines[second + w] = right;
        let gained = common::nonzero(left) + common::nonzero(right);
        common::recount(lines.len() as u32, count, gained, lost)
    }

    // An accepted tick with all its ports set, of the two lines by themselves, left and right. Each is read before its own store, which feeds it its own read.
    #[tactic(auto, using(crate::proofs::Laws::ready, crate::proofs::Laws::held_to_line), unfolding(float64::proofs::Literals::of_bits, float64::proofs::Literals::of_int))]
    fn advance(
        self,
        lines: &mut [f64],
        audio: f64,
        depth: f64,
        feedback: f64,
        mix: f64,
        frequency: f64,
        sine0: f64,
        sine1: f64,
    ) -> Ticked<Flanger>
        requires lines_value { length lines.old ≡ 2 * line_length self.sample_rate }
        requires tick_accepted { number_in flanger (tick (tick_of (Set audio) (Set depth) (Set feedback) (Set mix) frequency sine0 sine1))
            (length lines.old) self ≡ 0 }
        ensures { Does flanger (tick (tick_of (Set audio) (Set depth) (Set feedback) (Set mix) frequency sine0 sine1)) self
            lines.old result.state lines.new (answer_reply result.answer result.age) }
    {
        let rate = self.sample_rate;
        let phase = common::advance_phase(self.lfo_phase, frequency / rate);
        let input = common::sanitize_audio(audio);
        let amount = float64::clamp(depth, 0.0, 1.0);
        let back = float64::clamp(feedback, -0.95, 0.95);
        let wet = float64::clamp(mix, 0.0, 1.0);
        let w = self.write_pos as usize;
        let second = lines.len() / 2;
        let both = &lines[..];
        let left_line = Line {
            places: &both[..second],
            write_pos: w,
        };
        let right_line = Line {
            places: &both[second..],
            write_pos: w,
        };
        let d0 = left_line.read(Flanger::distance(left_line, rate, amount, sine0));
        let d1 = right_line.read(Flanger::distance(right_line, rate, amount, sine1));
        let write_pos = left_line.next_place();
        let fed0 = input + d0.sample * back;
        let fed1 = input + d1.sample * back;
        let nonzero_places = Flanger::store(lines, w, fed0, fed1, self.nonzero_places);
        let state = Flanger {
            write_pos,
            nonzero_places,
            lfo_phase: phase,
            sample_rate: rate,
        };
        let left = common::blend(input, d0.sample, wet);
        let right = common::blend(input, d1.sample, wet);
        Ticked {
            state,
            answer: Answer::Three(left, left, right),
            age: d0.age.max(d1.age),
        }
    }

    // One sample. Frequency and sines are the host's curve numbers, the sines at the state's phase and at that plus half the spread.
    #[tactic(auto, using(effect::proofs::Rows::first_places), unfolding(crate::specs::Flanger::tick_number))]
    pub fn tick(
        self,
        mem: &mut [f64],
        audio: Port,
        depth: Port,
        feedback: Port,
        mix: Port,
        frequency: f64,
        sine0: f64,
        sine1: f64,
    ) -> Ticked<Flanger>
        ensures { Does flanger (tick (tick_of audio depth feedback mix frequency sine0 sine1)) self mem.old result.state
            mem.new (answer_reply result.answer result.age) }
    {
        let places = match self.checked(mem.len()) {
            Ok(places) => places,
            Err(cause) => return Ticked::refused(self, cause),
        };
        let audio = if let Port::Set(x) = audio { x } else { 0.0 };
        let depth = if let Port::Set(x) = depth { x } else { 0.5 };
        let feedback = if let Port::Set(x) = feedback { x } else { 0.0 };
        let mix = if let Port::Set(x) = mix { x } else { 0.5 };
        let causes = common::tick_causes(
            float64::is_nan(depth) | (float64::is_nan(feedback) | float64::is_nan(mix)),
            float64::frequency_fits(frequency)
                & (float64::sine_fits(sine0) & float64::sine_fits(sine1)),
        );
        if let Err(cause) = causes {
            return Ticked::refused(self, cause);
        }
        let lines = &mut mem[..places as usize];
        self.advance(lines, audio, depth, feedback, mix, frequency, sine0, sine1)
    }
}
