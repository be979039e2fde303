// The tape delay: a delay line of 12 seconds in linear time, whose feedback goes past 1 and whose line keeps what is saturated. The saturation is the host's, in the
// middle of a tick: so a tick is two calls, the read half, which answers the sum, and the store half, which is handed the saturated fifth of it.
#![tactic(auto)]

ghost use Rattle.std.specs.Prelude.{◌≡◌, true, false, cond, length, IfOk};
ghost use Rattle.port.specs.Answer.{number_of, answer_reply};
ghost use Rattle.effect.specs.Run.{tick, first, memory_number};
ghost use Rattle.effect.specs.Contract.{Does};
ghost use Rattle.effect.specs.Needed.{places_if_accepted};
ghost use Rattle.float64.specs.Number.{plus_zero};
ghost use Rattle.delay_line.specs.Halves.{settings_row};
ghost use Rattle.tape_delay.specs.TapeDelay.{Tick, read_half, store_half, ports_of, page, tape_delay, maximum, handing, settings, places, cleared, reader, kept_fits, state_fits, waiting_state, stored_state};

use delay_line::{HalfRead, HalfStored, Kept, Reader};
use effect::{InMemory, Ticked, Unit};
use port::{Answer, Port, Refusal};

#[derive(Clone, Copy)]
pub struct TapeDelay {
    pub write_pos: u32,
    // How many places of the line are neither +0 nor -0.
    pub nonzero_places: u32,
    pub smoothed_delay: f64,
    pub kept: Kept,
    pub sample_rate: f64,
    pub delay_smooth_coef: f64,
    pub delay_primed: bool,
    // A read half has been answered and its store half has not. No `Option` of what is kept: C hands in and gets the numbers, and a state that has others than +0
    // while no read waits is refused.
    pub waiting: bool,
}

// What a start and a retune are handed, and what is in force until the next.
#[derive(Clone, Copy)]
pub struct Settings {
    pub rate: f64,
    pub coefficient: f64,
}

impl Settings {
    // Causes 1, 2 and 3.
    #[tactic(auto, unfolding(float64::proofs::Literals::of_bits, float64::proofs::Literals::of_int, float64::proofs::Literals::round))]
    fn refusal(self, places: usize) -> Result<(), Refusal>
        ensures { number_of result ≡ settings_row self.rate maximum self.coefficient places }
    {
        delay_line::settings_refusal(
            self.rate,
            TapeDelay::TAPE_MAX_DELAY_SECS,
            self.coefficient,
            places,
        )
    }

    // Position 0 in zeros, the glide unprimed, and no read that waits.
    fn cleared(self) -> TapeDelay
        ensures { result ≡ cleared self }
    {
        TapeDelay {
            write_pos: 0,
            nonzero_places: 0,
            smoothed_delay: 0.0,
            kept: TapeDelay::NONE_KEPT,
            sample_rate: self.rate,
            delay_smooth_coef: self.coefficient,
            delay_primed: false,
            waiting: false,
        }
    }
}

impl Unit for TapeDelay {
    ghost use Rattle.tape_delay.specs.declared.Settings.{Settings};

    type Start = Settings;

    type Retune = Settings;

    ghost InForce = { Settings };

    ghost Tick = { Tick };

    ghost page = { page };

    fn blank() -> TapeDelay {
        let none = Settings {
            rate: 0.0,
            coefficient: 0.0,
        };
        none.cleared()
    }

    fn started(handed: Settings) -> TapeDelay {
        handed.cleared()
    }

    fn restarted(self) -> TapeDelay {
        self.settings().cleared()
    }

    #[tactic(auto, using(crate::proofs::Laws::maximum_held), unfolding(delay_line::specs::DelayLine::settings_number))]
    fn start_refusal(handed: Settings, places: usize) -> Result<(), Refusal> {
        handed.refusal(places)
    }

    #[tactic(auto, using(crate::proofs::Laws::maximum_held, delay_line::proofs::ReaderLaws::size_cases), unfolding(delay_line::specs::Halves::reader_fits, float64::proofs::Literals::of_bits, float64::proofs::Literals::of_int, float64::proofs::Literals::round))]
    fn fitting_places(self) -> Option<u64> {
        let n = delay_line::line_length_held(self.sample_rate, TapeDelay::TAPE_MAX_DELAY_SECS)?;
        (self.reader().fits_in_line(n) && self.kept_fits()).then_some(n)
    }

    // A read that waits keeps sound.
    fn quiet(self) -> bool {
        !self.waiting
    }

    fn count(self) -> u32 {
        self.nonzero_places
    }
}

impl InMemory for TapeDelay {
    fn retuned(self, handed: Settings) -> TapeDelay {
        handed.cleared()
    }

    #[tactic(auto, using(crate::proofs::Laws::maximum_held), unfolding(delay_line::specs::DelayLine::settings_number))]
    fn retune_refusal(self, handed: Settings, places: usize) -> Result<(), Refusal> {
        handed.refusal(places)
    }
}

impl TapeDelay {
    pub const TAPE_MAX_DELAY_SECS: f64 = 12.0;

    pub const UNCLAMPED_FEEDBACK_MAX: f64 = 1.5;

    // What a saturated value is multiplied by as it is stored. The Rust has it as a bare number.
    pub const SATURATION_GAIN: f64 = 5.0;

    // While no read waits.
    const NONE_KEPT: Kept = Kept {
        audio: 0.0,
        read: 0.0,
        mix: 0.0,
    };

    // The places that a start needs at the rate; none for a rate that is refused. The coefficient has no part in it.
    #[tactic(auto, using(crate::proofs::Laws::maximum_held, delay_line::proofs::Laws::zero_fits), unfolding(delay_line::specs::DelayLine::settings_number, float64::proofs::Literals::of_bits, float64::proofs::Literals::of_int, float64::proofs::Literals::round))]
    pub fn places_needed(rate: f64) -> Option<u64>
        ensures { result ≡ places_if_accepted tape_delay (handing rate plus_zero) }
    {
        delay_line::line_length(rate, TapeDelay::TAPE_MAX_DELAY_SECS)
    }

    fn settings(self) -> Settings
        ensures { result ≡ settings self }
    {
        Settings {
            rate: self.sample_rate,
            coefficient: self.delay_smooth_coef,
        }
    }

    // What reads its line.
    #[tactic(auto, unfolding(float64::proofs::Literals::of_bits, float64::proofs::Literals::of_int, float64::proofs::Literals::round))]
    fn reader(self) -> Reader
        ensures { result ≡ reader self }
    {
        Reader {
            write_pos: self.write_pos,
            nonzero_places: self.nonzero_places,
            smoothed_delay: self.smoothed_delay,
            sample_rate: self.sample_rate,
            delay_smooth_coef: self.delay_smooth_coef,
            max_delay_secs: TapeDelay::TAPE_MAX_DELAY_SECS,
            delay_primed: self.delay_primed,
        }
    }

    // What is kept: +0 while no read waits, else a mix from 0 to 1.
    #[tactic(auto, unfolding(crate::specs::TapeDelay::kept_fits, float64::proofs::Literals::of_bits, float64::proofs::Literals::of_int))]
    fn kept_fits(self) -> bool
        ensures { result ≡ kept_fits self.waiting self.kept }
    {
        let kept = self.kept;
        if self.waiting {
            return float64::in_range(kept.mix, 0.0, 1.0);
        }
        float64::is_plus_zero(kept.audio)
            && float64::is_plus_zero(kept.read)
            && float64::is_plus_zero(kept.mix)
    }

    // Causes 4, 7 and 3 of a half whose turn it is, or is not: the places of the line, where there is none.
    fn ready(self, in_turn: bool, lent: usize) -> Result<u64, Refusal>
        ensures number { number_of result ≡ cond (state_fits self)
            (first (cond in_turn 0 7) (memory_number (places (settings self)) lent)) 4 }
        ensures needed { IfOk result (λ n. n ≡ places (settings self)) }
    {
        let n = self.fitting_places().ok_or(Refusal::State)?;
        if !in_turn {
            return Err(Refusal::Turn);
        }
        effect::check_memory(n, lent)?;
        Ok(n)
    }

    // The state after a read half: its store half is waited for. Position and count stay.
    fn waiting(self, half: HalfRead) -> TapeDelay
        ensures { result ≡ waiting_state half self }
    {
        TapeDelay {
            smoothed_delay: half.smoothed_delay,
            kept: half.kept,
            delay_primed: true,
            waiting: true,
            ..self
        }
    }

    // The state after a store half: the position has moved on, the count is another, and nothing is kept.
    fn stored(self, half: HalfStored) -> TapeDelay
        ensures { result ≡ stored_state half self }
    {
        TapeDelay {
            write_pos: half.write_pos,
            nonzero_places: half.nonzero_places,
            kept: TapeDelay::NONE_KEPT,
            waiting: false,
            ..self
        }
    }

    // The first half of a tick: what is read, and the sum that the host saturates, a fifth of it. No place is written. The delay is worked out before the tests,
    // as it takes longest.
    pub fn read_half(
        self,
        mem: &[f64],
        audio: Port,
        time: Port,
        feedback: Port,
        mix: Port,
    ) -> Ticked<TapeDelay>
        ensures { Does tape_delay (tick (read_half (ports_of audio time feedback mix))) self mem.now result.state
            mem.now (answer_reply result.answer result.age) }
    {
        let audio = if let Port::Set(x) = audio { x } else { 0.0 };
        let time = if let Port::Set(x) = time { x } else { 0.5 };
        let feedback = if let Port::Set(x) = feedback { x } else { 0.0 };
        let mix = if let Port::Set(x) = mix { x } else { 0.5 };
        let seconds = delay_line::linear_ms(TapeDelay::TAPE_MAX_DELAY_SECS, time);
        let samples = delay_line::samples_of(self.sample_rate, seconds);
        let n = match self.ready(!self.waiting, mem.len()) {
            Ok(n) => n,
            Err(cause) => return Ticked::refused(self, cause),
        };
        if float64::is_nan(time) | (float64::is_nan(feedback) | float64::is_nan(mix)) {
            return Ticked::refused(self, Refusal::Control);
        }
        let half = self.reader().read_half(
            &mem[..n as usize],
            samples,
            audio,
            feedback,
            mix,
            TapeDelay::UNCLAMPED_FEEDBACK_MAX,
        );
        Ticked {
            state: self.waiting(half),
            answer: Answer::One(half.sum),
            age: half.age,
        }
    }

    // The second half: five times the saturated value is stored, and what the read half kept is heard.
    pub fn store_half(self, mem: &mut [f64], saturated: f64) -> Ticked<TapeDelay>
        ensures { Does tape_delay (tick (store_half saturated)) self mem.old result.state mem.new (answer_reply result.answer result.age) }
    {
        let n = match self.ready(self.waiting, mem.len()) {
            Ok(n) => n,
            Err(cause) => return Ticked::refused(self, cause),
        };
        if !float64::saturated_fits(saturated) {
            return Ticked::refused(self, Refusal::Curve);
        }
        let stored = self.kept.store_half(
            &mut mem[..n as usize],
            self.write_pos,
            saturated * TapeDelay::SATURATION_GAIN,
            self.nonzero_places,
        );
        Ticked {
            state: self.stored(stored),
            answer: Answer::One(stored.sample),
            age: 0,
        }
    }
}
