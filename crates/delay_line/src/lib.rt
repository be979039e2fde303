// The delay line: one line in lent memory, fed back into itself, read at a distance that glides to the delay time. The state goes in and out by value.
#![tactic(auto)]

ghost use Rattle.std.specs.Prelude.{◌≡◌, true, false, cond, [], ◌∷◌, length, set};
ghost use Rattle.float64.specs.Number.{plus_zero, is_number};
ghost use Rattle.port.specs.declared.Port.TheVariants.{Set, Unset};
ghost use Rattle.port.specs.Answer.{played, number_of, outcome_reply, answer_reply};
ghost use Rattle.effect.specs.Run.{tick, number_in};
ghost use Rattle.effect.specs.Contract.{Does, Starts};
ghost use Rattle.effect.specs.Needed.{places_if_accepted};
ghost use Rattle.delay_line.specs.Halves.{settings_row, size, linear_ms, samples_of, half_read};
ghost use Rattle.delay_line.specs.DelayLine.{Tick, page, delay_line, ceiling, handing, start_settings, retune_settings, settings, reader, tick_of, held_maximum, state_of, cleared, state_fits, Advances};

mod halves;

use effect::{Cleared, InMemory, Ticked, Unit};
pub use halves::{
    HalfRead, HalfStored, Kept, Reader, line_length, line_length_held, linear_ms, samples_of,
    settings_refusal,
};
use port::{Answer, Port, Refusal};

#[derive(Clone, Copy)]
pub struct DelayLine {
    pub write_pos: u32,
    // How many places of the line are neither +0 nor -0.
    pub nonzero_places: u32,
    pub smoothed_delay: f64,
    pub sample_rate: f64,
    pub delay_smooth_coef: f64,
    pub max_delay_secs: f64,
    // No `Option` of the distance: C hands in and gets both numbers, and a state with the flag off and a distance other than +0 is refused.
    pub delay_primed: bool,
    pub linear_time: bool,
}

// What is in force from one clearing to the next; also what a start is handed, with a maximum still to be held.
#[derive(Clone, Copy)]
pub struct Settings {
    pub rate: f64,
    pub coefficient: f64,
    pub maximum: f64,
    pub linear: bool,
}

// What a retune is handed: it keeps the maximum and the mode.
#[derive(Clone, Copy)]
pub struct Retune {
    pub rate: f64,
    pub coefficient: f64,
}

impl Settings {
    // Those of the state that a refused start gives.
    const NONE: Settings = Settings {
        rate: 0.0,
        coefficient: 0.0,
        maximum: 0.0,
        linear: false,
    };

    // Causes 1, 2 and 3.
    fn refusal(self, places: usize) -> Result<(), Refusal>
        ensures { number_of result ≡ settings_row self.rate self.maximum self.coefficient places }
    {
        halves::settings_refusal(self.rate, self.maximum, self.coefficient, places)
    }

    // With the maximum held.
    fn held(self) -> Settings
        ensures { result ≡ start_settings self }
    {
        Settings {
            maximum: DelayLine::held_maximum(self.maximum),
            ..self
        }
    }

    // With what a retune is handed.
    fn retuned(self, handed: Retune) -> Settings
        ensures { result ≡ retune_settings handed self }
    {
        Settings {
            rate: handed.rate,
            coefficient: handed.coefficient,
            ..self
        }
    }

    // Position 0 in zeros and the glide unprimed, with these settings.
    fn cleared(self) -> DelayLine
        ensures { result ≡ cleared self }
    {
        DelayLine {
            write_pos: 0,
            nonzero_places: 0,
            smoothed_delay: 0.0,
            sample_rate: self.rate,
            delay_smooth_coef: self.coefficient,
            max_delay_secs: self.maximum,
            delay_primed: false,
            linear_time: self.linear,
        }
    }
}

impl Unit for DelayLine {
    ghost use Rattle.delay_line.specs.declared.Settings.{Settings};

    type Start = Settings;

    type Retune = Retune;

    ghost InForce = { Settings };

    ghost Tick = { Tick };

    ghost page = { page };

    fn blank() -> DelayLine {
        Settings::NONE.cleared()
    }

    fn started(handed: Settings) -> DelayLine {
        handed.held().cleared()
    }

    fn restarted(self) -> DelayLine {
        self.settings().cleared()
    }

    #[tactic(auto, using(crate::proofs::Laws::held_fits), unfolding(crate::specs::DelayLine::settings_number))]
    fn start_refusal(handed: Settings, places: usize) -> Result<(), Refusal> {
        handed.held().refusal(places)
    }

    fn fitting_places(self) -> Option<u64> {
        self.reader().fitting_places()
    }

    // Its state keeps nothing of the sound.
    fn quiet(self) -> bool {
        true
    }

    fn count(self) -> u32 {
        self.nonzero_places
    }
}

impl InMemory for DelayLine {
    fn retuned(self, handed: Retune) -> DelayLine {
        self.settings().retuned(handed).cleared()
    }

    #[tactic(auto, using(crate::proofs::Laws::state_maximum), unfolding(crate::specs::DelayLine::settings_number))]
    fn retune_refusal(self, handed: Retune, places: usize) -> Result<(), Refusal> {
        self.settings().retuned(handed).refusal(places)
    }
}

impl DelayLine {
    pub const MAX_DELAY_SECS: f64 = 2.0;

    pub const MAX_DELAY_CAP_SECS: f64 = 60.0;
    // The Rust has these limits as bare numbers.
    pub const MIN_DELAY_SECS: f64 = 0.001;

    pub const MAX_FEEDBACK: f64 = 0.99;

    // The maximum in seconds: not finite means 2, else clamped.
    #[tactic(auto, unfolding(crate::specs::DelayLine::held_maximum, float64::proofs::Literals::of_bits, float64::proofs::Literals::of_int, float64::proofs::Literals::round))]
    pub fn held_maximum(seconds: f64) -> f64
        ensures { result ≡ held_maximum seconds }
    {
        if !float64::is_finite(seconds) {
            return DelayLine::MAX_DELAY_SECS;
        }
        let most = DelayLine::MAX_DELAY_CAP_SECS;
        float64::clamp(seconds, DelayLine::MIN_DELAY_SECS, most)
    }

    // The places that a start needs at the rate, with a maximum still to be held; none for a rate that is refused. The coefficient has no part in it.
    #[tactic(auto, using(crate::proofs::Laws::held_fits, crate::proofs::Laws::zero_fits), unfolding(crate::specs::DelayLine::settings_number))]
    pub fn places_needed(rate: f64, seconds: f64) -> Option<u64>
        ensures { result ≡ places_if_accepted delay_line (start_settings (handing rate plus_zero seconds false)) }
    {
        halves::line_length(rate, DelayLine::held_maximum(seconds))
    }

    // Start, by the Rust's name, with the glide coefficient from the host; `linear` is the Rust's `with_linear_time`.
    pub fn with_max_delay(
        sample_rate: f64,
        max_delay_secs: f64,
        coefficient: f64,
        linear: bool,
        mem: &mut [f64],
    ) -> Cleared<DelayLine>
        ensures { Starts delay_line (handing sample_rate coefficient max_delay_secs linear) mem.old result.state
            mem.new (outcome_reply result.outcome) }
    {
        let handed = Settings {
            rate: sample_rate,
            coefficient,
            maximum: max_delay_secs,
            linear,
        };
        DelayLine::new(handed, mem)
    }

    fn settings(self) -> Settings
        ensures { result ≡ settings self }
    {
        Settings {
            rate: self.sample_rate,
            coefficient: self.delay_smooth_coef,
            maximum: self.max_delay_secs,
            linear: self.linear_time,
        }
    }

    // What reads its line.
    fn reader(self) -> Reader
        ensures { result ≡ reader self }
    {
        Reader {
            write_pos: self.write_pos,
            nonzero_places: self.nonzero_places,
            smoothed_delay: self.smoothed_delay,
            sample_rate: self.sample_rate,
            delay_smooth_coef: self.delay_smooth_coef,
            max_delay_secs: self.max_delay_secs,
            delay_primed: self.delay_primed,
        }
    }

    // The delay in samples, not yet held to the line: in linear mode of the time port's seconds, else of the milliseconds handed. It is NaN where what it is read
    // from is.
    fn delay_samples(self, time: f64, milliseconds: f64) -> f64
        ensures value { result ≡ samples_of self.sample_rate (cond self.linear_time (linear_ms self.max_delay_secs time) milliseconds) }
        ensures from_numbers { is_number result ≡ true → cond self.linear_time (is_number time) (is_number milliseconds) ≡ true }
    {
        if self.linear_time {
            return halves::samples_of(
                self.sample_rate,
                halves::linear_ms(self.max_delay_secs, time),
            );
        }
        halves::samples_of(self.sample_rate, milliseconds)
    }

    // Causes 4, 3, 5 and 6 of a tick with these numbers, in that order: for a tick that met a NaN.
    fn nan_refusal(
        self,
        places: usize,
        time: f64,
        feedback: f64,
        mix: f64,
        milliseconds: f64,
    ) -> Result<(), Refusal>
        ensures { number_of result ≡ number_in delay_line (tick (tick_of Unset (Set time) (Set feedback) (Set mix) milliseconds)) places self }
    {
        self.checked(places)?;
        let linear = self.linear_time;
        common::tick_causes(
            (linear & float64::is_nan(time)) | (float64::is_nan(feedback) | float64::is_nan(mix)),
            linear | !float64::is_nan(milliseconds),
        )
    }

    // The state after a tick that stored and read at the distance: no other effect keeps one.
    fn next(self, stored: HalfStored, distance: f64) -> DelayLine
        ensures { result ≡ state_of stored.write_pos stored.nonzero_places distance true (settings self) }
    {
        DelayLine {
            write_pos: stored.write_pos,
            nonzero_places: stored.nonzero_places,
            smoothed_delay: distance,
            delay_primed: true,
            ..self
        }
    }

    // An accepted tick with its ports' numbers and its delay in samples, of the line by itself: the read half, and then the store half with the sum as it is.
    #[tactic(auto, using(crate::proofs::ReaderLaws::ready), unfolding(float64::proofs::Literals::of_bits, float64::proofs::Literals::round))]
    fn advance(
        self,
        places: &mut [f64],
        audio: f64,
        samples: f64,
        feedback: f64,
        mix: f64,
    ) -> Ticked<DelayLine>
        requires places_value { length places.old ≡ size (reader self) }
        requires self_fits { state_fits self ≡ true }
        requires samples_is_number { is_number samples ≡ true }
        ensures { Advances self (half_read ceiling (reader self) samples audio feedback mix places.old) places.old result.state
            places.new (answer_reply result.answer result.age) }
    {
        let half = self.reader().read_half(
            &places[..],
            samples,
            audio,
            feedback,
            mix,
            DelayLine::MAX_FEEDBACK,
        );
        let stored = half
            .kept
            .store_half(places, self.write_pos, half.sum, self.nonzero_places);
        Ticked {
            state: self.next(stored, half.smoothed_delay),
            answer: Answer::One(stored.sample),
            age: half.age,
        }
    }

    // One sample. The milliseconds are the host's curve number, from its time control; linear mode reads the time port in their place. The delay is worked
    // out and asked for NaN before the state is tested, as it takes longest; where there is a NaN, the table's order decides.
    #[tactic(auto, using(effect::proofs::Rows::first_places))]
    pub fn tick(
        self,
        mem: &mut [f64],
        audio: Port,
        time: Port,
        feedback: Port,
        mix: Port,
        milliseconds: f64,
    ) -> Ticked<DelayLine>
        ensures { Does delay_line (tick (tick_of audio time feedback mix milliseconds)) self mem.old result.state
            mem.new (answer_reply result.answer result.age) }
    {
        let audio = if let Port::Set(x) = audio { x } else { 0.0 };
        let time = if let Port::Set(x) = time { x } else { 0.5 };
        let feedback = if let Port::Set(x) = feedback { x } else { 0.0 };
        let mix = if let Port::Set(x) = mix { x } else { 0.5 };
        let samples = self.delay_samples(time, milliseconds);
        if float64::is_nan(samples) | (float64::is_nan(feedback) | float64::is_nan(mix)) {
            let met = self.nan_refusal(mem.len(), time, feedback, mix, milliseconds);
            return Ticked::refused(self, met.unwrap_err());
        }
        let n = match self.checked(mem.len()) {
            Ok(n) => n,
            Err(cause) => return Ticked::refused(self, cause),
        };
        self.advance(&mut mem[..n as usize], audio, samples, feedback, mix)
    }
}
