// The phaser: on each side a chain of six all-passes, of which a tick runs the first 2, 4 or 6. The state goes in and out by value, or
// is lent to a tick in its parts; no memory is lent.
#![tactic(auto)]

ghost use Rattle.std.specs.Prelude.{◌≡◌, ◌&&◌, Float, refl};
ghost use Rattle.float64.specs.Number.{rate_fits, phase_fits};
ghost use Rattle.effect.specs.Needed.{places_if_accepted};
ghost use Rattle.phaser.specs.Phaser.{Tick, page, phaser, fresh};

mod allpass;
mod stages;
mod tick;

pub use allpass::{Chain, Chains};
use effect::{Unit, WithoutMemory};
use port::Refusal;
use std::convert::Infallible;

// Of each all-pass its last input x1 and its last output y1, a side at a time; the phase, and the rate.
// Left and right are fields of their own and no `Sides`: the C interface lends them so, named as the reverb's are.
#[derive(Clone, Copy)]
pub struct Phaser {
    pub allpass_x1_l: [f64; 6],
    pub allpass_x1_r: [f64; 6],
    pub allpass_y1_l: [f64; 6],
    pub allpass_y1_r: [f64; 6],
    pub lfo_phase: f64,
    pub sample_rate: f64,
}

// A state that is lent in its parts, where they lie: a tick moves them there, and a state by value would be copied whole, in and out.
#[derive(Drop)]
pub struct Lent<'a> {
    pub chains: Chains<'a>,
    pub lfo_phase: &'a mut f64,
    pub sample_rate: f64,
}

impl Phaser {
    // All-passes of each chain.
    pub const MAX_STAGES: usize = 6;

    // The places that a start needs at the rate: 0; none for a rate that is refused.
    pub fn places_needed(rate: f64) -> Option<u64>
        ensures { result ≡ places_if_accepted phaser rate }
    {
        float64::rate_fits(rate).then_some(0)
    }

    // Chains of +0 and phase 0, at the rate.
    fn fresh(rate: f64) -> Phaser
        ensures { result ≡ fresh rate }
    {
        Phaser {
            allpass_x1_l: [0.0; Phaser::MAX_STAGES],
            allpass_x1_r: [0.0; Phaser::MAX_STAGES],
            allpass_y1_l: [0.0; Phaser::MAX_STAGES],
            allpass_y1_r: [0.0; Phaser::MAX_STAGES],
            lfo_phase: 0.0,
            sample_rate: rate,
        }
    }

    // The state test, by what it reads: the chains may hold any floats.
    fn fits(rate: f64, phase: f64) -> bool
        ensures { result ≡ (rate_fits rate && phase_fits phase) }
    {
        float64::rate_fits(rate) && float64::phase_fits(phase)
    }
}

impl Unit for Phaser {
    type Start = f64;

    // It has no retune.
    type Retune = Infallible;

    ghost InForce = { Float };

    ghost Tick = { Tick };

    ghost page = { page };

    fn blank() -> Phaser {
        Phaser::fresh(0.0)
    }

    fn started(rate: f64) -> Phaser {
        Phaser::fresh(rate)
    }

    fn restarted(self) -> Phaser {
        Phaser::fresh(self.sample_rate)
    }

    fn start_refusal(rate: f64, places: usize) -> Result<(), Refusal> {
        effect::check_rate(Phaser::places_needed(rate), places)
    }

    #[tactic(auto, unfolding(crate::specs::Phaser::state_fits))]
    fn fitting_places(self) -> Option<u64> {
        Phaser::fits(self.sample_rate, self.lfo_phase).then_some(0)
    }

    // Whether all 24 numbers of the chains are +0 or -0, idle stages too.
    #[tactic(auto, unfolding(crate::specs::Phaser::quiet))]
    fn quiet(self) -> bool {
        let inputs = common::all_zero(&self.allpass_x1_l) & common::all_zero(&self.allpass_x1_r);
        let outputs = common::all_zero(&self.allpass_y1_l) & common::all_zero(&self.allpass_y1_r);
        inputs & outputs
    }

    // It is lent no place.
    fn count(self) -> u32 {
        0
    }
}

impl WithoutMemory for Phaser {}
