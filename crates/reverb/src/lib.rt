// The reverb: a predelay, and on each side eight combs in parallel and four all-passes in series, in one lent tank. The state goes in and out
// by value, but for `Lent::tick` of tick.rt.
#![tactic(auto)]

ghost use Rattle.std.specs.Prelude.{◌≡◌, if◌then◌else◌, Float};
ghost use Rattle.float64.specs.Number.{rate_fits};
ghost use Rattle.effect.specs.Needed.{places_if_accepted};
ghost use Rattle.reverb.specs.Reverb.{Tick, page, reverb, fresh};

mod filters;
mod stepped;
mod tank;
mod tick;
mod tunings;

use effect::{Cleared, InMemory, Unit};
use port::Refusal;

// Positions and damping stores, a side at a time, the count and the rate.
// Left and right are fields of their own and no `Sides`, here and in `Lent`: the C interface lends them so, and the Rust names them so.
#[derive(Clone, Copy)]
pub struct Reverb {
    pub comb_pos_l: [u32; 8],
    pub comb_pos_r: [u32; 8],
    pub allpass_pos_l: [u32; 4],
    pub allpass_pos_r: [u32; 4],
    pub predelay_pos: u32,
    // How many places in use are neither +0 nor -0.
    pub nonzero_places: u32,
    pub comb_filter_state_l: [f64; 8],
    pub comb_filter_state_r: [f64; 8],
    pub sample_rate: f64,
}

// A state that is lent in its parts, where they lie: a tick moves them there, and a state by value would be copied whole, in and out.
#[derive(Drop)]
pub struct Lent<'a> {
    pub comb_pos_l: &'a mut [u32; 8],
    pub comb_pos_r: &'a mut [u32; 8],
    pub allpass_pos_l: &'a mut [u32; 4],
    pub allpass_pos_r: &'a mut [u32; 4],
    pub predelay_pos: &'a mut u32,
    pub nonzero_places: &'a mut u32,
    pub comb_filter_state_l: &'a mut [f64; 8],
    pub comb_filter_state_r: &'a mut [f64; 8],
    pub sample_rate: f64,
}

impl Reverb {
    pub const COMB_TUNINGS_44100: [u32; 8] = [1116, 1188, 1277, 1356, 1422, 1491, 1557, 1617];

    pub const ALLPASS_TUNINGS_44100: [u32; 4] = [556, 441, 341, 225];

    pub const STEREO_SPREAD: f64 = 23.0;

    pub const MAX_COMB_SIZE: usize = 4096;

    pub const MAX_ALLPASS_SIZE: usize = 1500;

    pub const MAX_PREDELAY_SIZE: usize = 9600;

    // The longest lines: one place is left over.
    pub const MAX_COMB_LENGTH: u16 = (Reverb::MAX_COMB_SIZE - 1) as u16;

    pub const MAX_ALLPASS_LENGTH: u16 = (Reverb::MAX_ALLPASS_SIZE - 1) as u16;

    // The longest delay of the predelay, in samples.
    const MAX_PREDELAY_SAMPLES: f64 = (Reverb::MAX_PREDELAY_SIZE - 1) as f64;

    // Where the right combs, the left and right all-passes and the predelay start in the tank, and where it ends.
    const COMBS_R: usize = 8 * Reverb::MAX_COMB_SIZE;

    const ALLPASSES_L: usize = 16 * Reverb::MAX_COMB_SIZE;

    const ALLPASSES_R: usize = Reverb::ALLPASSES_L + 4 * Reverb::MAX_ALLPASS_SIZE;

    const PREDELAY: usize = Reverb::ALLPASSES_L + 8 * Reverb::MAX_ALLPASS_SIZE;

    const END: usize = Reverb::PREDELAY + Reverb::MAX_PREDELAY_SIZE;

    // The places needed, at every rate.
    pub const PLACES: u64 = Reverb::END as u64;

    // The places that a start needs, the same at every rate; none for a rate that is refused.
    pub fn places_needed(rate: f64) -> Option<u64>
        ensures { result ≡ places_if_accepted reverb rate }
    {
        float64::rate_fits(rate).then_some(Reverb::PLACES)
    }

    // Positions 0, damping stores +0 and no place that is neither zero, at the rate.
    fn fresh(rate: f64) -> Reverb
        ensures { result ≡ fresh rate }
    {
        Reverb {
            comb_pos_l: [0; 8],
            comb_pos_r: [0; 8],
            allpass_pos_l: [0; 4],
            allpass_pos_r: [0; 4],
            predelay_pos: 0,
            nonzero_places: 0,
            comb_filter_state_l: [0.0; 8],
            comb_filter_state_r: [0.0; 8],
            sample_rate: rate,
        }
    }
}

impl Unit for Reverb {
    type Start = f64;

    type Retune = f64;

    ghost InForce = { Float };

    ghost Tick = { Tick };

    ghost page = { page };

    fn blank() -> Reverb {
        Reverb::fresh(0.0)
    }

    fn started(rate: f64) -> Reverb {
        Reverb::fresh(rate)
    }

    fn restarted(self) -> Reverb {
        Reverb::fresh(self.sample_rate)
    }

    fn start_refusal(rate: f64, places: usize) -> Result<(), Refusal> {
        effect::check_rate(Reverb::places_needed(rate), places)
    }

    // Put in line, as a call would be handed a copy of the state: a reset took 432 bytes of stack of its own in place of 144.
    #[inline(always)]
    #[tactic(auto, using(crate::proofs::Laws::fits_by))]
    fn fitting_places(self) -> Option<u64> {
        let fits = tank::numbers_fit(
            &self.comb_pos_l,
            &self.comb_pos_r,
            &self.allpass_pos_l,
            &self.allpass_pos_r,
            self.predelay_pos,
            self.nonzero_places,
            tunings::scaled_lengths(self.sample_rate),
        );
        fits.then_some(Reverb::PLACES)
    }

    // Whether all sixteen damping stores are +0 or -0: a store alone would bring the sound back.
    #[tactic(auto, unfolding(crate::specs::Reverb::quiet))]
    fn quiet(self) -> bool {
        common::all_zero(&self.comb_filter_state_l) & common::all_zero(&self.comb_filter_state_r)
    }

    fn count(self) -> u32 {
        self.nonzero_places
    }
}

impl InMemory for Reverb {
    fn retuned(self, rate: f64) -> Reverb {
        Reverb::fresh(rate)
    }

    fn retune_refusal(self, rate: f64, places: usize) -> Result<(), Refusal> {
        Reverb::start_refusal(rate, places)
    }

    // Start. It makes one state: by `Cleared::settled`, which is handed two, a start took 320 bytes of stack in place of 64.
    fn new(rate: f64, mem: &mut [f64]) -> Cleared<Reverb> {
        let tested = Reverb::start_refusal(rate, mem.len());
        effect::clear(tested, mem);
        Cleared {
            state: Reverb::fresh(if tested.is_ok() { rate } else { 0.0 }),
            outcome: tested,
        }
    }
}
