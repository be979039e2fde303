// Freeverb's filters, and the predelay, each on its part of the tank, which starts where its line does.
ghost use Rattle.std.specs.Prelude.{◌≡◌, ◌+◌, ◌<◌, ◌≤◌};
ghost use Rattle.std.proofs.Math.ListN as ListN;
ghost use Rattle.std.specs.Float.{nan};
ghost use Rattle.common.specs.Line.{nonzero};
ghost use Rattle.reverb.specs.Tunings.{predelay_size};
ghost use Rattle.reverb.specs.Freeverb.{combed, comb_line, passed, pass_line};
ghost use Rattle.reverb.specs.Tank.{delayed};
ghost use Rattle.reverb.specs.Reverb.{delay_samples};

use crate::Reverb;
use crate::stepped::Stepped;

// What a step of a comb answers, which is what its place held, with its next store and what the place gets.
#[derive(Clone, Copy)]
pub struct Combed {
    pub output: f64,
    pub filter_state: f64,
    pub fed: f64,
}

// What a step of an all-pass answers, with what its place held and gets.
#[derive(Clone, Copy)]
pub struct Passed {
    pub output: f64,
    pub held: f64,
    pub fed: f64,
}

// One step of a comb on its part of the tank.
#[tactic(auto, unfolding(crate::specs::Freeverb::comb_store, crate::specs::Freeverb::comb_fed, crate::specs::Freeverb::combed, crate::specs::Freeverb::comb_line, float64::proofs::Literals::of_bits, float64::proofs::Literals::of_int))]
pub fn process_comb(
    line: &mut [f64],
    pos: u32,
    filter_state: f64,
    input: f64,
    feedback: f64,
    damping: f64,
) -> Combed
    requires inside { pos < ListN.length line.old }
    ensures value { result ≡ combed (ListN.get_or line.old pos nan) filter_state input damping feedback }
    ensures line_after { line.new ≡ comb_line line.old pos filter_state input damping feedback }
{
    let w = pos as usize;
    let output = line[w];
    let store = output * (1.0 - damping) + filter_state * damping;
    let fed = input + store * feedback;
    line[w] = fed;
    Combed {
        output,
        filter_state: store,
        fed,
    }
}

// One step of an all-pass on its part of the tank.
#[tactic(auto, unfolding(crate::specs::Freeverb::pass_output, crate::specs::Freeverb::pass_fed, crate::specs::Freeverb::passed, crate::specs::Freeverb::pass_line, float64::proofs::Literals::of_bits, float64::proofs::Literals::round))]
pub fn process_allpass(line: &mut [f64], pos: u32, input: f64) -> Passed
    requires inside { pos < ListN.length line.old }
    ensures value { result ≡ passed (ListN.get_or line.old pos nan) input }
    ensures line_after { line.new ≡ pass_line line.old pos input }
{
    let w = pos as usize;
    let held = line[w];
    let fed = input + held * 0.5;
    line[w] = fed;
    Passed {
        output: -input + held,
        held,
        fed,
    }
}

// The predelay's delay in samples, from 0 to the cap: below 1 it is none, from 1 on `whole_part_small` serves, which takes fewer steps than `whole_part`.
#[tactic(auto, unfolding(crate::specs::Reverb::delay_samples, float64::proofs::Literals::of_bits, float64::proofs::Literals::of_int, float64::proofs::Literals::round))]
pub fn predelay_samples(control: f64, rate: f64) -> u64
    ensures { result ≡ delay_samples control rate }
{
    let samples = float64::at_most(control * 0.1 * rate, Reverb::MAX_PREDELAY_SAMPLES);
    if samples >= 1.0 {
        return float64::whole_part_small(samples);
    }
    0
}

// The predelay on its part of the tank: it writes first, so that a delay of 0 passes the audio itself.
#[tactic(auto, using(crate::proofs::Predelay::delayed_cases))]
pub fn process_predelay(line: &mut [f64], pos: u32, samples: u64, input: f64) -> Stepped
    requires line_len { ListN.length line.old ≡ predelay_size }
    requires pos_lt_predelay_size { pos < predelay_size }
    requires samples_lt_predelay_size { samples < predelay_size }
    ensures value { result.output ≡ delayed 0 pos samples input line.old }
    ensures gained { result.gained ≡ nonzero input }
    ensures lost { result.lost ≡ nonzero (ListN.get_or line.old pos nan) }
    ensures line_after { line.new ≡ ListN.set line.old pos input }
{
    let w = pos as usize;
    let d = samples as usize;
    let lost = common::nonzero(line[w]);
    line[w] = input;
    let output = if d == 0 {
        input
    } else if w >= d {
        line[w - d]
    } else {
        line[Reverb::MAX_PREDELAY_SIZE - (d - w)]
    };
    Stepped {
        output,
        gained: common::nonzero(input),
        lost,
    }
}
