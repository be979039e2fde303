// The phaser's calls. Its chains cross as lent arrays: of each side's all-passes the last inputs, and the last outputs.
ghost use Rattle.std.specs.Prelude.{◌≡◌, []};
ghost use Rattle.effect.specs.Run.{reset, device_of};
ghost use Rattle.effect.specs.Contract.{lent_at, from_to};
ghost use Rattle.phaser.specs.Phaser.{phaser, tick_of, state_of};
ghost use Rattle.room_effects.specs.Lent.{StartReturns, CallReturns, TickReturns, AskReturns};
ghost use Rattle.room_effects.specs.Ports.{port_at};

use crate::shared::{port_at, put_samples};
use effect::{Unit, WithoutMemory};
use phaser::{Chain, Chains, Lent, Phaser};
use port::{number_of, silent_flag};

// A phaser's state from lent numbers.
fn phaser_of(
    allpass_x1_l: &[f64; 6],
    allpass_x1_r: &[f64; 6],
    allpass_y1_l: &[f64; 6],
    allpass_y1_r: &[f64; 6],
    lfo_phase: f64,
    sample_rate: f64,
) -> Phaser
    ensures { result ≡ state_of allpass_x1_l.now allpass_x1_r.now allpass_y1_l.now allpass_y1_r.now lfo_phase sample_rate }
{
    Phaser {
        allpass_x1_l: *allpass_x1_l,
        allpass_x1_r: *allpass_x1_r,
        allpass_y1_l: *allpass_y1_l,
        allpass_y1_r: *allpass_y1_r,
        lfo_phase,
        sample_rate,
    }
}

// A phaser's chains and phase into lent numbers; the rate is written, or kept, beside.
fn put_phaser(
    state: Phaser,
    allpass_x1_l: &mut [f64; 6],
    allpass_x1_r: &mut [f64; 6],
    allpass_y1_l: &mut [f64; 6],
    allpass_y1_r: &mut [f64; 6],
    lfo_phase: &mut f64,
)
    ensures { state_of allpass_x1_l.new allpass_x1_r.new allpass_y1_l.new allpass_y1_r.new
        lfo_phase.new state.sample_rate ≡ state }
{
    let x1_l = state.allpass_x1_l;
    let x1_r = state.allpass_x1_r;
    let y1_l = state.allpass_y1_l;
    let y1_r = state.allpass_y1_r;
    *allpass_x1_l = x1_l;
    *allpass_x1_r = x1_r;
    *allpass_y1_l = y1_l;
    *allpass_y1_r = y1_r;
    *lfo_phase = state.lfo_phase;
}

// Start of a phaser. A refused one writes the state of zeros too.
#[unsafe(no_mangle)]
pub extern "C" fn room_raw_phaser_start(
    new_sample_rate: f64,
    allpass_x1_l: &mut [f64; 6],
    allpass_x1_r: &mut [f64; 6],
    allpass_y1_l: &mut [f64; 6],
    allpass_y1_r: &mut [f64; 6],
    lfo_phase: &mut f64,
    sample_rate: &mut f64,
) -> u32
    ensures { StartReturns phaser new_sample_rate [] (device_of (state_of allpass_x1_l.new allpass_x1_r.new
        allpass_y1_l.new allpass_y1_r.new lfo_phase.new sample_rate.new) []) result }
{
    let started = Phaser::new(new_sample_rate);
    put_phaser(
        started.state,
        allpass_x1_l,
        allpass_x1_r,
        allpass_y1_l,
        allpass_y1_r,
        lfo_phase,
    );
    *sample_rate = started.state.sample_rate;
    number_of(started.outcome)
}

#[unsafe(no_mangle)]
pub extern "C" fn room_raw_phaser_reset(
    allpass_x1_l: &mut [f64; 6],
    allpass_x1_r: &mut [f64; 6],
    allpass_y1_l: &mut [f64; 6],
    allpass_y1_r: &mut [f64; 6],
    lfo_phase: &mut f64,
    sample_rate: f64,
) -> u32
    ensures { from_to (λ k. device_of (state_of (lent_at allpass_x1_l k) (lent_at allpass_x1_r k) (lent_at allpass_y1_l k)
        (lent_at allpass_y1_r k) (lent_at lfo_phase k) sample_rate) [])
        (λ u u'. CallReturns phaser reset u u' result) }
{
    let state = phaser_of(
        allpass_x1_l,
        allpass_x1_r,
        allpass_y1_l,
        allpass_y1_r,
        *lfo_phase,
        sample_rate,
    );
    let cleared = state.reset();
    if let Err(cause) = cleared.outcome {
        return u32::from(cause);
    }
    put_phaser(
        cleared.state,
        allpass_x1_l,
        allpass_x1_r,
        allpass_y1_l,
        allpass_y1_r,
        lfo_phase,
    );
    0
}

// A tick, on the lent arrays themselves, which are one struct of one lifetime there. The mask's bits say which ports are set: 1 audio, 2 feedback, 4 mix, 8 stages.
#[unsafe(no_mangle)]
pub extern "C" fn room_raw_phaser_tick<'a>(
    allpass_x1_l: &'a mut [f64; 6],
    allpass_x1_r: &'a mut [f64; 6],
    allpass_y1_l: &'a mut [f64; 6],
    allpass_y1_r: &'a mut [f64; 6],
    lfo_phase: &'a mut f64,
    sample_rate: f64,
    set: u32,
    audio: f64,
    feedback: f64,
    mix: f64,
    stages: f64,
    frequency: f64,
    coef_l: f64,
    coef_r: f64,
    out: &mut [f64; 3],
) -> u32
    ensures { from_to (λ k. device_of (state_of (lent_at allpass_x1_l k) (lent_at allpass_x1_r k) (lent_at allpass_y1_l k)
        (lent_at allpass_y1_r k) (lent_at lfo_phase k) sample_rate) [])
        (λ u u'. TickReturns phaser 3 (tick_of (port_at set 1 audio) (port_at set 2 feedback) (port_at set 4 mix) (port_at set 8 stages)
        frequency coef_l coef_r) u u' out.new result) }
{
    let mut lent = Lent {
        chains: Chains {
            left: Chain {
                x1: allpass_x1_l,
                y1: allpass_y1_l,
            },
            right: Chain {
                x1: allpass_x1_r,
                y1: allpass_y1_r,
            },
        },
        lfo_phase,
        sample_rate,
    };
    let answer = lent.tick(
        port_at(set, 1, audio),
        port_at(set, 2, feedback),
        port_at(set, 4, mix),
        port_at(set, 8, stages),
        frequency,
        coef_l,
        coef_r,
    );
    put_samples(answer, out);
    answer.number()
}

#[unsafe(no_mangle)]
pub extern "C" fn room_raw_phaser_silent(
    allpass_x1_l: &[f64; 6],
    allpass_x1_r: &[f64; 6],
    allpass_y1_l: &[f64; 6],
    allpass_y1_r: &[f64; 6],
    lfo_phase: f64,
    sample_rate: f64,
    out: &mut u32,
) -> u32
    ensures { AskReturns phaser (device_of (state_of allpass_x1_l.now allpass_x1_r.now allpass_y1_l.now
        allpass_y1_r.now lfo_phase sample_rate) []) out.new result }
{
    let state = phaser_of(
        allpass_x1_l,
        allpass_x1_r,
        allpass_y1_l,
        allpass_y1_r,
        lfo_phase,
        sample_rate,
    );
    let silence = state.silent();
    *out = silent_flag(silence);
    number_of(silence)
}
