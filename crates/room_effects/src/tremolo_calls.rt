// The tremolo's calls.
ghost use Rattle.effect.specs.Run.{reset, device_of};
ghost use Rattle.effect.specs.Contract.{lent_at, from_to};
ghost use Rattle.tremolo.specs.Tremolo.{tremolo, tick_of, state_of};
ghost use Rattle.room_effects.specs.Lent.{StartReturns, CallReturns, TickReturns, AskReturns};
ghost use Rattle.room_effects.specs.Ports.{port_at};
ghost use Rattle.std.specs.Prelude.{[], ◌∷◌};

use crate::shared::port_at;
use effect::{Unit, WithoutMemory};
use port::{Answer, number_of, silent_flag};
use tremolo::Tremolo;

// Start of a tremolo. A refused one writes the state of zeros too.
#[unsafe(no_mangle)]
pub extern "C" fn room_raw_tremolo_start(
    new_sample_rate: f64,
    lfo_phase: &mut f64,
    sample_rate: &mut f64,
) -> u32
    ensures { StartReturns tremolo new_sample_rate [] (device_of (state_of lfo_phase.new
        sample_rate.new) []) result }
{
    let started = Tremolo::new(new_sample_rate);
    *lfo_phase = started.state.lfo_phase;
    *sample_rate = started.state.sample_rate;
    number_of(started.outcome)
}

#[unsafe(no_mangle)]
pub extern "C" fn room_raw_tremolo_reset(lfo_phase: &mut f64, sample_rate: f64) -> u32
    ensures { from_to (λ k. device_of (state_of (lent_at lfo_phase k) sample_rate) [])
        (λ u u'. CallReturns tremolo reset u u' result) }
{
    let state = Tremolo {
        lfo_phase: *lfo_phase,
        sample_rate,
    };
    let cleared = state.reset();
    if let Err(cause) = cleared.outcome {
        return u32::from(cause);
    }
    *lfo_phase = cleared.state.lfo_phase;
    0
}

// A tick. The mask's bits say which ports are set: 1 audio, 2 depth, 4 shape.
#[unsafe(no_mangle)]
pub extern "C" fn room_raw_tremolo_tick(
    lfo_phase: &mut f64,
    sample_rate: f64,
    set: u32,
    audio: f64,
    depth: f64,
    shape: f64,
    frequency: f64,
    sine: f64,
    out: &mut f64,
) -> u32
    ensures { from_to (λ k. device_of (state_of (lent_at lfo_phase k) sample_rate) [])
        (λ u u'. TickReturns tremolo 1 (tick_of (port_at set 1 audio) (port_at set 2 depth) (port_at set 4 shape) frequency sine) u
        u' (out.new ∷ []) result) }
{
    let state = Tremolo {
        lfo_phase: *lfo_phase,
        sample_rate,
    };
    let ticked = state.tick(
        port_at(set, 1, audio),
        port_at(set, 2, depth),
        port_at(set, 4, shape),
        frequency,
        sine,
    );
    *out = ticked.answer.first();
    if let Answer::Refused(cause) = ticked.answer {
        return u32::from(cause);
    }
    *lfo_phase = ticked.state.lfo_phase;
    0
}

#[unsafe(no_mangle)]
pub extern "C" fn room_raw_tremolo_silent(lfo_phase: f64, sample_rate: f64, out: &mut u32) -> u32
    ensures { AskReturns tremolo (device_of (state_of lfo_phase sample_rate) []) out.new result }
{
    let state = Tremolo {
        lfo_phase,
        sample_rate,
    };
    let silence = state.silent();
    *out = silent_flag(silence);
    number_of(silence)
}
