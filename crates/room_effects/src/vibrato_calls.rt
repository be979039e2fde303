// The vibrato's calls.
ghost use Rattle.effect.specs.Run.{retune, reset, device_of};
ghost use Rattle.effect.specs.Contract.{lent_at, from_to};
ghost use Rattle.vibrato.specs.Vibrato.{vibrato, tick_of, state_of};
ghost use Rattle.room_effects.specs.Lent.{StartReturns, CallReturns, AgedReturns, AskReturns};
ghost use Rattle.room_effects.specs.Ports.{port_at};
ghost use Rattle.std.specs.Prelude.{[], ◌∷◌, List, Float};

use crate::shared::port_at;
use effect::{InMemory, Unit};
use port::{Answer, number_of, silent_flag};
use vibrato::Vibrato;

// Start of a vibrato. A refused one writes the state of zeros too, and leaves the memory as it was.
#[unsafe(no_mangle)]
pub extern "C" fn room_raw_vibrato_start(
    new_sample_rate: f64,
    memory: &mut [f64],
    write_pos: &mut u32,
    nonzero_places: &mut u32,
    lfo_phase: &mut f64,
    sample_rate: &mut f64,
) -> u32
    ensures { StartReturns vibrato new_sample_rate memory.old (device_of (state_of write_pos.new nonzero_places.new
        lfo_phase.new sample_rate.new) memory.new) result }
{
    let started = Vibrato::new(new_sample_rate, memory);
    *write_pos = started.state.write_pos;
    *nonzero_places = started.state.nonzero_places;
    *lfo_phase = started.state.lfo_phase;
    *sample_rate = started.state.sample_rate;
    number_of(started.outcome)
}

#[unsafe(no_mangle)]
pub extern "C" fn room_raw_vibrato_retune(
    new_sample_rate: f64,
    memory: &mut [f64],
    write_pos: &mut u32,
    nonzero_places: &mut u32,
    lfo_phase: &mut f64,
    sample_rate: &mut f64,
) -> u32
    ensures { from_to (λ k. device_of (state_of (lent_at write_pos k) (lent_at nonzero_places k) (lent_at lfo_phase k) (lent_at sample_rate k))
        (lent_at memory k))
        (λ u u'. CallReturns vibrato (retune new_sample_rate) u u' result) }
{
    let state = Vibrato {
        write_pos: *write_pos,
        nonzero_places: *nonzero_places,
        lfo_phase: *lfo_phase,
        sample_rate: *sample_rate,
    };
    let cleared = state.set_sample_rate(new_sample_rate, memory);
    if let Err(cause) = cleared.outcome {
        return u32::from(cause);
    }
    *write_pos = cleared.state.write_pos;
    *nonzero_places = cleared.state.nonzero_places;
    *lfo_phase = cleared.state.lfo_phase;
    *sample_rate = cleared.state.sample_rate;
    0
}

#[unsafe(no_mangle)]
pub extern "C" fn room_raw_vibrato_reset(
    memory: &mut [f64],
    write_pos: &mut u32,
    nonzero_places: &mut u32,
    lfo_phase: &mut f64,
    sample_rate: f64,
) -> u32
    ensures { from_to (λ k. device_of (state_of (lent_at write_pos k) (lent_at nonzero_places k) (lent_at lfo_phase k) sample_rate) (lent_at memory k))
        (λ u u'. CallReturns vibrato reset u u' result) }
{
    let state = Vibrato {
        write_pos: *write_pos,
        nonzero_places: *nonzero_places,
        lfo_phase: *lfo_phase,
        sample_rate,
    };
    let cleared = state.reset(memory);
    if let Err(cause) = cleared.outcome {
        return u32::from(cause);
    }
    *write_pos = cleared.state.write_pos;
    *nonzero_places = cleared.state.nonzero_places;
    *lfo_phase = cleared.state.lfo_phase;
    0
}

// A tick. The mask's bits say which ports are set: 1 audio, 2 depth, 4 mix.
#[unsafe(no_mangle)]
pub extern "C" fn room_raw_vibrato_tick(
    write_pos: &mut u32,
    nonzero_places: &mut u32,
    lfo_phase: &mut f64,
    sample_rate: f64,
    memory: &mut [f64],
    set: u32,
    audio: f64,
    depth: f64,
    mix: f64,
    frequency: f64,
    sine: f64,
    out: &mut f64,
    age: &mut u32,
) -> u32
    ensures { from_to (λ k. device_of (state_of (lent_at write_pos k) (lent_at nonzero_places k) (lent_at lfo_phase k) sample_rate) (lent_at memory k))
        (λ u u'. AgedReturns vibrato 1 (tick_of (port_at set 1 audio) (port_at set 2 depth) (port_at set 4 mix) frequency sine) u u'
        (out.new ∷ []) age.new result) }
{
    let state = Vibrato {
        write_pos: *write_pos,
        nonzero_places: *nonzero_places,
        lfo_phase: *lfo_phase,
        sample_rate,
    };
    let ticked = state.tick(
        memory,
        port_at(set, 1, audio),
        port_at(set, 2, depth),
        port_at(set, 4, mix),
        frequency,
        sine,
    );
    *out = ticked.answer.first();
    *age = ticked.age;
    if let Answer::Refused(cause) = ticked.answer {
        return u32::from(cause);
    }
    *write_pos = ticked.state.write_pos;
    *nonzero_places = ticked.state.nonzero_places;
    *lfo_phase = ticked.state.lfo_phase;
    0
}

#[unsafe(no_mangle)]
pub extern "C" fn room_raw_vibrato_silent(
    write_pos: u32,
    nonzero_places: u32,
    lfo_phase: f64,
    sample_rate: f64,
    out: &mut u32,
) -> u32
    ensures { (m : List Float) → AskReturns vibrato (device_of (state_of write_pos nonzero_places lfo_phase sample_rate) m)
        out.new result }
{
    let state = Vibrato {
        write_pos,
        nonzero_places,
        lfo_phase,
        sample_rate,
    };
    let silence = state.silent();
    *out = silent_flag(silence);
    number_of(silence)
}
