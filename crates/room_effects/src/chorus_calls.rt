// The chorus's calls.
ghost use Rattle.effect.specs.Run.{retune, reset, device_of};
ghost use Rattle.effect.specs.Contract.{lent_at, from_to};
ghost use Rattle.chorus.specs.Chorus.{chorus, tick_of, state_of};
ghost use Rattle.room_effects.specs.Lent.{StartReturns, CallReturns, AgedReturns, AskReturns};
ghost use Rattle.room_effects.specs.Ports.{port_at};
ghost use Rattle.std.specs.Prelude.{◌≡◌, [], ◌∷◌, List, Float};

use crate::shared::{port_at, put_samples};
use chorus::Chorus;
use effect::{InMemory, Unit};
use port::{Answer, number_of, silent_flag};

// A chorus's position and phases into lent numbers; the rate is written, or kept, beside.
fn put_chorus(
    state: Chorus,
    write_pos: &mut u32,
    nonzero_places: &mut u32,
    lfo_phases: &mut [f64; 3],
)
    ensures { state_of write_pos.new nonzero_places.new lfo_phases.new state.sample_rate ≡ state }
{
    let phases = state.lfo_phases;
    *write_pos = state.write_pos;
    *nonzero_places = state.nonzero_places;
    *lfo_phases = phases;
}

// Start of a chorus. A refused one writes the state of zeros too, and leaves the memory as it was.
#[unsafe(no_mangle)]
pub extern "C" fn room_raw_chorus_start(
    new_sample_rate: f64,
    memory: &mut [f64],
    write_pos: &mut u32,
    nonzero_places: &mut u32,
    lfo_phases: &mut [f64; 3],
    sample_rate: &mut f64,
) -> u32
    ensures { StartReturns chorus new_sample_rate memory.old (device_of (state_of write_pos.new nonzero_places.new
        lfo_phases.new sample_rate.new) memory.new) result }
{
    let started = Chorus::new(new_sample_rate, memory);
    put_chorus(started.state, write_pos, nonzero_places, lfo_phases);
    *sample_rate = started.state.sample_rate;
    number_of(started.outcome)
}

#[unsafe(no_mangle)]
pub extern "C" fn room_raw_chorus_retune(
    new_sample_rate: f64,
    memory: &mut [f64],
    write_pos: &mut u32,
    nonzero_places: &mut u32,
    lfo_phases: &mut [f64; 3],
    sample_rate: &mut f64,
) -> u32
    ensures { from_to (λ k. device_of (state_of (lent_at write_pos k) (lent_at nonzero_places k) (lent_at lfo_phases k) (lent_at sample_rate k))
        (lent_at memory k))
        (λ u u'. CallReturns chorus (retune new_sample_rate) u u' result) }
{
    let state = Chorus {
        write_pos: *write_pos,
        nonzero_places: *nonzero_places,
        lfo_phases: *lfo_phases,
        sample_rate: *sample_rate,
    };
    let cleared = state.set_sample_rate(new_sample_rate, memory);
    if let Err(cause) = cleared.outcome {
        return u32::from(cause);
    }
    put_chorus(cleared.state, write_pos, nonzero_places, lfo_phases);
    *sample_rate = cleared.state.sample_rate;
    0
}

#[unsafe(no_mangle)]
pub extern "C" fn room_raw_chorus_reset(
    memory: &mut [f64],
    write_pos: &mut u32,
    nonzero_places: &mut u32,
    lfo_phases: &mut [f64; 3],
    sample_rate: f64,
) -> u32
    ensures { from_to (λ k. device_of (state_of (lent_at write_pos k) (lent_at nonzero_places k) (lent_at lfo_phases k) sample_rate) (lent_at memory k))
        (λ u u'. CallReturns chorus reset u u' result) }
{
    let state = Chorus {
        write_pos: *write_pos,
        nonzero_places: *nonzero_places,
        lfo_phases: *lfo_phases,
        sample_rate,
    };
    let cleared = state.reset(memory);
    if let Err(cause) = cleared.outcome {
        return u32::from(cause);
    }
    put_chorus(cleared.state, write_pos, nonzero_places, lfo_phases);
    0
}

// A tick. The mask's bits say which ports are set: 1 audio, 2 depth, 4 mix.
#[unsafe(no_mangle)]
pub extern "C" fn room_raw_chorus_tick(
    write_pos: &mut u32,
    nonzero_places: &mut u32,
    lfo_phases: &mut [f64; 3],
    sample_rate: f64,
    memory: &mut [f64],
    set: u32,
    audio: f64,
    depth: f64,
    mix: f64,
    frequency: f64,
    sine0: f64,
    sine1: f64,
    sine2: f64,
    out: &mut [f64; 3],
    age: &mut u32,
) -> u32
    ensures { from_to (λ k. device_of (state_of (lent_at write_pos k) (lent_at nonzero_places k) (lent_at lfo_phases k) sample_rate) (lent_at memory k))
        (λ u u'. AgedReturns chorus 3 (tick_of (port_at set 1 audio) (port_at set 2 depth) (port_at set 4 mix) frequency
        (sine0 ∷ sine1 ∷ sine2 ∷ [])) u u' out.new age.new result) }
{
    let state = Chorus {
        write_pos: *write_pos,
        nonzero_places: *nonzero_places,
        lfo_phases: *lfo_phases,
        sample_rate,
    };
    let ticked = state.tick(
        memory,
        port_at(set, 1, audio),
        port_at(set, 2, depth),
        port_at(set, 4, mix),
        frequency,
        [sine0, sine1, sine2],
    );
    put_samples(ticked.answer, out);
    *age = ticked.age;
    if let Answer::Refused(cause) = ticked.answer {
        return u32::from(cause);
    }
    put_chorus(ticked.state, write_pos, nonzero_places, lfo_phases);
    0
}

#[unsafe(no_mangle)]
pub extern "C" fn room_raw_chorus_silent(
    write_pos: u32,
    nonzero_places: u32,
    lfo_phases: &[f64; 3],
    sample_rate: f64,
    out: &mut u32,
) -> u32
    ensures { (m : List Float) → AskReturns chorus (device_of (state_of write_pos nonzero_places lfo_phases.now sample_rate)
        m) out.new result }
{
    let state = Chorus {
        write_pos,
        nonzero_places,
        lfo_phases: *lfo_phases,
        sample_rate,
    };
    let silence = state.silent();
    *out = silent_flag(silence);
    number_of(silence)
}
