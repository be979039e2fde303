// The delay's calls. A flag crosses as a number: 0 is off, any other is on, and what is written is 0 or 1.
ghost use Rattle.std.specs.Prelude.{◌≡◌, [], ◌∷◌, List, Float};
ghost use Rattle.effect.specs.Run.{retune, reset, device_of};
ghost use Rattle.effect.specs.Contract.{lent_at, from_to};
ghost use Rattle.delay_line.specs.DelayLine.{delay_line, handing, retuning, tick_of};
ghost use Rattle.room_effects.specs.Lent.{StartReturns, CallReturns, AgedReturns, AskReturns};
ghost use Rattle.room_effects.specs.States.{is_on, FlagWritten, FlagLeft, delay_of};
ghost use Rattle.room_effects.specs.Ports.{port_at};

use crate::shared::port_at;
use delay_line::{DelayLine, Retune};
use effect::{InMemory, Unit};
use port::{Answer, number_of, silent_flag};

// A delay's state from lent numbers.
fn delay_of(
    write_pos: u32,
    nonzero_places: u32,
    smoothed_delay: f64,
    sample_rate: f64,
    delay_smooth_coef: f64,
    max_delay_secs: f64,
    delay_primed: u32,
    linear_time: u32,
) -> DelayLine
    ensures { result ≡ delay_of write_pos nonzero_places smoothed_delay sample_rate delay_smooth_coef max_delay_secs (is_on delay_primed)
        (is_on linear_time) }
{
    DelayLine {
        write_pos,
        nonzero_places,
        smoothed_delay,
        sample_rate,
        delay_smooth_coef,
        max_delay_secs,
        delay_primed: delay_primed != 0,
        linear_time: linear_time != 0,
    }
}

// Start of a delay. A refused one writes the state of zeros too, and leaves the memory as it was.
#[unsafe(no_mangle)]
pub extern "C" fn room_raw_delay_start(
    new_sample_rate: f64,
    new_max_delay_secs: f64,
    new_delay_smooth_coef: f64,
    new_linear_time: u32,
    memory: &mut [f64],
    write_pos: &mut u32,
    nonzero_places: &mut u32,
    smoothed_delay: &mut f64,
    sample_rate: &mut f64,
    delay_smooth_coef: &mut f64,
    max_delay_secs: &mut f64,
    delay_primed: &mut u32,
    linear_time: &mut u32,
) -> u32
    ensures { StartReturns delay_line (handing new_sample_rate new_delay_smooth_coef new_max_delay_secs
        (is_on new_linear_time)) memory.old (device_of (delay_of write_pos.new nonzero_places.new
        smoothed_delay.new sample_rate.new delay_smooth_coef.new
        max_delay_secs.new (is_on delay_primed.new) (is_on linear_time.new))
        memory.new) result × FlagWritten delay_primed.new × FlagWritten linear_time.new }
{
    let started = DelayLine::with_max_delay(
        new_sample_rate,
        new_max_delay_secs,
        new_delay_smooth_coef,
        new_linear_time != 0,
        memory,
    );
    *write_pos = started.state.write_pos;
    *nonzero_places = started.state.nonzero_places;
    *smoothed_delay = started.state.smoothed_delay;
    *sample_rate = started.state.sample_rate;
    *delay_smooth_coef = started.state.delay_smooth_coef;
    *max_delay_secs = started.state.max_delay_secs;
    *delay_primed = u32::from(started.state.delay_primed);
    *linear_time = u32::from(started.state.linear_time);
    number_of(started.outcome)
}

#[unsafe(no_mangle)]
pub extern "C" fn room_raw_delay_retune(
    new_sample_rate: f64,
    new_delay_smooth_coef: f64,
    memory: &mut [f64],
    write_pos: &mut u32,
    nonzero_places: &mut u32,
    smoothed_delay: &mut f64,
    sample_rate: &mut f64,
    delay_smooth_coef: &mut f64,
    max_delay_secs: f64,
    delay_primed: &mut u32,
    linear_time: u32,
) -> u32
    ensures { from_to (λ k. device_of (delay_of (lent_at write_pos k) (lent_at nonzero_places k) (lent_at smoothed_delay k) (lent_at sample_rate k)
        (lent_at delay_smooth_coef k) max_delay_secs (is_on (lent_at delay_primed k)) (is_on linear_time)) (lent_at memory k))
        (λ u u'. CallReturns delay_line (retune (retuning new_sample_rate new_delay_smooth_coef)) u u' result)
        × from_to (lent_at delay_primed) (FlagLeft result) }
{
    let state = delay_of(
        *write_pos,
        *nonzero_places,
        *smoothed_delay,
        *sample_rate,
        *delay_smooth_coef,
        max_delay_secs,
        *delay_primed,
        linear_time,
    );
    let handed = Retune {
        rate: new_sample_rate,
        coefficient: new_delay_smooth_coef,
    };
    let cleared = state.set_sample_rate(handed, memory);
    if let Err(cause) = cleared.outcome {
        return u32::from(cause);
    }
    *write_pos = cleared.state.write_pos;
    *nonzero_places = cleared.state.nonzero_places;
    *smoothed_delay = cleared.state.smoothed_delay;
    *sample_rate = cleared.state.sample_rate;
    *delay_smooth_coef = cleared.state.delay_smooth_coef;
    *delay_primed = u32::from(cleared.state.delay_primed);
    0
}

#[unsafe(no_mangle)]
pub extern "C" fn room_raw_delay_reset(
    memory: &mut [f64],
    write_pos: &mut u32,
    nonzero_places: &mut u32,
    smoothed_delay: &mut f64,
    sample_rate: f64,
    delay_smooth_coef: f64,
    max_delay_secs: f64,
    delay_primed: &mut u32,
    linear_time: u32,
) -> u32
    ensures { from_to (λ k. device_of (delay_of (lent_at write_pos k) (lent_at nonzero_places k) (lent_at smoothed_delay k) sample_rate
        delay_smooth_coef max_delay_secs (is_on (lent_at delay_primed k)) (is_on linear_time)) (lent_at memory k))
        (λ u u'. CallReturns delay_line reset u u' result)
        × from_to (lent_at delay_primed) (FlagLeft result) }
{
    let state = delay_of(
        *write_pos,
        *nonzero_places,
        *smoothed_delay,
        sample_rate,
        delay_smooth_coef,
        max_delay_secs,
        *delay_primed,
        linear_time,
    );
    let cleared = state.reset(memory);
    if let Err(cause) = cleared.outcome {
        return u32::from(cause);
    }
    *write_pos = cleared.state.write_pos;
    *nonzero_places = cleared.state.nonzero_places;
    *smoothed_delay = cleared.state.smoothed_delay;
    *delay_primed = u32::from(cleared.state.delay_primed);
    0
}

// A tick. The mask's bits say which ports are set: 1 audio, 2 time, 4 feedback, 8 mix.
#[unsafe(no_mangle)]
pub extern "C" fn room_raw_delay_tick(
    write_pos: &mut u32,
    nonzero_places: &mut u32,
    smoothed_delay: &mut f64,
    sample_rate: f64,
    delay_smooth_coef: f64,
    max_delay_secs: f64,
    delay_primed: &mut u32,
    linear_time: u32,
    memory: &mut [f64],
    set: u32,
    audio: f64,
    time: f64,
    feedback: f64,
    mix: f64,
    milliseconds: f64,
    out: &mut f64,
    age: &mut u32,
) -> u32
    ensures { from_to (λ k. device_of (delay_of (lent_at write_pos k) (lent_at nonzero_places k) (lent_at smoothed_delay k) sample_rate
        delay_smooth_coef max_delay_secs (is_on (lent_at delay_primed k)) (is_on linear_time)) (lent_at memory k))
        (λ u u'. AgedReturns delay_line 1 (tick_of (port_at set 1 audio) (port_at set 2 time) (port_at set 4 feedback)
        (port_at set 8 mix) milliseconds) u u' (out.new ∷ []) age.new result) × from_to (lent_at delay_primed) (FlagLeft result) }
{
    let state = delay_of(
        *write_pos,
        *nonzero_places,
        *smoothed_delay,
        sample_rate,
        delay_smooth_coef,
        max_delay_secs,
        *delay_primed,
        linear_time,
    );
    let ticked = state.tick(
        memory,
        port_at(set, 1, audio),
        port_at(set, 2, time),
        port_at(set, 4, feedback),
        port_at(set, 8, mix),
        milliseconds,
    );
    *out = ticked.answer.first();
    *age = ticked.age;
    if let Answer::Refused(cause) = ticked.answer {
        return u32::from(cause);
    }
    *write_pos = ticked.state.write_pos;
    *nonzero_places = ticked.state.nonzero_places;
    *smoothed_delay = ticked.state.smoothed_delay;
    *delay_primed = u32::from(ticked.state.delay_primed);
    0
}

#[unsafe(no_mangle)]
pub extern "C" fn room_raw_delay_silent(
    write_pos: u32,
    nonzero_places: u32,
    smoothed_delay: f64,
    sample_rate: f64,
    delay_smooth_coef: f64,
    max_delay_secs: f64,
    delay_primed: u32,
    linear_time: u32,
    out: &mut u32,
) -> u32
    ensures { (m : List Float) → AskReturns delay_line (device_of (delay_of write_pos nonzero_places smoothed_delay sample_rate delay_smooth_coef
        max_delay_secs (is_on delay_primed) (is_on linear_time)) m) out.new result }
{
    let state = delay_of(
        write_pos,
        nonzero_places,
        smoothed_delay,
        sample_rate,
        delay_smooth_coef,
        max_delay_secs,
        delay_primed,
        linear_time,
    );
    let silence = state.silent();
    *out = silent_flag(silence);
    number_of(silence)
}
