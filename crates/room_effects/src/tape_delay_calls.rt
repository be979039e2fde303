// The tape delay's calls: a tick is two, the read half and the store half, between which the host saturates the sum. A flag crosses as the delay's do.
ghost use Rattle.std.specs.Prelude.{◌≡◌, [], ◌∷◌, List, Float};
ghost use Rattle.effect.specs.Run.{tick, retune, reset, device_of};
ghost use Rattle.effect.specs.Contract.{lent_at, from_to};
ghost use Rattle.tape_delay.specs.TapeDelay.{tape_delay, handing, ports_of, read_half, store_half};
ghost use Rattle.room_effects.specs.Lent.{StartReturns, CallReturns, TickReturns, AgedReturns, AskReturns};
ghost use Rattle.room_effects.specs.States.{is_on, FlagWritten, FlagLeft, tape_delay_of};
ghost use Rattle.room_effects.specs.Ports.{port_at};

use crate::shared::port_at;
use delay_line::Kept;
use effect::{InMemory, Unit};
use port::{Answer, number_of, silent_flag};
use tape_delay::{Settings, TapeDelay};

// A tape delay's state from lent numbers.
fn tape_delay_of(
    write_pos: u32,
    nonzero_places: u32,
    smoothed_delay: f64,
    kept_audio: f64,
    kept_read: f64,
    kept_mix: f64,
    sample_rate: f64,
    delay_smooth_coef: f64,
    delay_primed: u32,
    waiting: u32,
) -> TapeDelay
    ensures { result ≡ tape_delay_of write_pos nonzero_places smoothed_delay kept_audio kept_read kept_mix sample_rate delay_smooth_coef
        (is_on delay_primed) (is_on waiting) }
{
    TapeDelay {
        write_pos,
        nonzero_places,
        smoothed_delay,
        kept: Kept {
            audio: kept_audio,
            read: kept_read,
            mix: kept_mix,
        },
        sample_rate,
        delay_smooth_coef,
        delay_primed: delay_primed != 0,
        waiting: waiting != 0,
    }
}

// Whether a read waits, and what is kept of it, into lent numbers; the rest of the state is written, or left, beside.
fn put_kept(
    state: TapeDelay,
    kept_audio: &mut f64,
    kept_read: &mut f64,
    kept_mix: &mut f64,
    waiting: &mut u32,
)
    ensures { tape_delay_of state.write_pos state.nonzero_places state.smoothed_delay kept_audio.new kept_read.new kept_mix.new state.sample_rate
        state.delay_smooth_coef state.delay_primed (is_on waiting.new) ≡ state × FlagWritten waiting.new }
{
    *kept_audio = state.kept.audio;
    *kept_read = state.kept.read;
    *kept_mix = state.kept.mix;
    *waiting = u32::from(state.waiting);
}

// Start of a tape delay. A refused one writes the state of zeros too, and leaves the memory as it was.
#[unsafe(no_mangle)]
pub extern "C" fn room_raw_tape_delay_start(
    new_sample_rate: f64,
    new_delay_smooth_coef: f64,
    memory: &mut [f64],
    write_pos: &mut u32,
    nonzero_places: &mut u32,
    smoothed_delay: &mut f64,
    kept_audio: &mut f64,
    kept_read: &mut f64,
    kept_mix: &mut f64,
    sample_rate: &mut f64,
    delay_smooth_coef: &mut f64,
    delay_primed: &mut u32,
    waiting: &mut u32,
) -> u32
    ensures { StartReturns tape_delay (handing new_sample_rate new_delay_smooth_coef) memory.old (device_of (tape_delay_of write_pos.new nonzero_places.new
        smoothed_delay.new kept_audio.new kept_read.new kept_mix.new sample_rate.new delay_smooth_coef.new (is_on delay_primed.new)
        (is_on waiting.new)) memory.new) result × FlagWritten delay_primed.new × FlagWritten waiting.new }
{
    let handed = Settings {
        rate: new_sample_rate,
        coefficient: new_delay_smooth_coef,
    };
    let started = TapeDelay::new(handed, memory);
    *write_pos = started.state.write_pos;
    *nonzero_places = started.state.nonzero_places;
    *smoothed_delay = started.state.smoothed_delay;
    *sample_rate = started.state.sample_rate;
    *delay_smooth_coef = started.state.delay_smooth_coef;
    *delay_primed = u32::from(started.state.delay_primed);
    put_kept(started.state, kept_audio, kept_read, kept_mix, waiting);
    number_of(started.outcome)
}

#[unsafe(no_mangle)]
pub extern "C" fn room_raw_tape_delay_retune(
    new_sample_rate: f64,
    new_delay_smooth_coef: f64,
    memory: &mut [f64],
    write_pos: &mut u32,
    nonzero_places: &mut u32,
    smoothed_delay: &mut f64,
    kept_audio: &mut f64,
    kept_read: &mut f64,
    kept_mix: &mut f64,
    sample_rate: &mut f64,
    delay_smooth_coef: &mut f64,
    delay_primed: &mut u32,
    waiting: &mut u32,
) -> u32
    ensures { from_to (λ k. device_of (tape_delay_of (lent_at write_pos k) (lent_at nonzero_places k) (lent_at smoothed_delay k) (lent_at kept_audio k)
        (lent_at kept_read k) (lent_at kept_mix k) (lent_at sample_rate k) (lent_at delay_smooth_coef k) (is_on (lent_at delay_primed k))
        (is_on (lent_at waiting k))) (lent_at memory k))
        (λ u u'. CallReturns tape_delay (retune (handing new_sample_rate new_delay_smooth_coef)) u u' result)
        × from_to (lent_at delay_primed) (FlagLeft result) × from_to (lent_at waiting) (FlagLeft result) }
{
    let state = tape_delay_of(
        *write_pos,
        *nonzero_places,
        *smoothed_delay,
        *kept_audio,
        *kept_read,
        *kept_mix,
        *sample_rate,
        *delay_smooth_coef,
        *delay_primed,
        *waiting,
    );
    let handed = Settings {
        rate: new_sample_rate,
        coefficient: new_delay_smooth_coef,
    };
    let cleared = state.set_sample_rate(handed, memory);
    if let Err(cause) = cleared.outcome {
        return u32::from(cause);
    }
    *write_pos = cleared.state.write_pos;
    *nonzero_places = cleared.state.nonzero_places;
    *smoothed_delay = cleared.state.smoothed_delay;
    *sample_rate = cleared.state.sample_rate;
    *delay_smooth_coef = cleared.state.delay_smooth_coef;
    *delay_primed = u32::from(cleared.state.delay_primed);
    put_kept(cleared.state, kept_audio, kept_read, kept_mix, waiting);
    0
}

#[unsafe(no_mangle)]
pub extern "C" fn room_raw_tape_delay_reset(
    memory: &mut [f64],
    write_pos: &mut u32,
    nonzero_places: &mut u32,
    smoothed_delay: &mut f64,
    kept_audio: &mut f64,
    kept_read: &mut f64,
    kept_mix: &mut f64,
    sample_rate: f64,
    delay_smooth_coef: f64,
    delay_primed: &mut u32,
    waiting: &mut u32,
) -> u32
    ensures { from_to (λ k. device_of (tape_delay_of (lent_at write_pos k) (lent_at nonzero_places k) (lent_at smoothed_delay k) (lent_at kept_audio k)
        (lent_at kept_read k) (lent_at kept_mix k) sample_rate delay_smooth_coef (is_on (lent_at delay_primed k)) (is_on (lent_at waiting k)))
        (lent_at memory k))
        (λ u u'. CallReturns tape_delay reset u u' result)
        × from_to (lent_at delay_primed) (FlagLeft result) × from_to (lent_at waiting) (FlagLeft result) }
{
    let state = tape_delay_of(
        *write_pos,
        *nonzero_places,
        *smoothed_delay,
        *kept_audio,
        *kept_read,
        *kept_mix,
        sample_rate,
        delay_smooth_coef,
        *delay_primed,
        *waiting,
    );
    let cleared = state.reset(memory);
    if let Err(cause) = cleared.outcome {
        return u32::from(cause);
    }
    *write_pos = cleared.state.write_pos;
    *nonzero_places = cleared.state.nonzero_places;
    *smoothed_delay = cleared.state.smoothed_delay;
    *delay_primed = u32::from(cleared.state.delay_primed);
    put_kept(cleared.state, kept_audio, kept_read, kept_mix, waiting);
    0
}

// The first half of a tick, which writes no place and leaves the position. The mask's bits say which ports are set: 1 audio, 2 time, 4 feedback, 8 mix.
#[unsafe(no_mangle)]
pub extern "C" fn room_raw_tape_delay_read_half(
    write_pos: u32,
    nonzero_places: u32,
    smoothed_delay: &mut f64,
    kept_audio: &mut f64,
    kept_read: &mut f64,
    kept_mix: &mut f64,
    sample_rate: f64,
    delay_smooth_coef: f64,
    delay_primed: &mut u32,
    waiting: &mut u32,
    memory: &[f64],
    set: u32,
    audio: f64,
    time: f64,
    feedback: f64,
    mix: f64,
    sum: &mut f64,
    age: &mut u32,
) -> u32
    ensures { from_to (λ k. device_of (tape_delay_of write_pos nonzero_places (lent_at smoothed_delay k) (lent_at kept_audio k)
        (lent_at kept_read k) (lent_at kept_mix k) sample_rate delay_smooth_coef (is_on (lent_at delay_primed k)) (is_on (lent_at waiting k))) memory.now)
        (λ u u'. AgedReturns tape_delay 1 (read_half (ports_of (port_at set 1 audio) (port_at set 2 time) (port_at set 4 feedback)
        (port_at set 8 mix))) u u' (sum.new ∷ []) age.new result)
        × from_to (lent_at delay_primed) (FlagLeft result) × from_to (lent_at waiting) (FlagLeft result) }
{
    let state = tape_delay_of(
        write_pos,
        nonzero_places,
        *smoothed_delay,
        *kept_audio,
        *kept_read,
        *kept_mix,
        sample_rate,
        delay_smooth_coef,
        *delay_primed,
        *waiting,
    );
    let ticked = state.read_half(
        memory,
        port_at(set, 1, audio),
        port_at(set, 2, time),
        port_at(set, 4, feedback),
        port_at(set, 8, mix),
    );
    *sum = ticked.answer.first();
    *age = ticked.age;
    if let Answer::Refused(cause) = ticked.answer {
        return u32::from(cause);
    }
    *smoothed_delay = ticked.state.smoothed_delay;
    *delay_primed = u32::from(ticked.state.delay_primed);
    put_kept(ticked.state, kept_audio, kept_read, kept_mix, waiting);
    0
}

// The second half, which leaves the glide.
#[unsafe(no_mangle)]
pub extern "C" fn room_raw_tape_delay_store_half(
    write_pos: &mut u32,
    nonzero_places: &mut u32,
    smoothed_delay: f64,
    kept_audio: &mut f64,
    kept_read: &mut f64,
    kept_mix: &mut f64,
    sample_rate: f64,
    delay_smooth_coef: f64,
    delay_primed: u32,
    waiting: &mut u32,
    memory: &mut [f64],
    saturated: f64,
    out: &mut f64,
) -> u32
    ensures { from_to (λ k. device_of (tape_delay_of (lent_at write_pos k) (lent_at nonzero_places k) smoothed_delay (lent_at kept_audio k) (lent_at kept_read k)
        (lent_at kept_mix k) sample_rate delay_smooth_coef (is_on delay_primed) (is_on (lent_at waiting k))) (lent_at memory k))
        (λ u u'. TickReturns tape_delay 1 (store_half saturated) u u' (out.new ∷ []) result)
        × from_to (lent_at waiting) (FlagLeft result) }
{
    let state = tape_delay_of(
        *write_pos,
        *nonzero_places,
        smoothed_delay,
        *kept_audio,
        *kept_read,
        *kept_mix,
        sample_rate,
        delay_smooth_coef,
        delay_primed,
        *waiting,
    );
    let ticked = state.store_half(memory, saturated);
    *out = ticked.answer.first();
    if let Answer::Refused(cause) = ticked.answer {
        return u32::from(cause);
    }
    *write_pos = ticked.state.write_pos;
    *nonzero_places = ticked.state.nonzero_places;
    put_kept(ticked.state, kept_audio, kept_read, kept_mix, waiting);
    0
}

#[unsafe(no_mangle)]
pub extern "C" fn room_raw_tape_delay_silent(
    write_pos: u32,
    nonzero_places: u32,
    smoothed_delay: f64,
    kept_audio: f64,
    kept_read: f64,
    kept_mix: f64,
    sample_rate: f64,
    delay_smooth_coef: f64,
    delay_primed: u32,
    waiting: u32,
    out: &mut u32,
) -> u32
    ensures { (m : List Float) → AskReturns tape_delay (device_of (tape_delay_of write_pos nonzero_places smoothed_delay kept_audio kept_read kept_mix
        sample_rate delay_smooth_coef (is_on delay_primed) (is_on waiting)) m) out.new result }
{
    let state = tape_delay_of(
        write_pos,
        nonzero_places,
        smoothed_delay,
        kept_audio,
        kept_read,
        kept_mix,
        sample_rate,
        delay_smooth_coef,
        delay_primed,
        waiting,
    );
    let silence = state.silent();
    *out = silent_flag(silence);
    number_of(silence)
}
