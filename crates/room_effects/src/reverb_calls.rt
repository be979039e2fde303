// The reverb's calls. Its state crosses as lent arrays: the combs' and all-passes' positions, the combs' damping stores; and the predelay's position.
ghost use Rattle.std.specs.Prelude.{◌≡◌, List, Float};
ghost use Rattle.effect.specs.Run.{retune, reset, device_of};
ghost use Rattle.effect.specs.Contract.{lent_at, from_to};
ghost use Rattle.reverb.specs.Reverb.{reverb, tick_of, state_of};
ghost use Rattle.room_effects.specs.Lent.{StartReturns, CallReturns, TickReturns, AskReturns};
ghost use Rattle.room_effects.specs.Ports.{port_at};

use crate::shared::port_at;
use effect::{InMemory, Unit};
use port::{number_of, silent_flag};
use reverb::{Lent, Reverb};

// A reverb's state into lent arrays; the rate is written, or kept, beside.
fn put_reverb(
    state: Reverb,
    comb_pos_l: &mut [u32; 8],
    comb_pos_r: &mut [u32; 8],
    allpass_pos_l: &mut [u32; 4],
    allpass_pos_r: &mut [u32; 4],
    predelay_pos: &mut u32,
    nonzero_places: &mut u32,
    comb_filter_state_l: &mut [f64; 8],
    comb_filter_state_r: &mut [f64; 8],
)
    ensures { state_of comb_pos_l.new comb_pos_r.new allpass_pos_l.new
        allpass_pos_r.new predelay_pos.new nonzero_places.new comb_filter_state_l.new
        comb_filter_state_r.new state.sample_rate ≡ state }
{
    let combs_l = state.comb_pos_l;
    let combs_r = state.comb_pos_r;
    let damping_l = state.comb_filter_state_l;
    let damping_r = state.comb_filter_state_r;
    let passes_l = state.allpass_pos_l;
    let passes_r = state.allpass_pos_r;
    *comb_pos_l = combs_l;
    *comb_pos_r = combs_r;
    *allpass_pos_l = passes_l;
    *allpass_pos_r = passes_r;
    *predelay_pos = state.predelay_pos;
    *nonzero_places = state.nonzero_places;
    *comb_filter_state_l = damping_l;
    *comb_filter_state_r = damping_r;
}

// Start of a reverb. A refused one writes the state of zeros too, and leaves the memory as it was.
#[unsafe(no_mangle)]
pub extern "C" fn room_raw_reverb_start(
    new_sample_rate: f64,
    memory: &mut [f64],
    comb_pos_l: &mut [u32; 8],
    comb_pos_r: &mut [u32; 8],
    allpass_pos_l: &mut [u32; 4],
    allpass_pos_r: &mut [u32; 4],
    predelay_pos: &mut u32,
    nonzero_places: &mut u32,
    comb_filter_state_l: &mut [f64; 8],
    comb_filter_state_r: &mut [f64; 8],
    sample_rate: &mut f64,
) -> u32
    ensures { StartReturns reverb new_sample_rate memory.old (device_of (state_of comb_pos_l.new
        comb_pos_r.new allpass_pos_l.new allpass_pos_r.new
        predelay_pos.new nonzero_places.new comb_filter_state_l.new comb_filter_state_r.new sample_rate.new)
        memory.new) result }
{
    let started = Reverb::new(new_sample_rate, memory);
    put_reverb(
        started.state,
        comb_pos_l,
        comb_pos_r,
        allpass_pos_l,
        allpass_pos_r,
        predelay_pos,
        nonzero_places,
        comb_filter_state_l,
        comb_filter_state_r,
    );
    *sample_rate = started.state.sample_rate;
    number_of(started.outcome)
}

#[unsafe(no_mangle)]
pub extern "C" fn room_raw_reverb_retune(
    new_sample_rate: f64,
    memory: &mut [f64],
    comb_pos_l: &mut [u32; 8],
    comb_pos_r: &mut [u32; 8],
    allpass_pos_l: &mut [u32; 4],
    allpass_pos_r: &mut [u32; 4],
    predelay_pos: &mut u32,
    nonzero_places: &mut u32,
    comb_filter_state_l: &mut [f64; 8],
    comb_filter_state_r: &mut [f64; 8],
    sample_rate: &mut f64,
) -> u32
    ensures { from_to (λ k. device_of (state_of (lent_at comb_pos_l k) (lent_at comb_pos_r k) (lent_at allpass_pos_l k)
        (lent_at allpass_pos_r k) (lent_at predelay_pos k) (lent_at nonzero_places k) (lent_at comb_filter_state_l k) (lent_at comb_filter_state_r k)
        (lent_at sample_rate k)) (lent_at memory k))
        (λ u u'. CallReturns reverb (retune new_sample_rate) u u' result) }
{
    let state = Reverb {
        comb_pos_l: *comb_pos_l,
        comb_pos_r: *comb_pos_r,
        allpass_pos_l: *allpass_pos_l,
        allpass_pos_r: *allpass_pos_r,
        predelay_pos: *predelay_pos,
        nonzero_places: *nonzero_places,
        comb_filter_state_l: *comb_filter_state_l,
        comb_filter_state_r: *comb_filter_state_r,
        sample_rate: *sample_rate,
    };
    let cleared = state.set_sample_rate(new_sample_rate, memory);
    if let Err(cause) = cleared.outcome {
        return u32::from(cause);
    }
    put_reverb(
        cleared.state,
        comb_pos_l,
        comb_pos_r,
        allpass_pos_l,
        allpass_pos_r,
        predelay_pos,
        nonzero_places,
        comb_filter_state_l,
        comb_filter_state_r,
    );
    *sample_rate = cleared.state.sample_rate;
    0
}

#[unsafe(no_mangle)]
pub extern "C" fn room_raw_reverb_reset(
    memory: &mut [f64],
    comb_pos_l: &mut [u32; 8],
    comb_pos_r: &mut [u32; 8],
    allpass_pos_l: &mut [u32; 4],
    allpass_pos_r: &mut [u32; 4],
    predelay_pos: &mut u32,
    nonzero_places: &mut u32,
    comb_filter_state_l: &mut [f64; 8],
    comb_filter_state_r: &mut [f64; 8],
    sample_rate: f64,
) -> u32
    ensures { from_to (λ k. device_of (state_of (lent_at comb_pos_l k) (lent_at comb_pos_r k) (lent_at allpass_pos_l k)
        (lent_at allpass_pos_r k) (lent_at predelay_pos k) (lent_at nonzero_places k) (lent_at comb_filter_state_l k) (lent_at comb_filter_state_r k) sample_rate)
        (lent_at memory k))
        (λ u u'. CallReturns reverb reset u u' result) }
{
    let state = Reverb {
        comb_pos_l: *comb_pos_l,
        comb_pos_r: *comb_pos_r,
        allpass_pos_l: *allpass_pos_l,
        allpass_pos_r: *allpass_pos_r,
        predelay_pos: *predelay_pos,
        nonzero_places: *nonzero_places,
        comb_filter_state_l: *comb_filter_state_l,
        comb_filter_state_r: *comb_filter_state_r,
        sample_rate,
    };
    let cleared = state.reset(memory);
    if let Err(cause) = cleared.outcome {
        return u32::from(cause);
    }
    put_reverb(
        cleared.state,
        comb_pos_l,
        comb_pos_r,
        allpass_pos_l,
        allpass_pos_r,
        predelay_pos,
        nonzero_places,
        comb_filter_state_l,
        comb_filter_state_r,
    );
    0
}

// A tick, on the lent arrays themselves, which are one struct of one lifetime there: each of their 42 numbers is read where it is used, and written once. The mask's bits say which ports are set: 1 audio,
// 2 size, 4 damping, 8 mix, 16 predelay.
#[unsafe(no_mangle)]
pub extern "C" fn room_raw_reverb_tick<'a>(
    comb_pos_l: &'a mut [u32; 8],
    comb_pos_r: &'a mut [u32; 8],
    allpass_pos_l: &'a mut [u32; 4],
    allpass_pos_r: &'a mut [u32; 4],
    predelay_pos: &'a mut u32,
    nonzero_places: &'a mut u32,
    comb_filter_state_l: &'a mut [f64; 8],
    comb_filter_state_r: &'a mut [f64; 8],
    sample_rate: f64,
    memory: &mut [f64],
    set: u32,
    audio: f64,
    size: f64,
    damping: f64,
    mix: f64,
    predelay: f64,
    out: &mut [f64; 2],
) -> u32
    ensures { from_to (λ k. device_of (state_of (lent_at comb_pos_l k) (lent_at comb_pos_r k) (lent_at allpass_pos_l k)
        (lent_at allpass_pos_r k) (lent_at predelay_pos k) (lent_at nonzero_places k) (lent_at comb_filter_state_l k) (lent_at comb_filter_state_r k) sample_rate)
        (lent_at memory k))
        (λ u u'. TickReturns reverb 2 (tick_of (port_at set 1 audio) (port_at set 2 size) (port_at set 4 damping) (port_at set 8 mix)
        (port_at set 16 predelay)) u u' out.new result) }
{
    let mut lent = Lent {
        comb_pos_l,
        comb_pos_r,
        allpass_pos_l,
        allpass_pos_r,
        predelay_pos,
        nonzero_places,
        comb_filter_state_l,
        comb_filter_state_r,
        sample_rate,
    };
    let answer = lent.tick(
        memory,
        port_at(set, 1, audio),
        port_at(set, 2, size),
        port_at(set, 4, damping),
        port_at(set, 8, mix),
        port_at(set, 16, predelay),
    );
    *out = [answer.first(), answer.second()];
    answer.number()
}

#[unsafe(no_mangle)]
pub extern "C" fn room_raw_reverb_silent(
    comb_pos_l: &[u32; 8],
    comb_pos_r: &[u32; 8],
    allpass_pos_l: &[u32; 4],
    allpass_pos_r: &[u32; 4],
    predelay_pos: u32,
    nonzero_places: u32,
    comb_filter_state_l: &[f64; 8],
    comb_filter_state_r: &[f64; 8],
    sample_rate: f64,
    out: &mut u32,
) -> u32
    ensures { (m : List Float) → AskReturns reverb (device_of (state_of comb_pos_l.now comb_pos_r.now
        allpass_pos_l.now allpass_pos_r.now predelay_pos nonzero_places
        comb_filter_state_l.now comb_filter_state_r.now sample_rate) m) out.new result }
{
    let state = Reverb {
        comb_pos_l: *comb_pos_l,
        comb_pos_r: *comb_pos_r,
        allpass_pos_l: *allpass_pos_l,
        allpass_pos_r: *allpass_pos_r,
        predelay_pos,
        nonzero_places,
        comb_filter_state_l: *comb_filter_state_l,
        comb_filter_state_r: *comb_filter_state_r,
        sample_rate,
    };
    let silence = state.silent();
    *out = silent_flag(silence);
    number_of(silence)
}
