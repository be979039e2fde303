// The units whose calls are stored, and what a record of a file says. A record's words, for each effect:
//   tremolo, 11: 5; the phase before, the rate; the mask of set ports; audio, depth, shape; frequency, sine; the phase after; the sample
//   vibrato, 12: the call; the mask; audio, depth, mix; frequency, sine; the sample; the position and the phase after; the age; the count
//   chorus, 18: the call; the mask; audio, depth, mix; frequency, three sines; three samples; the position and the three phases after; the age; the count
//   flanger, 16: the call; the mask; audio, depth, feedback, mix; frequency, two sines; three samples; the position and the phase after; the age; the
//     count
//   delay, 13: the call; the mask; audio, time, feedback, mix; milliseconds; the sample; the position, the glide distance and whether it is primed
//     after; the age; the count
//   reverb, 17: reverbs.rt says; phaser, 13: phasers.rt does; tape delay, 14: tapes.rt does
// The age, a plain number, is that of the oldest sample that the tick's reads weigh above 0, worked out from their distances; of a call that is no tick
// it is 0. The other effects have none: their ticks answer 0.
// The count, a plain number, is that of the places in use that are neither +0 nor -0 after the call, counted in the Rust's lines.
// The call is 0 tick, 1 retune (the new rate stands for the mix, the delay's new coefficient for the milliseconds) or 2 reset. A tremolo's record has
// its own state before the tick; the others are calls of one unit from its start on, which stands before them: 1 delay, 2 chorus, 3 flanger, 4 vibrato,
// 6 reverb, 7 phaser or 8 tape delay; the rate; the places needed; of a delay also the maximum, the glide coefficient, and 1 for linear mode, else 0.
ghost use Rattle.std.specs.Prelude.{ℕ, ◌≡◌, ◌≤◌, ◌<◌, ◌/◌, ◌%◌, ◌==◌, ◌↔◌, IsTrue, is_ok};
ghost use Rattle.port.specs.Port.{port_if};
ghost use Rattle.port.specs.Answer.{answer_reply};
ghost use Rattle.replay.specs.Files.{start_size, record_size};
ghost use Rattle.replay.specs.Stored.{IsOfAge, IsOneSample, IsStored, IsThreeSamples};
ghost use Rattle.replay.specs.Words.{float_at};

use crate::words::Record;
use crate::{phasers, reverbs, tapes};
use chorus::Chorus;
use delay_line::{DelayLine, Retune};
use effect::{Cleared, InMemory, WithoutMemory};
use flanger::Flanger;
use phaser::Phaser;
use port::{Answer, Port, port_if};
use reverb::Reverb;
use tape_delay::TapeDelay;
use tremolo::Tremolo;
use vibrato::Vibrato;

// The calls that are no tick, as word 0 of a record has them. Numbers and no enum: they are the file's, and matched once, where they are read.
const RETUNE: u64 = 1;

const RESET: u64 = 2;

// What a file is of.
#[derive(Clone, Copy)]
pub enum Effect {
    Tremolo,
    Vibrato,
    Chorus,
    Flanger,
    Delay,
    Reverb,
    Phaser,
    Tape,
}

impl Effect {
    // The bytes of the start, before the records.
    pub fn start_size(self) -> usize
        ensures value { result ≡ start_size self }
        ensures fits { result ≤ 144 }
    {
        match self {
            Effect::Tremolo => 0,
            Effect::Tape => 5 * 8,
            Effect::Delay => 6 * 8,
            Effect::Vibrato | Effect::Chorus | Effect::Flanger | Effect::Reverb | Effect::Phaser =>
                3 * 8,
        }
    }

    // The bytes of a record.
    pub fn record_size(self) -> usize
        ensures value { result ≡ record_size self }
        ensures some { 0 < result }
        ensures fits { result ≤ 144 }
    {
        match self {
            Effect::Tremolo => 11 * 8,
            Effect::Vibrato => 12 * 8,
            Effect::Delay | Effect::Phaser => 13 * 8,
            Effect::Tape => 14 * 8,
            Effect::Flanger => 16 * 8,
            Effect::Reverb => 17 * 8,
            Effect::Chorus => 18 * 8,
        }
    }

    // Places enough for the stored calls.
    pub fn places(self) -> usize {
        match self {
            Effect::Reverb => Reverb::PLACES as usize,
            // twelve seconds at 11,025
            Effect::Tape => 132_301,
            _ => 600,
        }
    }
}

// A unit between two calls. Of a tremolo nothing is kept, since each record has the state before its tick.
#[derive(Clone, Copy)]
pub enum Unit {
    Tremolo,
    Vibrato(Vibrato),
    Chorus(Chorus),
    Flanger(Flanger),
    Delay(DelayLine),
    Reverb(Reverb),
    Phaser(Phaser),
    Tape(TapeDelay),
}

// The port of the weight 1, 2, 4, .. in the mask, with the number in word i.
pub fn port(stored: &Record, mask: u64, weight: u64, i: usize) -> Port
    requires { 1 ≤ weight }
    ensures { result ≡ port_if (mask / weight % 2 == 1) (float_at stored.now.bytes i) }
{
    port_if(mask / weight % 2 == 1, stored.float(i))
}

// Whether a tick was accepted with the sample stored in word i.
pub fn is_one_sample(answer: Answer, stored: &Record, i: usize) -> bool
    ensures { (age : ℕ) → (IsTrue result ↔ IsOneSample (answer_reply answer age) stored.now.bytes i) }
{
    !matches!(answer, Answer::Refused(_)) && stored.holds(i, answer.first())
}

// Whether a tick was accepted with the three samples stored from word i on; i is a byte, so that i + 2 is a number of a word too.
pub fn is_three_samples(answer: Answer, stored: &Record, i: u8) -> bool
    ensures { (age : ℕ) → (IsTrue result ↔ IsThreeSamples (answer_reply answer age) stored.now.bytes i) }
{
    let at = usize::from(i);
    is_one_sample(answer, stored, at)
        && stored.holds(at + 1, answer.second())
        && stored.holds(at + 2, answer.third())
}

// Whether a tick was accepted with the age stored in word i.
pub fn is_of_age(answer: Answer, age: u32, stored: &Record, i: usize) -> bool
    ensures { IsTrue result ↔ IsOfAge (answer_reply answer age) stored.now.bytes i }
{
    !matches!(answer, Answer::Refused(_)) && u64::from(age) == stored.word(i)
}

// Keeps the state that a start, a retune or a reset left, and says whether it was accepted.
fn keep<S>(state: &mut S, cleared: Cleared<S>) -> bool
where
    S: Copy,
    ensures state { state.new ≡ cleared.state }
    ensures accepted { result ≡ is_ok cleared.outcome }
{
    *state = cleared.state;
    cleared.outcome.is_ok()
}

// Whether a tremolo's tick gives the stored phase and sample.
fn tick_tremolo(stored: &Record) -> bool {
    let state = Tremolo {
        lfo_phase: stored.float(1),
        sample_rate: stored.float(2),
    };
    let mask = stored.word(3);
    let ticked = state.tick(
        port(stored, mask, 1, 4),
        port(stored, mask, 2, 5),
        port(stored, mask, 4, 6),
        stored.float(7),
        stored.float(8),
    );
    is_one_sample(ticked.answer, stored, 10)
        && ticked.age == 0
        && stored.holds(9, ticked.state.lfo_phase)
}

fn tick_vibrato(state: &mut Vibrato, mem: &mut [f64], stored: &Record) -> bool {
    let mask = stored.word(1);
    let ticked = state.tick(
        mem,
        port(stored, mask, 1, 2),
        port(stored, mask, 2, 3),
        port(stored, mask, 4, 4),
        stored.float(5),
        stored.float(6),
    );
    *state = ticked.state;
    is_one_sample(ticked.answer, stored, 7) && is_of_age(ticked.answer, ticked.age, stored, 10)
}

fn tick_chorus(state: &mut Chorus, mem: &mut [f64], stored: &Record) -> bool {
    let mask = stored.word(1);
    let ticked = state.tick(
        mem,
        port(stored, mask, 1, 2),
        port(stored, mask, 2, 3),
        port(stored, mask, 4, 4),
        stored.float(5),
        [stored.float(6), stored.float(7), stored.float(8)],
    );
    *state = ticked.state;
    is_three_samples(ticked.answer, stored, 9) && is_of_age(ticked.answer, ticked.age, stored, 16)
}

fn tick_flanger(state: &mut Flanger, mem: &mut [f64], stored: &Record) -> bool {
    let mask = stored.word(1);
    let ticked = state.tick(
        mem,
        port(stored, mask, 1, 2),
        port(stored, mask, 2, 3),
        port(stored, mask, 4, 4),
        port(stored, mask, 8, 5),
        stored.float(6),
        stored.float(7),
        stored.float(8),
    );
    *state = ticked.state;
    is_three_samples(ticked.answer, stored, 9) && is_of_age(ticked.answer, ticked.age, stored, 14)
}

fn tick_delay(state: &mut DelayLine, mem: &mut [f64], stored: &Record) -> bool {
    let mask = stored.word(1);
    let ticked = state.tick(
        mem,
        port(stored, mask, 1, 2),
        port(stored, mask, 2, 3),
        port(stored, mask, 4, 4),
        port(stored, mask, 8, 5),
        stored.float(6),
    );
    *state = ticked.state;
    is_one_sample(ticked.answer, stored, 7) && is_of_age(ticked.answer, ticked.age, stored, 11)
}

impl Unit {
    // The unit that a file's start leaves.
    pub fn new(effect: Effect, start: &Record, mem: &mut [f64]) -> Unit {
        let rate = start.float(1);
        match effect {
            Effect::Tremolo => Unit::Tremolo,
            Effect::Vibrato => Unit::Vibrato(Vibrato::new(rate, mem).state),
            Effect::Chorus => Unit::Chorus(Chorus::new(rate, mem).state),
            Effect::Flanger => Unit::Flanger(Flanger::new(rate, mem).state),
            Effect::Delay => {
                let linear = start.word(5) == 1;
                let maximum = start.float(3);
                let coefficient = start.float(4);
                Unit::Delay(
                    DelayLine::with_max_delay(rate, maximum, coefficient, linear, mem).state,
                )
            }
            Effect::Reverb => Unit::Reverb(Reverb::new(rate, mem).state),
            Effect::Phaser => Unit::Phaser(Phaser::new(rate).state),
            Effect::Tape => Unit::Tape(tapes::started(start, mem)),
        }
    }

    // Makes a record's call, and says whether it answered and left what is stored.
    pub fn call(&mut self, mem: &mut [f64], stored: &Record) -> bool
        ensures { IsTrue result → IsStored self.new stored.now.bytes }
    {
        let equal = match stored.word(0) {
            RETUNE => self.retune(mem, stored),
            RESET => self.reset(mem),
            _ => self.tick(mem, stored),
        };
        equal && self.is_stored(stored)
    }

    fn tick(&mut self, mem: &mut [f64], stored: &Record) -> bool {
        match self {
            Unit::Tremolo => tick_tremolo(stored),
            Unit::Vibrato(v) => tick_vibrato(v, mem, stored),
            Unit::Chorus(c) => tick_chorus(c, mem, stored),
            Unit::Flanger(f) => tick_flanger(f, mem, stored),
            Unit::Delay(d) => tick_delay(d, mem, stored),
            Unit::Reverb(r) => reverbs::tick_or_look(r, mem, stored),
            Unit::Phaser(p) => phasers::tick_or_look(p, stored),
            Unit::Tape(t) => tapes::tick(t, mem, stored),
        }
    }

    fn retune(&mut self, mem: &mut [f64], stored: &Record) -> bool {
        match self {
            Unit::Tremolo => false,
            Unit::Vibrato(v) => keep(v, v.set_sample_rate(stored.float(4), mem)),
            Unit::Chorus(c) => keep(c, c.set_sample_rate(stored.float(4), mem)),
            Unit::Flanger(f) => keep(f, f.set_sample_rate(stored.float(5), mem)),
            Unit::Delay(d) => {
                let handed = Retune {
                    rate: stored.float(5),
                    coefficient: stored.float(6),
                };
                keep(d, d.set_sample_rate(handed, mem))
            }
            Unit::Reverb(r) => keep(r, r.set_sample_rate(stored.float(6), mem)),
            Unit::Phaser(_) => false,
            Unit::Tape(t) => keep(t, t.set_sample_rate(tapes::retuning(stored), mem)),
        }
    }

    fn reset(&mut self, mem: &mut [f64]) -> bool {
        match self {
            Unit::Tremolo => false,
            Unit::Vibrato(v) => keep(v, v.reset(mem)),
            Unit::Chorus(c) => keep(c, c.reset(mem)),
            Unit::Flanger(f) => keep(f, f.reset(mem)),
            Unit::Delay(d) => keep(d, d.reset(mem)),
            Unit::Reverb(r) => keep(r, r.reset(mem)),
            Unit::Phaser(p) => keep(p, p.reset()),
            Unit::Tape(t) => keep(t, t.reset(mem)),
        }
    }

    // Whether the unit is what a record says of it after the call.
    fn is_stored(&self, stored: &Record) -> bool
        ensures { IsTrue result ↔ IsStored self.now stored.now.bytes }
    {
        match self {
            Unit::Tremolo => true,
            Unit::Vibrato(v) => {
                u64::from(v.write_pos) == stored.word(8)
                    && stored.holds(9, v.lfo_phase)
                    && u64::from(v.nonzero_places) == stored.word(11)
            }
            Unit::Chorus(c) => {
                u64::from(c.write_pos) == stored.word(12)
                    && stored.holds(13, c.lfo_phases[0])
                    && stored.holds(14, c.lfo_phases[1])
                    && stored.holds(15, c.lfo_phases[2])
                    && u64::from(c.nonzero_places) == stored.word(17)
            }
            Unit::Flanger(f) => {
                u64::from(f.write_pos) == stored.word(12)
                    && stored.holds(13, f.lfo_phase)
                    && u64::from(f.nonzero_places) == stored.word(15)
            }
            Unit::Delay(d) => {
                u64::from(d.write_pos) == stored.word(8)
                    && stored.holds(9, d.smoothed_delay)
                    && d.delay_primed == (stored.word(10) == 1)
                    && u64::from(d.nonzero_places) == stored.word(12)
            }
            Unit::Reverb(r) => reverbs::is_stored(r, stored),
            Unit::Phaser(p) => phasers::is_stored(p, stored),
            Unit::Tape(t) => tapes::is_stored(t, stored),
        }
    }
}
