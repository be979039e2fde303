// The phaser's records. A record's 13 words:
//   0       the call: 0 tick, 2 reset; 3 to 6 are no calls but looks: at the last inputs of the left and the right chain, and at their last outputs
//   1       the mask; of a look, 1 to 6 are the chain's numbers
//   2 to 5  audio, feedback, mix, stages
//   6 to 8  frequency; the left and the right coefficient
//   9 to 11 mono, left, right
//   12      the phase after
ghost use Rattle.std.specs.Prelude.{◌≡◌, ◌↔◌, IsTrue};
ghost use Rattle.replay.specs.Stored.{IsPhaserStored, phaser_looked};

use crate::units::{is_three_samples, port};
use crate::words::Record;
use phaser::Phaser;

// The looks, as word 0 of a record has them. Numbers and no enum: they are the file's, and matched once, where they are read.
const LEFT_INPUTS: u64 = 3;

const RIGHT_INPUTS: u64 = 4;

const LEFT_OUTPUTS: u64 = 5;

const RIGHT_OUTPUTS: u64 = 6;

// The numbers that a record is a look at; none, where it is of a call. No `Option`: that none are to be held is true of no numbers, as the definition has it.
fn looked(p: &Phaser, code: u64) -> &[f64]
    ensures { result.now ≡ phaser_looked code p.now }
{
    match code {
        LEFT_INPUTS => &p.allpass_x1_l,
        RIGHT_INPUTS => &p.allpass_x1_r,
        LEFT_OUTPUTS => &p.allpass_y1_l,
        RIGHT_OUTPUTS => &p.allpass_y1_r,
        _ => &[],
    }
}

// Whether the phase, and the chain that a look is at, are what a record says of them.
pub fn is_stored(p: &Phaser, stored: &Record) -> bool
    ensures { IsTrue result ↔ IsPhaserStored p.now stored.now.bytes }
{
    stored.holds(12, p.lfo_phase) && stored.are_held(looked(p, stored.word(0)))
}

// A look makes no call.
pub fn tick_or_look(p: &mut Phaser, stored: &Record) -> bool {
    if !looked(p, stored.word(0)).is_empty() {
        return true;
    }
    let mask = stored.word(1);
    let ticked = p.tick(
        port(stored, mask, 1, 2),
        port(stored, mask, 2, 3),
        port(stored, mask, 4, 4),
        port(stored, mask, 8, 5),
        stored.float(6),
        stored.float(7),
        stored.float(8),
    );
    *p = ticked.state;
    is_three_samples(ticked.answer, stored, 9) && ticked.age == 0
}
