// The tape delay's records. A record's 14 words:
//   0       the call: 0 tick, 1 retune, 2 reset. A tick is replayed by both halves
//   1       the mask
//   2 to 5  audio, time, feedback, mix; of a retune, 5 is the new rate
//   6       the saturated value; of a retune, the new glide coefficient
//   7       a fifth of the sum
//   8       the sample
//   9 to 11 the position, the glide distance and whether it is primed after
//   12      the age
//   13      the count after
// The start's five words are 8, the rate, the places needed, the glide coefficient, and the position at the first tick.
ghost use Rattle.std.specs.Prelude.{◌≡◌, ◌↔◌, IsTrue};
ghost use Rattle.replay.specs.Stored.{IsNoneKept, IsTapeStored};

use crate::units::{is_of_age, is_one_sample, port};
use crate::words::{Record, same};
use delay_line::Kept;
use effect::InMemory;
use tape_delay::{Settings, TapeDelay};

// The unit that a file's start leaves, at the position of its first tick: the end of the line is further from the first place than a file's ticks go. A position that
// 32 bits do not hold becomes one that every call refuses.
pub fn started(start: &Record, mem: &mut [f64]) -> TapeDelay {
    let handed = Settings {
        rate: start.float(1),
        coefficient: start.float(3),
    };
    TapeDelay {
        write_pos: u32::try_from(start.word(4)).unwrap_or(u32::MAX),
        ..TapeDelay::new(handed, mem).state
    }
}

// What a retune is handed.
pub fn retuning(stored: &Record) -> Settings {
    Settings {
        rate: stored.float(5),
        coefficient: stored.float(6),
    }
}

fn is_none_kept(kept: Kept) -> bool
    ensures { IsTrue result ↔ IsNoneKept kept }
{
    same(kept.audio, 0.0) && same(kept.read, 0.0) && same(kept.mix, 0.0)
}

// Whether position, glide and count are what a record says of them, and no read waits.
pub fn is_stored(t: &TapeDelay, stored: &Record) -> bool
    ensures { IsTrue result ↔ IsTapeStored t.now stored.now.bytes }
{
    u64::from(t.write_pos) == stored.word(9)
        && stored.holds(10, t.smoothed_delay)
        && t.delay_primed == (stored.word(11) == 1)
        && u64::from(t.nonzero_places) == stored.word(13)
        && !t.waiting
        && is_none_kept(t.kept)
}

// Both halves. The Rust shows no more of the sum than its fifth.
pub fn tick(t: &mut TapeDelay, mem: &mut [f64], stored: &Record) -> bool {
    let mask = stored.word(1);
    let read = t.read_half(
        mem,
        port(stored, mask, 1, 2),
        port(stored, mask, 2, 3),
        port(stored, mask, 4, 4),
        port(stored, mask, 8, 5),
    );
    let ticked = read.state.store_half(mem, stored.float(6));
    *t = ticked.state;
    is_of_age(read.answer, read.age, stored, 12)
        && stored.holds(7, read.answer.first() / 5.0)
        && is_one_sample(ticked.answer, stored, 8)
        && ticked.age == 0
}
