// The reverb's records. A record's 17 words:
//   0       the call: 0 tick, 1 retune, 2 reset; 3 and 4 are no calls but looks at the left and the right damping stores
//   1       the mask; of a look, 1 to 8 are the stores
//   2 to 6  audio, size, damping, mix, predelay; of a retune, 6 is the new rate
//   7, 8    left and right
//   9 to 15 the positions after, four in a word, 16 bits each, the first lowest: left combs, right combs, left all-passes, right ones; the predelay's
//   16      the count after
ghost use Rattle.std.specs.Prelude.{◌≡◌, ◌↔◌, IsTrue};
ghost use Rattle.replay.specs.Stored.{AreReverbPositions, IsReverbStored, eight_from, reverb_looked, unpacked};

use crate::units::{is_one_sample, port};
use crate::words::Record;
use reverb::Reverb;

// The looks, as word 0 of a record has them. Numbers and no enum: they are the file's, and matched once, where they are read.
const LEFT_STORES: u64 = 3;

const RIGHT_STORES: u64 = 4;

// The four positions in a word.
fn unpacked(packed: u64) -> [u32; 4]
    ensures { result ≡ unpacked packed }
{
    [
        (packed & 0xffff) as u32,
        (packed >> 16 & 0xffff) as u32,
        (packed >> 32 & 0xffff) as u32,
        (packed >> 48) as u32,
    ]
}

fn are_four_stored(positions: &[u32], packed: u64) -> bool
    ensures { IsTrue result ↔ (positions.now ≡ unpacked packed) }
{
    positions == unpacked(packed).as_slice()
}

// Whether eight positions are those packed from word i on; i is a byte, so that i + 1 is a number of a word too.
fn are_eight_stored(positions: &[u32; 8], stored: &Record, i: u8) -> bool
    ensures { IsTrue result ↔ (positions.now ≡ eight_from stored.now.bytes i) }
{
    let at = usize::from(i);
    are_four_stored(&positions[..4], stored.word(at))
        && are_four_stored(&positions[4..], stored.word(at + 1))
}

// The numbers that a record is a look at; none, where it is of a call. No `Option`: that none are to be held is true of no numbers, as the definition has it.
fn looked(r: &Reverb, code: u64) -> &[f64]
    ensures { result.now ≡ reverb_looked code r.now }
{
    match code {
        LEFT_STORES => &r.comb_filter_state_l,
        RIGHT_STORES => &r.comb_filter_state_r,
        _ => &[],
    }
}

fn are_positions_stored(r: &Reverb, stored: &Record) -> bool
    ensures { IsTrue result ↔ AreReverbPositions r.now stored.now.bytes }
{
    are_eight_stored(&r.comb_pos_l, stored, 9)
        && are_eight_stored(&r.comb_pos_r, stored, 11)
        && r.allpass_pos_l == unpacked(stored.word(13))
        && r.allpass_pos_r == unpacked(stored.word(14))
        && u64::from(r.predelay_pos) == stored.word(15)
}

// Whether the positions, the count, and the damping stores that a look is at, are what a record says of them.
pub fn is_stored(r: &Reverb, stored: &Record) -> bool
    ensures { IsTrue result ↔ IsReverbStored r.now stored.now.bytes }
{
    are_positions_stored(r, stored)
        && u64::from(r.nonzero_places) == stored.word(16)
        && stored.are_held(looked(r, stored.word(0)))
}

// A look makes no call.
pub fn tick_or_look(r: &mut Reverb, mem: &mut [f64], stored: &Record) -> bool {
    if !looked(r, stored.word(0)).is_empty() {
        return true;
    }
    let mask = stored.word(1);
    let ticked = r.tick(
        mem,
        port(stored, mask, 1, 2),
        port(stored, mask, 2, 3),
        port(stored, mask, 4, 4),
        port(stored, mask, 8, 5),
        port(stored, mask, 16, 6),
    );
    *r = ticked.state;
    is_one_sample(ticked.answer, stored, 7)
        && stored.holds(8, ticked.answer.second())
        && ticked.age == 0
}
