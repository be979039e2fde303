// How long each line is: Freeverb's lengths at 44,100, scaled to the rate.
ghost use Rattle.std.specs.Prelude.{◌≡◌, ◌*◌, ◌≤◌, min, true, map};
ghost use Rattle.std.specs.List.{sum};
ghost use Rattle.std.proofs.Math.ListN as ListN;
ghost use Rattle.float64.specs.Number.{float_of, fraction, in_range};
ghost use Rattle.reverb.specs.Tunings.{comb_most, least_tuning, most_tuning, scaled, spread, beside, lengths_for, tuned, Capped};

use crate::Reverb;
use common::Sides;
use std::simd::prelude::*;

// The longest all-pass, for the rows of `lengths_at`.
const LONGEST: u16 = Reverb::MAX_ALLPASS_LENGTH;

// A side at a time, and how many places are in use: all of these lines', and the predelay's. Sixteen bits hold every length, and make the 24 of them four moves. The
// all-passes' of both sides lie apart: next to each other they were loaded as one word right after they had been stored as two, and a tick at a rate whose lengths are
// not at hand took 5 ns more.
#[derive(Clone, Copy)]
pub struct Lengths {
    pub comb_l: [u16; 8],
    pub allpass_l: [u16; 4],
    pub comb_r: [u16; 8],
    pub allpass_r: [u16; 4],
    pub used: u32,
}

// A tuning scaled to the rate: its whole part, at most `most`. Lengths are worked out in 32 bits, four at a time.
#[tactic(auto, using(crate::proofs::Scaling::scaled_cases), unfolding(crate::specs::Tunings::scaled))]
fn scaled(base: u32, ratio: f64, most: u32) -> u32
    requires least_tuning_le_base { least_tuning ≤ base }
    requires base_le_most_tuning { base ≤ most_tuning }
    requires ratio_in_range { in_range ratio (fraction 1 8) (float_of 5) ≡ true }
    ensures { result ≡ scaled most ratio base }
{
    let n = float64::whole_part_small(f64::from(base) * ratio) as u32;
    if n < most { n } else { most }
}

// The spread: at least 1. No length is more than a comb's, so that a spread beyond that is as good as that.
#[tactic(auto, unfolding(crate::specs::Tunings::spread, float64::proofs::Literals::of_bits, float64::proofs::Literals::of_int))]
fn stereo_spread(ratio: f64) -> u32
    ensures { result ≡ min (spread ratio) comb_most }
{
    let n = float64::round_half_away(Reverb::STEREO_SPREAD * ratio);
    if n < 1 {
        return 1;
    }
    if n < Reverb::MAX_COMB_LENGTH as u64 {
        n as u32
    } else {
        Reverb::MAX_COMB_LENGTH as u32
    }
}

// A left length plus the spread, at most `most`.
#[tactic(auto, unfolding(crate::specs::Tunings::beside))]
fn beside(n: u32, wide: u32, most: u32) -> u32
    requires n_le_comb_most { n ≤ comb_most }
    requires wide_le_comb_most { wide ≤ comb_most }
    ensures { result ≡ beside most wide n }
{
    let sum = n + wide;
    if sum < most { sum } else { most }
}

// The left and right lengths of the lines with these tunings.
#[tactic(auto, unfolding(crate::specs::Tunings::scaled, crate::specs::Tunings::beside))]
fn scale<const N: usize>(tunings: [u32; N], ratio: f64, wide: u32, most: u16) -> Sides<[u16; N]>
    requires all_tuned { tuned tunings ≡ true }
    requires ratio_in_range { in_range ratio (fraction 1 8) (float_of 5) ≡ true }
    requires wide_le_comb_most { wide ≤ comb_most }
    requires most_le_comb_most { most ≤ comb_most }
    ensures left { result.left ≡ map (scaled most ratio) tunings.entry }
    ensures right { result.right ≡ map (λ base. beside most wide (scaled most ratio base)) tunings.entry }
{
    // Both sides in one go: by a `map` for each, every tuning would be scaled twice.
    let mut left = [0; N];
    let mut right = [0; N];
    for (i, base) in tunings.iter().enumerate() {
        let n = scaled(*base, ratio, most as u32);
        left[i] = n as u16;
        right[i] = beside(n, wide, most as u32) as u16;
    }
    Sides { left, right }
}

// How many places lines with these lengths have. 16 bits hold them, so that one vector does; one by one, a tick at 50,000 took 45 instructions more.
fn total<const N: usize>(lengths: &[u16; N]) -> u32
    requires few { N ≤ 8 }
    requires capped { Capped comb_most lengths.now }
    ensures value { result ≡ sum lengths.now }
    ensures most { result ≤ N * comb_most }
{
    u32::from(Simd::from_array(*lengths).strict_reduce_sum())
}

// Every line's length, worked out. A refused rate gives 0 for each, and no `None`: the state test, which asks every position, then refuses it with no test more.
pub fn scaled_lengths(rate: f64) -> Lengths
    ensures { result ≡ lengths_for rate }
{
    if !float64::rate_fits(rate) {
        return Lengths {
            comb_l: [0; 8],
            allpass_l: [0; 4],
            comb_r: [0; 8],
            allpass_r: [0; 4],
            used: 0,
        };
    }
    let ratio = rate / 44100.0;
    let wide = stereo_spread(ratio);
    let Sides {
        left: comb_l,
        right: comb_r,
    } = scale(
        Reverb::COMB_TUNINGS_44100,
        ratio,
        wide,
        Reverb::MAX_COMB_LENGTH,
    );
    let Sides {
        left: allpass_l,
        right: allpass_r,
    } = scale(
        Reverb::ALLPASS_TUNINGS_44100,
        ratio,
        wide,
        Reverb::MAX_ALLPASS_LENGTH,
    );
    let used = total(&comb_l) + total(&comb_r) + total(&allpass_l) + total(&allpass_r);
    Lengths {
        comb_l,
        allpass_l,
        comb_r,
        allpass_r,
        used: used + Reverb::MAX_PREDELAY_SIZE as u32,
    }
}

// Every line's length, for a tick. The usual rates have theirs in a table: to work them out takes half as long as the tick itself.
pub fn lengths_at(rate: f64) -> Lengths
    ensures { result ≡ lengths_for rate }
{
    if rate == 48000.0 {
        return Lengths {
            comb_l: [1214, 1293, 1389, 1475, 1547, 1622, 1694, 1760],
            allpass_l: [605, 480, 371, 244],
            comb_r: [1239, 1318, 1414, 1500, 1572, 1647, 1719, 1785],
            allpass_r: [630, 505, 396, 269],
            used: 37288,
        };
    }
    if rate == 44100.0 {
        return Lengths {
            comb_l: [1116, 1188, 1277, 1356, 1422, 1491, 1557, 1617],
            allpass_l: [556, 441, 341, 225],
            comb_r: [1139, 1211, 1300, 1379, 1445, 1514, 1580, 1640],
            allpass_r: [579, 464, 364, 248],
            used: 35050,
        };
    }
    if rate == 96000.0 {
        return Lengths {
            comb_l: [2429, 2586, 2779, 2951, 3095, 3245, 3389, 3520],
            allpass_l: [1210, 960, 742, 489],
            comb_r: [2479, 2636, 2829, 3001, 3145, 3295, 3439, 3570],
            allpass_r: [1260, 1010, 792, 539],
            used: 64990,
        };
    }
    if rate == 88200.0 {
        return Lengths {
            comb_l: [2232, 2376, 2554, 2712, 2844, 2982, 3114, 3234],
            allpass_l: [1112, 882, 682, 450],
            comb_r: [2278, 2422, 2600, 2758, 2890, 3028, 3160, 3280],
            allpass_r: [1158, 928, 728, 496],
            used: 60500,
        };
    }
    if rate == 192000.0 {
        return Lengths {
            comb_l: [Reverb::MAX_COMB_LENGTH; 8],
            allpass_l: [LONGEST, LONGEST, 1484, 979],
            comb_r: [Reverb::MAX_COMB_LENGTH; 8],
            allpass_r: [LONGEST, LONGEST, LONGEST, 1079],
            used: 86157,
        };
    }
    if rate == 176400.0 {
        return Lengths {
            comb_l: [Reverb::MAX_COMB_LENGTH; 8],
            allpass_l: [LONGEST, LONGEST, 1364, 900],
            comb_r: [Reverb::MAX_COMB_LENGTH; 8],
            allpass_r: [LONGEST, LONGEST, 1456, 992],
            used: 85828,
        };
    }
    scaled_lengths(rate)
}
