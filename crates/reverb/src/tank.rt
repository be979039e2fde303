// The tank: eight left combs, eight right, four left all-passes, four right, and the predelay, in one lent memory; their tests, and a step of its lines.
ghost use Rattle.std.specs.Prelude.{◌≡◌, ◌+◌, ◌*◌, ◌<◌, ◌≤◌, ◌&&◌, nat_le, true};
ghost use Rattle.std.proofs.Math.ListN as ListN;
ghost use Rattle.common.specs.Line.{next_place, table, nonzeros};
ghost use Rattle.reverb.specs.Tunings.{comb_size, comb_most, allpass_size, allpass_most};
ghost use Rattle.reverb.specs.Tank.{comb_lines, allpass_lines, all_below, positions_fit, InLines, CombsStep, AllpassesStep};

use crate::Reverb;
use crate::filters::{process_allpass, process_comb};
use crate::stepped::Stepped;
use crate::tunings::Lengths;
use std::simd::prelude::*;

// Whether each position is below its line's length. No branch at each: a tick asks this of 24 lines.
fn all_below<const N: usize>(positions: &[u32; N], lengths: [u16; N]) -> bool
    ensures { result ≡ all_below positions.now lengths.entry }
{
    positions
        .iter()
        .zip(&lengths)
        .fold(true, |below, (w, n)| below & (*w < u32::from(*n)))
}

// Whether every position is in its line, and no more places are counted than are in use. Six arguments and no struct: a state by value hands its own, and a lent one
// what it borrows.
pub fn numbers_fit(
    comb_l: &[u32; 8],
    comb_r: &[u32; 8],
    allpass_l: &[u32; 4],
    allpass_r: &[u32; 4],
    predelay: u32,
    count: u32,
    n: Lengths,
) -> bool
    ensures { result ≡ positions_fit comb_l.now comb_r.now allpass_l.now
        allpass_r.now predelay n && nat_le count n.used }
{
    let left = all_below(comb_l, n.comb_l) & all_below(allpass_l, n.allpass_l);
    let right = all_below(comb_r, n.comb_r) & all_below(allpass_r, n.allpass_r);
    ((predelay < Reverb::MAX_PREDELAY_SIZE as u32) & (left & right)) & (count <= n.used)
}

// The position after w in a line of n places. It is `common::next_place` in 32 bits, so that four are found at a time.
fn next_pos(n: u16, w: u32) -> u32
    requires { w < n }
    ensures { result ≡ next_place n w }
{
    let next = w + 1;
    if next == u32::from(n) { 0 } else { next }
}

// Each position goes on by one.
fn move_on<const N: usize>(pos: &mut [u32; N], lengths: [u16; N])
    requires inside { all_below pos.old lengths ≡ true }
    ensures { pos.new ≡ table (λ i. next_place (ListN.get_or lengths.entry i 0) (ListN.get_or pos.old i 0)) N }
{
    for i in 0..N {
        pos[i] = next_pos(lengths[i], pos[i]);
    }
}

// How many of these numbers are neither +0 nor -0. On vectors: by `common::nonzero` of each, a tick took some 110 instructions more.
fn nonzeros<const N: usize>(numbers: &[f64; N]) -> u32
    requires { N ≤ 64 }
    ensures value { result ≡ nonzeros numbers.now }
    ensures most { result ≤ N }
{
    let sounds = Simd::from_array(*numbers).simd_ne(Simd::splat(0.0));
    sounds.to_bitmask().count_ones()
}

// The eight combs of a side, the first from place o of the tank on, with the same input: they move the lent positions and stores, and answer their sum. What their places
// held and got is counted at the end, eight at a time, and the positions move on then, four at a time: counted one by one, with each line's position in the loop, a tick took
// 839 instructions in place of 726. A part that ends with the tank needs one test of where it is used, one that is cut to its line's length two.
// Called for two sides, it would not be put in line.
#[inline(always)]
pub fn combs(
    pos: &mut [u32; 8],
    filter_state: &mut [f64; 8],
    lengths: [u16; 8],
    mem: &mut [f64],
    o: usize,
    input: f64,
    feedback: f64,
    damping: f64,
) -> Stepped
    requires in_lines { InLines 8 comb_most (comb_lines o pos.old lengths) }
    requires room { o + 8 * comb_size ≤ ListN.length mem.old }
    ensures { CombsStep input damping feedback (comb_lines o pos.old lengths) filter_state.old mem.old pos.new filter_state.new mem.new result }
{
    let mut held = [0.0; 8];
    let mut fed = [0.0; 8];
    let mut sum = 0.0;
    // By index: a zip of positions, stores, lengths and the tank's chunks from o on would take four names apart, and still cut each line to its length.
    for i in 0..8 {
        let line = &mut mem[o + i * Reverb::MAX_COMB_SIZE..];
        let c = process_comb(line, pos[i], filter_state[i], input, feedback, damping);
        filter_state[i] = c.filter_state;
        held[i] = c.output;
        fed[i] = c.fed;
        sum = sum + c.output;
    }
    move_on(pos, lengths);
    Stepped {
        output: sum,
        gained: nonzeros(&fed),
        lost: nonzeros(&held),
    }
}

// The four all-passes of a side, the first from place o of the tank on, one after the other: they move the lent positions, and answer what comes out of the last.
#[inline(always)]
pub fn allpasses(
    pos: &mut [u32; 4],
    lengths: [u16; 4],
    mem: &mut [f64],
    o: usize,
    input: f64,
) -> Stepped
    requires in_lines { InLines 4 allpass_most (allpass_lines o pos.old lengths) }
    requires room { o + 4 * allpass_size ≤ ListN.length mem.old }
    ensures { AllpassesStep input (allpass_lines o pos.old lengths) mem.old pos.new mem.new result }
{
    let mut held = [0.0; 4];
    let mut fed = [0.0; 4];
    let mut output = input;
    // By index, as the combs are.
    for i in 0..4 {
        let line = &mut mem[o + i * Reverb::MAX_ALLPASS_SIZE..];
        let p = process_allpass(line, pos[i], output);
        held[i] = p.held;
        fed[i] = p.fed;
        output = p.output;
    }
    move_on(pos, lengths);
    Stepped {
        output,
        gained: nonzeros(&fed),
        lost: nonzeros(&held),
    }
}
