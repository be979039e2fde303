// A tick: the numbers that it takes from its ports, its tests, and what it does to the state and the tank.
ghost use Rattle.std.specs.Prelude.{◌≡◌, ◌≤◌, true};
ghost use Rattle.std.proofs.Math.ListN as ListN;
ghost use Rattle.float64.specs.Number.{is_number};
ghost use Rattle.port.specs.Answer.{answer_reply};
ghost use Rattle.effect.specs.Run.{tick};
ghost use Rattle.effect.specs.Contract.{Does};
ghost use Rattle.reverb.specs.Tunings.{lengths_at};
ghost use Rattle.reverb.specs.Tank.{tank_size};
ghost use Rattle.reverb.specs.Reverb.{reverb, tick_of, controls_of, lent_state, SameParts, state_fits, Advances};

use crate::filters::{predelay_samples, process_predelay};
use crate::tank::{allpasses, combs, numbers_fit};
use crate::tunings::{Lengths, lengths_at};
use crate::{Lent, Reverb};
use effect::Ticked;
use port::{Answer, Port, Refusal};

// The numbers that a tick takes from its ports.
#[derive(Clone, Copy)]
pub struct Controls {
    pub audio: f64,
    pub size: f64,
    pub damping: f64,
    pub mix: f64,
    pub predelay: f64,
}

// The tick's ports taken apart: the number of each, or its default.
#[tactic(auto, unfolding(float64::proofs::Literals::of_bits, float64::proofs::Literals::round))]
pub fn controls_of(audio: Port, size: Port, damping: Port, mix: Port, predelay: Port) -> Controls
    ensures { result ≡ controls_of (tick_of audio size damping mix predelay) }
{
    let audio = if let Port::Set(x) = audio { x } else { 0.0 };
    let size = if let Port::Set(x) = size { x } else { 0.5 };
    let damping = if let Port::Set(x) = damping { x } else { 0.5 };
    let mix = if let Port::Set(x) = mix { x } else { 0.5 };
    let predelay = if let Port::Set(x) = predelay { x } else { 0.0 };
    Controls {
        audio,
        size,
        damping,
        mix,
        predelay,
    }
}

impl Lent<'_> {
    // An accepted tick. The predelay writes before it reads, every other line reads first.
    fn advance(&mut self, n: Lengths, mem: &mut [f64], c: Controls) -> Answer
        requires n_value { n ≡ lengths_at self.old.sample_rate }
        requires unit_fits { state_fits (lent_state self.old) ≡ true }
        requires tank_size_bound { tank_size ≤ ListN.length mem.old }
        requires predelay_is_number { is_number c.predelay ≡ true }
        ensures same { SameParts self.old self.new }
        ensures advances { Advances c (lent_state self.old) mem.old (lent_state self.new) mem.new (answer_reply result 0) }
    {
        let input = common::sanitize_audio(c.audio);
        let feedback = 0.28 + float64::clamp(c.size, 0.0, 1.0) * 0.7;
        let damping = float64::clamp(c.damping, 0.0, 1.0) * 0.4;
        let mix = float64::clamp(c.mix, 0.0, 1.0);
        let samples = predelay_samples(float64::clamp(c.predelay, 0.0, 1.0), self.sample_rate);
        let w = *self.predelay_pos;
        let line = &mut mem[Reverb::PREDELAY..Reverb::END];
        let delayed = process_predelay(line, w, samples, input);
        *self.predelay_pos = common::next_place(Reverb::MAX_PREDELAY_SIZE, w as usize);
        let sum_l = combs(
            self.comb_pos_l,
            self.comb_filter_state_l,
            n.comb_l,
            mem,
            0,
            delayed.output,
            feedback,
            damping,
        );
        let sum_r = combs(
            self.comb_pos_r,
            self.comb_filter_state_r,
            n.comb_r,
            mem,
            Reverb::COMBS_R,
            delayed.output,
            feedback,
            damping,
        );
        let wet_l = allpasses(
            self.allpass_pos_l,
            n.allpass_l,
            mem,
            Reverb::ALLPASSES_L,
            sum_l.output * 0.125,
        );
        let wet_r = allpasses(
            self.allpass_pos_r,
            n.allpass_r,
            mem,
            Reverb::ALLPASSES_R,
            sum_r.output * 0.125,
        );
        let gained = delayed.gained + sum_l.gained + sum_r.gained + wet_l.gained + wet_r.gained;
        let lost = delayed.lost + sum_l.lost + sum_r.lost + wet_l.lost + wet_r.lost;
        *self.nonzero_places = common::recount(n.used, *self.nonzero_places, gained, lost);
        let left = common::blend(input, wet_l.output, mix);
        let right = common::blend(input, wet_r.output, mix);
        Answer::Two(left, right)
    }

    // One sample. A tick that is refused leaves the state as it was.
    pub fn tick(
        &mut self,
        mem: &mut [f64],
        audio: Port,
        size: Port,
        damping: Port,
        mix: Port,
        predelay: Port,
    ) -> Answer
        ensures same { SameParts self.old self.new }
        ensures does { Does reverb (tick (tick_of audio size damping mix predelay)) (lent_state self.old) mem.old (lent_state self.new) mem.new
            (answer_reply result 0) }
    {
        let n = lengths_at(self.sample_rate);
        let fits = numbers_fit(
            self.comb_pos_l,
            self.comb_pos_r,
            self.allpass_pos_l,
            self.allpass_pos_r,
            *self.predelay_pos,
            *self.nonzero_places,
            n,
        );
        if !fits {
            return Answer::Refused(Refusal::State);
        }
        if let Err(cause) = effect::check_memory(Reverb::PLACES, mem.len()) {
            return Answer::Refused(cause);
        }
        let c = controls_of(audio, size, damping, mix, predelay);
        let causes = common::tick_causes(
            float64::is_nan(c.size)
                | (float64::is_nan(c.damping)
                    | (float64::is_nan(c.mix) | float64::is_nan(c.predelay))),
            true,
        );
        if let Err(cause) = causes {
            return Answer::Refused(cause);
        }
        self.advance(n, mem, c)
    }
}

impl Reverb {
    // One sample.
    pub fn tick(
        self,
        mem: &mut [f64],
        audio: Port,
        size: Port,
        damping: Port,
        mix: Port,
        predelay: Port,
    ) -> Ticked<Reverb>
        ensures { Does reverb (tick (tick_of audio size damping mix predelay)) self mem.old
            result.state mem.new (answer_reply result.answer result.age) }
    {
        let mut state = self;
        let mut lent = Lent {
            comb_pos_l: &mut state.comb_pos_l,
            comb_pos_r: &mut state.comb_pos_r,
            allpass_pos_l: &mut state.allpass_pos_l,
            allpass_pos_r: &mut state.allpass_pos_r,
            predelay_pos: &mut state.predelay_pos,
            nonzero_places: &mut state.nonzero_places,
            comb_filter_state_l: &mut state.comb_filter_state_l,
            comb_filter_state_r: &mut state.comb_filter_state_r,
            sample_rate: state.sample_rate,
        };
        let answer = lent.tick(mem, audio, size, damping, mix, predelay);
        Ticked {
            state,
            answer,
            age: 0,
        }
    }
}
