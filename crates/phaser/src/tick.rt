// A tick: the numbers that it takes from its ports, its tests, and what it does to the chains and the phase.
ghost use Rattle.std.specs.Prelude.{◌≡◌, ◌≤◌, []};
ghost use Rattle.port.specs.declared.Port.TheVariants.{Set};
ghost use Rattle.port.specs.Answer.{answer_reply};
ghost use Rattle.effect.specs.Run.{tick};
ghost use Rattle.effect.specs.Contract.{Does};
ghost use Rattle.phaser.specs.Phaser.{phaser, tick_of, lent_state, SameParts, Advances};

use crate::allpass::{Chain, Chains};
use crate::stages::Stages;
use crate::{Lent, Phaser};
use common::Sides;
use effect::Ticked;
use port::{Answer, Port, Refusal};

impl Lent<'_> {
    // An accepted tick, with the numbers that it takes from its ports.
    #[tactic(auto, unfolding(crate::specs::Phaser::next, crate::specs::Phaser::samples, crate::specs::Phaser::chain_after, float64::proofs::Literals::neg, float64::proofs::Literals::of_bits, float64::proofs::Literals::of_int, float64::proofs::Literals::round))]
    fn advance(
        &mut self,
        audio: f64,
        feedback: f64,
        mix: f64,
        stages: f64,
        frequency: f64,
        coef: Sides<f64>,
    ) -> Answer
        ensures same { SameParts self.old self.new }
        ensures advances { Advances (tick_of (Set audio) (Set feedback) (Set mix) (Set stages) frequency coef.left coef.right)
            (lent_state self.old) (lent_state self.new) (answer_reply result 0) }
    {
        let input = common::sanitize_audio(audio);
        let back = float64::clamp(feedback, -0.95, 0.95);
        let share = float64::clamp(mix, 0.0, 1.0);
        let wet = self.chains.run(Stages::at(stages), coef, input, back);
        *self.lfo_phase = common::advance_phase(*self.lfo_phase, frequency / self.sample_rate);
        let left = common::blend(input, wet.left, share);
        let right = common::blend(input, wet.right, share);
        Answer::Three(left, left, right)
    }

    // One sample. A tick that is refused leaves the state as it was. Frequency and coefficients are the host's curve numbers.
    #[tactic(auto, unfolding(crate::specs::Phaser::state_fits))]
    pub fn tick(
        &mut self,
        audio: Port,
        feedback: Port,
        mix: Port,
        stages: Port,
        frequency: f64,
        coef_l: f64,
        coef_r: f64,
    ) -> Answer
        ensures same { SameParts self.old self.new }
        ensures does { Does phaser (tick (tick_of audio feedback mix stages frequency coef_l coef_r)) (lent_state self.old) [] (lent_state self.new) [] (answer_reply result 0) }
    {
        if !Phaser::fits(self.sample_rate, *self.lfo_phase) {
            return Answer::Refused(Refusal::State);
        }
        let audio = if let Port::Set(x) = audio { x } else { 0.0 };
        let feedback = if let Port::Set(x) = feedback { x } else { 0.0 };
        let mix = if let Port::Set(x) = mix { x } else { 0.5 };
        let stages = if let Port::Set(x) = stages { x } else { 1.0 };
        let causes = common::tick_causes(
            float64::is_nan(feedback) | (float64::is_nan(mix) | float64::is_nan(stages)),
            float64::frequency_fits(frequency)
                & (float64::allpass_fits(coef_l) & float64::allpass_fits(coef_r)),
        );
        if let Err(cause) = causes {
            return Answer::Refused(cause);
        }
        let coef = Sides {
            left: coef_l,
            right: coef_r,
        };
        self.advance(audio, feedback, mix, stages, frequency, coef)
    }
}

impl Phaser {
    // One sample.
    pub fn tick(
        mut self,
        audio: Port,
        feedback: Port,
        mix: Port,
        stages: Port,
        frequency: f64,
        coef_l: f64,
        coef_r: f64,
    ) -> Ticked<Phaser>
        ensures { Does phaser (tick (tick_of audio feedback mix stages frequency coef_l coef_r)) self [] result.state [] (answer_reply result.answer result.age) }
    {
        let mut lent = Lent {
            chains: Chains {
                left: Chain {
                    x1: &mut self.allpass_x1_l,
                    y1: &mut self.allpass_y1_l,
                },
                right: Chain {
                    x1: &mut self.allpass_x1_r,
                    y1: &mut self.allpass_y1_r,
                },
            },
            lfo_phase: &mut self.lfo_phase,
            sample_rate: self.sample_rate,
        };
        let answer = lent.tick(audio, feedback, mix, stages, frequency, coef_l, coef_r);
        Ticked {
            state: self,
            answer,
            age: 0,
        }
    }
}
