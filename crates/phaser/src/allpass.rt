// First-order all-passes, one after the other: a chain, of which the first stages run.
ghost use Rattle.std.specs.Prelude.{◌≡◌, ◌+◌, ◌<◌};
ghost use Rattle.phaser.specs.Allpass.{allpassed, stage, passed};
ghost use Rattle.phaser.specs.Phaser.{max_stages, carrying, SameChains, count, fed};

use crate::stages::Stages;
use common::Sides;

// What one all-pass puts out. Its magnitude is flat: only the phase turns.
#[tactic(auto, unfolding(crate::specs::Allpass::allpassed))]
fn allpass(input: f64, x1: f64, y1: f64, coef: f64) -> f64
    ensures { result ≡ allpassed coef input x1 y1 }
{
    coef * input + x1 - coef * y1
}

// A side's chain, lent: of each all-pass its last input x1 and its last output y1.
#[derive(Drop)]
pub struct Chain<'a> {
    pub x1: &'a mut [f64; 6],
    pub y1: &'a mut [f64; 6],
}

// The chains of both sides.
#[derive(Drop)]
pub struct Chains<'a> {
    pub left: Chain<'a>,
    pub right: Chain<'a>,
}

impl Chains<'_> {
    // A signal on each side through stage i of its chain, which holds on to what went in and what came out.
    // Both sides in one function: so the compiler does two operations at a time, and with a function of one side a tick took 187 instructions in place of 179.
    #[tactic(auto, unfolding(crate::specs::Allpass::stage))]
    fn stage(&mut self, i: usize, coef: Sides<f64>, input: Sides<f64>) -> Sides<f64>
        requires { i < max_stages }
        ensures same { SameChains self.old self.new }
        ensures left { carrying self.new.left result.left ≡ stage coef.left i (carrying self.old.left input.left) }
        ensures right { carrying self.new.right result.right ≡ stage coef.right i (carrying self.old.right input.right) }
    {
        let left = allpass(input.left, self.left.x1[i], self.left.y1[i], coef.left);
        let right = allpass(input.right, self.right.x1[i], self.right.y1[i], coef.right);
        self.left.x1[i] = input.left;
        self.right.x1[i] = input.right;
        self.left.y1[i] = left;
        self.right.y1[i] = right;
        Sides { left, right }
    }

    // Through stage i and the next one.
    fn two_stages(&mut self, i: usize, coef: Sides<f64>, input: Sides<f64>) -> Sides<f64>
        requires { i + 1 < max_stages }
        ensures same { SameChains self.old self.new }
        ensures left { carrying self.new.left result.left ≡ stage coef.left (i + 1) (stage coef.left i (carrying self.old.left input.left)) }
        ensures right { carrying self.new.right result.right ≡ stage coef.right (i + 1) (stage coef.right i (carrying self.old.right input.right)) }
    {
        let first = self.stage(i, coef, input);
        self.stage(i + 1, coef, first)
    }

    // Through the first two, four or six. Written out: in a loop a tick took 28 instructions more.
    #[tactic(auto, unfolding(crate::specs::Allpass::passed))]
    fn pass(&mut self, stages: Stages, coef: Sides<f64>, input: Sides<f64>) -> Sides<f64>
        ensures same { SameChains self.old self.new }
        ensures left { carrying self.new.left result.left ≡ passed coef.left (count stages) (carrying self.old.left input.left) }
        ensures right { carrying self.new.right result.right ≡ passed coef.right (count stages) (carrying self.old.right input.right) }
    {
        let second = self.two_stages(0, coef, input);
        if stages == Stages::Two {
            return second;
        }
        let fourth = self.two_stages(2, coef, second);
        if stages == Stages::Four {
            return fourth;
        }
        self.two_stages(4, coef, fourth)
    }

    // What the chains put out. Into each goes the input, with what the last stage that runs put out before times the feedback.
    #[tactic(auto, unfolding(crate::specs::Phaser::fed))]
    pub fn run(&mut self, stages: Stages, coef: Sides<f64>, input: f64, feedback: f64) -> Sides<f64>
        ensures same { SameChains self.old self.new }
        ensures left { carrying self.new.left result.left
            ≡ passed coef.left (count stages) (carrying self.old.left (fed input feedback (count stages) self.old.left.y1.now)) }
        ensures right { carrying self.new.right result.right
            ≡ passed coef.right (count stages) (carrying self.old.right (fed input feedback (count stages) self.old.right.y1.now)) }
    {
        let last = stages.count() - 1;
        let entering = Sides {
            left: input + self.left.y1[last] * feedback,
            right: input + self.right.y1[last] * feedback,
        };
        self.pass(stages, coef, entering)
    }
}
