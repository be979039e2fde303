// How many stages of each chain run.
ghost use Rattle.std.specs.Prelude.{◌≡◌};
ghost use Rattle.float64.specs.Number.{plus_zero, float_of, clamp_of};
ghost use Rattle.phaser.specs.Phaser.{stages_at, count};

#[derive(Clone, Copy, PartialEq, Eq)]
pub enum Stages {
    Two = 2,
    Four = 4,
    Six = 6,
}

impl Stages {
    // By the control. A clamp to 0 to 1 before, as the Rust's, would move no control over either threshold.
    #[tactic(auto, using(crate::proofs::Laws::stages_cases), unfolding(crate::specs::Phaser::stages_at, float64::proofs::Literals::of_bits, float64::proofs::Literals::round))]
    pub fn at(control: f64) -> Stages
        ensures { count result ≡ stages_at (clamp_of control plus_zero (float_of 1)) }
    {
        if control < 0.33 {
            Stages::Two
        } else if control < 0.66 {
            Stages::Four
        } else {
            Stages::Six
        }
    }

    pub fn count(self) -> usize
        ensures { result ≡ count self }
    {
        self as usize
    }
}
