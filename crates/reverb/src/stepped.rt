// What the predelay, the combs of a side and its all-passes answer alike.
ghost use Rattle.std.specs.Prelude.{◌≤◌};

// What a step answers, and how many of the places that it writes, at most eight, are neither +0 nor -0: after it, and before it.
#[derive(Clone, Copy)]
pub struct Stepped {
    pub output: f64,
    pub gained: u32,
    pub lost: u32,
    ghost gained_few: { gained ≤ 8 },
    ghost lost_few: { lost ≤ 8 },
}
