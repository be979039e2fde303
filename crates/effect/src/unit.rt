// The calls of an effect that are no tick: start, retune, reset and "silent?". They are alike but for the effect's own tests and states, which it gives.
ghost use Rattle.std.specs.Prelude.{◌≡◌, List, [], true, Float, IfOk};
ghost use Rattle.std.specs.Bool.{then_some};
ghost use Rattle.port.specs.Answer.{number_of, outcome_reply, silence_reply};
ghost use Rattle.effect.specs.Effect.{Page, effect_of};
ghost use Rattle.effect.specs.Run.{retune, reset, ask, start_number, number_for, number_in};
ghost use Rattle.effect.specs.Contract.{Does, Starts};

use crate::{Cleared, check_memory, check_state, clear};
use port::Refusal;

// What an effect gives: its page, the states that a start and a reset leave, and its own tests, a few lines each. A trait below, of the six effects that are handed a
// rate alone, would ask of each its state at a rate, its rate, its places and two laws of its page, and give back three functions, or four: no fewer lines, and one trait more.
pub trait Unit: Copy {
    // What a start and a retune are handed: of most effects the rate.
    type Start: Copy;

    type Retune: Copy;

    // What is in force from one clearing to the next, and what a tick is handed, as the page has them.
    ghost InForce: { Type 0 };

    ghost Tick: { Type 0 };

    ghost page: { Page Self InForce Self.Start Self.Retune Tick };

    // The states that a refused start, an accepted one and a reset give.
    fn blank() -> Self
        ensures { result ≡ page.blank };

    fn started(handed: Self::Start) -> Self
        ensures { result ≡ page.fresh (page.start_settings handed) };

    fn restarted(self) -> Self
        ensures { result ≡ page.fresh (page.settings self) };

    // Causes 1, 2 and 3 of a start.
    fn start_refusal(handed: Self::Start, places: usize) -> Result<(), Refusal>
        ensures { number_of result ≡ start_number (effect_of page) handed places };

    // The state test: the places needed, where it passes.
    fn fitting_places(self) -> Option<u64>
        ensures { result ≡ then_some (page.state_fits self) (page.places (page.settings self)) };

    // Whether what the state keeps of the sound is +0 or -0.
    fn quiet(self) -> bool
        ensures { result ≡ page.quiet self };

    // How many places in use are neither +0 nor -0, as the state counts them.
    fn count(self) -> u32
        ensures { result ≡ page.count self };

    // Silent? Whether the state is quiet and counts none. It takes no memory: of a unit of a run the count is true, and a state that was handed in is not counted anew.
    fn silent(self) -> Result<bool, Refusal>
        ensures { (m : List Float) → Does (effect_of page) ask self m self m (silence_reply result) }
    {
        self.fitting_places().ok_or(Refusal::State)?;
        Ok(self.quiet() && self.count() == 0)
    }

    // The places needed, where state and memory pass their tests: causes 4 and 3.
    fn checked(self, places: usize) -> Result<u64, Refusal>
        ensures number { number_of result ≡ number_in (effect_of page) reset places self }
        ensures needed { IfOk result (λ n. n ≡ page.places (page.settings self)) }
    {
        let needed = self.fitting_places().ok_or(Refusal::State)?;
        check_memory(needed, places)?;
        Ok(needed)
    }
}

// An effect that is lent memory.
pub trait InMemory: Unit {
    fn retuned(self, handed: Self::Retune) -> Self
        ensures { result ≡ Self.page.retuned (Self.page.retune_settings handed (Self.page.settings self)) self };

    // Causes 1, 2 and 3 of a retune, of a state that passes its test.
    fn retune_refusal(self, handed: Self::Retune, places: usize) -> Result<(), Refusal>
        ensures { Self.page.state_fits self ≡ true
            → number_of result ≡ number_for (effect_of Self.page) (retune handed) places (Self.page.settings self) };

    // Start: a clearing with what it is handed. The state is settled first: after the clearing, a delay's start took 112 bytes of stack in place of 96.
    fn new(handed: Self::Start, mem: &mut [f64]) -> Cleared<Self>
        ensures { Starts (effect_of Self.page) handed mem.old result.state mem.new (outcome_reply result.outcome) }
    {
        let tested = Self::start_refusal(handed, mem.len());
        let cleared = Cleared::settled(tested, Self::started(handed), Self::blank());
        clear(tested, mem);
        cleared
    }

    // Retune: a clearing with other settings.
    fn set_sample_rate(self, handed: Self::Retune, mem: &mut [f64]) -> Cleared<Self>
        ensures { Does (effect_of Self.page) (retune handed) self mem.old result.state mem.new
            (outcome_reply result.outcome) }
    {
        let others = self.retune_refusal(handed, mem.len());
        let tested = check_state(self.fitting_places().is_some(), others);
        let cleared = Cleared::settled(tested, self.retuned(handed), self);
        clear(tested, mem);
        cleared
    }

    // Reset: a clearing with the settings in force.
    fn reset(self, mem: &mut [f64]) -> Cleared<Self>
        ensures { Does (effect_of Self.page) reset self mem.old result.state mem.new (outcome_reply result.outcome) }
    {
        let tested = self.checked(mem.len());
        let cleared = Cleared::settled(tested, self.restarted(), self);
        clear(tested, mem);
        cleared
    }
}

// An effect that is lent no memory.
pub trait WithoutMemory: Unit {
    // Start: a state with what it is handed.
    fn new(handed: Self::Start) -> Cleared<Self>
        ensures { Starts (effect_of Self.page) handed [] result.state [] (outcome_reply result.outcome) }
    {
        let tested = Self::start_refusal(handed, 0);
        Cleared::settled(tested, Self::started(handed), Self::blank())
    }

    // Reset: the state with the settings in force.
    fn reset(self) -> Cleared<Self>
        ensures { Does (effect_of Self.page) reset self [] result.state [] (outcome_reply result.outcome) }
    {
        let tested = self.checked(0);
        Cleared::settled(tested, self.restarted(), self)
    }
}
