// One machine for all effects: its definitions are in specs/, its theorems in proofs/. The traits of unit.rt are the calls of every effect but its tick; the functions
// are the parts that calls share.
#![tactic(auto)]

ghost use Rattle.std.specs.Prelude.{◌≡◌, cond, length, Ok};
ghost use Rattle.std.specs.Result.{result_and};
ghost use Rattle.port.specs.declared.Answer.TheVariants.{Refused};
ghost use Rattle.port.specs.Answer.{number_of, answer_reply, reply_age};
ghost use Rattle.common.specs.Line.{zeros};
ghost use Rattle.effect.specs.Run.{if_none, memory_number};
ghost use Rattle.effect.specs.Needed.{rate_number};

mod unit;

use port::{Answer, Refusal};
pub use unit::{InMemory, Unit, WithoutMemory};

// What a start, a retune or a reset returns: the state beside its outcome. No `Result` of the state: a refused start leaves one too, which C writes.
#[derive(Clone, Copy)]
pub struct Cleared<S> {
    pub state: S,
    pub outcome: Result<(), Refusal>,
}

// What a tick returns: the state beside its answer, an enum that has the refusal, and beside that the largest age of its reads, 0 beside a refusal.
#[derive(Drop)]
pub struct Ticked<S> {
    pub state: S,
    pub answer: Answer,
    pub age: u32,
    ghost aged: { age ≡ reply_age (answer_reply answer age) },
}

impl<S: Copy> Cleared<S> {
    // By what the tests came to: the state `next`, or `kept`.
    pub fn settled<T: Copy>(tested: Result<T, Refusal>, next: S, kept: S) -> Cleared<S>
        ensures state { result.state ≡ if_none (number_of tested) next kept }
        ensures outcome { result.outcome ≡ result_and tested (Ok tt) }
    {
        Cleared {
            state: if tested.is_ok() { next } else { kept },
            outcome: tested.and(Ok(())),
        }
    }
}

impl<S> Ticked<S> {
    // What a refused tick returns: the state that it was handed.
    pub fn refused(state: S, cause: Refusal) -> Ticked<S>
        ensures state { result.state ≡ state }
        ensures answer { result.answer ≡ Refused cause }
    {
        Ticked {
            state,
            answer: Answer::Refused(cause),
            age: 0,
        }
    }
}

// Cause 3: the memory has fewer places than needed.
pub fn check_memory(needed: u64, places: usize) -> Result<(), Refusal>
    ensures { number_of result ≡ memory_number needed places }
{
    if (places as u64) < needed {
        return Err(Refusal::Memory);
    }
    Ok(())
}

// Causes 1 and 3: settings that need no count of places are refused.
pub fn check_rate(needed: Option<u64>, places: usize) -> Result<(), Refusal>
    ensures { number_of result ≡ rate_number needed places }
{
    check_memory(needed.ok_or(Refusal::SampleRate)?, places)
}

// Cause 4, which stands before every other: the state test, and then what else may refuse the call.
pub fn check_state(fits: bool, others: Result<(), Refusal>) -> Result<(), Refusal>
    ensures { number_of result ≡ cond fits (number_of others) 4 }
{
    if fits { others } else { Err(Refusal::State) }
}

// The memory of a start, a retune or a reset, by what its tests came to: +0 in every place, or left as it was.
pub fn clear<T: Copy>(tested: Result<T, Refusal>, mem: &mut [f64])
    ensures { mem.new ≡ if_none (number_of tested) (zeros (length mem.old)) mem.old }
{
    if tested.is_ok() {
        common::clear(mem);
    }
}
