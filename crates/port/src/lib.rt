// What goes into a call and what comes out of it: ports, refusals, answers.
#![tactic(auto)]

ghost use Rattle.std.specs.Prelude.{ℕ, ◌≡◌};
ghost use Rattle.port.specs.Port.{port_if};
ghost use Rattle.port.specs.Answer.{number, number_of, answer_reply, silence_reply, reply_number, reply_sample, reply_silent};

// An input port: it carries a number or is unset. An enum of its own and no `Option<f64>`, as document 01 names the two cases.
#[derive(Clone, Copy)]
pub enum Port {
    Set(f64),
    Unset,
}

// Why a call is refused: a case for each cause of the table. `Result<(), Refusal>` is what start, retune and reset answer, `Result<bool, Refusal>` the question
// "silent?".
#[derive(Clone, Copy, Debug, PartialEq, Eq)]
pub enum Refusal {
    SampleRate,
    GlideCoefficient,
    Memory,
    State,
    Control,
    Curve,
    Turn,
}

// What a tick answers, in one enum, as document 01 asks: one sample (delay, vibrato, tremolo; either half of a tape delay), two (reverb: left, right), three (chorus, flanger, phaser: mono, left, right), or a refusal.
#[derive(Clone, Copy)]
pub enum Answer {
    One(f64),
    Two(f64, f64),
    Three(f64, f64, f64),
    Refused(Refusal),
}

// A port from a number and whether it is set.
pub fn port_if(on: bool, x: f64) -> Port
    ensures { result ≡ port_if on x }
{
    if on { Port::Set(x) } else { Port::Unset }
}

impl From<Refusal> for u32 {
    // The number that the table gives to the cause.
    ghost from_gives = { λ cause n. n ≡ number cause };

    fn from(cause: Refusal) -> u32 {
        match cause {
            Refusal::SampleRate => 1,
            Refusal::GlideCoefficient => 2,
            Refusal::Memory => 3,
            Refusal::State => 4,
            Refusal::Control => 5,
            Refusal::Curve => 6,
            Refusal::Turn => 7,
        }
    }
}

// The table's number of what a clearing or the question answers, 0 for none.
pub fn number_of<T: Copy>(answer: Result<T, Refusal>) -> u32
    ensures { result ≡ number_of answer }
{
    match answer {
        Ok(_) => 0,
        Err(cause) => u32::from(cause),
    }
}

// 1 where the question is answered yes, else 0.
pub fn silent_flag(silence: Result<bool, Refusal>) -> u32
    ensures { result ≡ reply_silent (silence_reply silence) }
{
    match silence {
        Ok(silent) => u32::from(silent),
        Err(_) => 0,
    }
}

impl Answer {
    // The table's number, 0 for none. Beside `number_of`, which is of a `Result`: a tick's answer is an enum of its own, as said there.
    pub fn number(self) -> u32
        ensures { (age : ℕ) → result ≡ reply_number (answer_reply self age) }
    {
        match self {
            Answer::One(_) => 0,
            Answer::Two(_, _) => 0,
            Answer::Three(_, _, _) => 0,
            Answer::Refused(cause) => u32::from(cause),
        }
    }

    // The first sample, +0 on a refusal.
    pub fn first(self) -> f64
        ensures { (age : ℕ) → result ≡ reply_sample 0 (answer_reply self age) }
    {
        match self {
            Answer::One(x) => x,
            Answer::Two(x, _) => x,
            Answer::Three(x, _, _) => x,
            Answer::Refused(_) => 0.0,
        }
    }

    // The second sample, +0 where there is none.
    pub fn second(self) -> f64
        ensures { (age : ℕ) → result ≡ reply_sample 1 (answer_reply self age) }
    {
        match self {
            Answer::One(_) => 0.0,
            Answer::Two(_, y) => y,
            Answer::Three(_, y, _) => y,
            Answer::Refused(_cause) => 0.0,
        }
    }

    // The third sample, +0 where there is none.
    pub fn third(self) -> f64
        ensures { (age : ℕ) → result ≡ reply_sample 2 (answer_reply self age) }
    {
        match self {
            Answer::One(_) => 0.0,
            Answer::Two(_, _) => 0.0,
            Answer::Three(_, _, z) => z,
            Answer::Refused(_cause) => 0.0,
        }
    }
}
