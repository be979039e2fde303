// What the calls of several effects share.
ghost use Rattle.std.specs.Prelude.{ℕ, ◌≤◌, ◌≡◌};
ghost use Rattle.port.specs.Answer.{answer_reply};
ghost use Rattle.room_effects.specs.Lent.{samples_from};
ghost use Rattle.room_effects.specs.Ports.{port_at};

use port::{Answer, Port, port_if};

// The port that the mask's bit of that weight says is set.
pub fn port_at(set: u32, weight: u32, x: f64) -> Port
    requires { 1 ≤ weight }
    ensures { result ≡ port_at set weight x }
{
    port_if(set / weight % 2 == 1, x)
}

// The three samples of an answer, +0 on a refusal.
pub fn put_samples(answer: Answer, out: &mut [f64; 3])
    ensures { (age : ℕ) → out.new ≡ samples_from 0 3 (answer_reply answer age) }
{
    *out = [answer.first(), answer.second(), answer.third()];
}
