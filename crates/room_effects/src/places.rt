// What a controller asks at power-up.
ghost use Rattle.std.specs.Prelude.{◌≡◌};
ghost use Rattle.needed.specs.Needed.{needed_by};

use chorus::Chorus;
use delay_line::DelayLine;
use flanger::Flanger;
use phaser::Phaser;
use reverb::Reverb;
use tape_delay::TapeDelay;
use tremolo::Tremolo;
use vibrato::Vibrato;

// The places that an effect needs at the rate: 1 delay, 2 chorus, 3 flanger, 4 vibrato, 5 tremolo, 6 reverb, 7 phaser, 8 tape delay. 2^64 - 1 for
// another number and for a rate that is refused. No enum and no `Option` cross: C hands in the one number and gets the other, as the header has it.
#[tactic(auto, unfolding(needed::specs::Needed::needed_by))]
#[unsafe(no_mangle)]
pub extern "C" fn room_places_needed(effect: u32, rate: f64, maximum: f64) -> u64
    ensures { result ≡ needed_by effect rate maximum }
{
    let needed = match effect {
        1 => DelayLine::places_needed(rate, maximum),
        2 => Chorus::places_needed(rate),
        3 => Flanger::places_needed(rate),
        4 => Vibrato::places_needed(rate),
        5 => Tremolo::places_needed(rate),
        6 => Reverb::places_needed(rate),
        7 => Phaser::places_needed(rate),
        8 => TapeDelay::places_needed(rate),
        _ => None,
    };
    needed.unwrap_or(u64::MAX)
}
