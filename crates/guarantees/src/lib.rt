// What the unit guarantees, over the effects: statements in specs/, each in a file of its own. A function for each says in its contract that the statement
// holds, so that the check proves it as it proves a call; it does nothing when it is called.
#![tactic(auto, using(crate::proofs::Shown::statements))]

ghost use Rattle.guarantees.specs.CleanMemory.{CleanMemory};
ghost use Rattle.guarantees.specs.RecentPasts.{RecentPasts};
ghost use Rattle.guarantees.specs.PlacesNeeded.{PlacesNeeded};
ghost use Rattle.guarantees.specs.Starred.{Starred};
ghost use Rattle.guarantees.specs.WholePart.{WholePart};
ghost use Rattle.guarantees.specs.OneLine.{OneLine};
ghost use Rattle.guarantees.specs.IdleStages.{IdleStages};
ghost use Rattle.guarantees.specs.Lamp.{Lamp};
ghost use Rattle.guarantees.specs.Ages.{Ages};
ghost use Rattle.guarantees.specs.Tapes.{Tapes};
ghost use Rattle.guarantees.specs.Positions.{Positions};
ghost use Rattle.guarantees.specs.CountedSilence.{CountedSilence};
ghost use Rattle.std.specs.Prelude.{◌≡◌, ◌<◌, ◌+◌, [], ◌∷◌};
ghost use Rattle.effect.specs.Narrow.{AllBelow, old_width, new_width};
ghost use Rattle.tremolo.specs.Tremolo as tremolo_page;
ghost use Rattle.vibrato.specs.Vibrato as vibrato_page;
ghost use Rattle.chorus.specs.Chorus as chorus_page;
ghost use Rattle.flanger.specs.Flanger as flanger_page;
ghost use Rattle.delay_line.specs.DelayLine as delay_page;
ghost use Rattle.reverb.specs.Reverb as reverb_page;
ghost use Rattle.phaser.specs.Phaser as phaser_page;
ghost use Rattle.tape_delay.specs.TapeDelay as tape_page;

use chorus::Chorus;
use delay_line::DelayLine;
use effect::Unit;
use flanger::Flanger;
use phaser::Phaser;
use reverb::Reverb;
use tape_delay::TapeDelay;
use tremolo::Tremolo;
use vibrato::Vibrato;

// Lent memory holds only what accepted calls put there, over whole runs of each effect.
pub fn clean_memory()
    ensures { CleanMemory }
{}

// Lines of chorus and vibrato are their recent pasts.
pub fn recent_pasts()
    ensures { RecentPasts }
{}

// What the controller is told of places is what a start asks for.
pub fn places_needed()
    ensures { PlacesNeeded }
{}

// The bench's starred cases, all of them.
pub fn starred()
    ensures { Starred }
{}

// The whole part by the cases of the exponent field.
pub fn whole_part()
    ensures { WholePart }
{}

// A chorus with one line and one with three correspond over whole runs.
pub fn one_line()
    ensures { OneLine }
{}

// A phaser's stages that do not run keep what they hold.
pub fn idle_stages()
    ensures { IdleStages }
{}

// A silent unit of any effect, given zero audio, answers zeros and is silent after each tick.
pub fn lamp()
    ensures { Lamp }
{}

// The age that a tick answers is that of the oldest sample that its reads weighed above 0.
pub fn ages()
    ensures { Ages }
{}

// Every place of a tape's line lies from -5 to 5; its two halves are a tick; and what becomes of a read that waits.
pub fn tapes()
    ensures { Tapes }
{}

// A state whose positions have 64 bits and that passes the state test has exactly one whose positions have 32, and answers alike.
pub fn positions()
    ensures { Positions }
{}

// The count that a state keeps is true on every run, and "silent?" answers by it what the full reading of the places does.
pub fn counted_silence()
    ensures { CountedSilence }
{}

// What the code's types hold is of the new width: each position of any state, one that the test refuses too. By the types' own fields, and not by the pages' `fields`.
pub fn positions_held(
    delay: DelayLine,
    chorus: Chorus,
    flanger: Flanger,
    vibrato: Vibrato,
    reverb: Reverb,
    tape: TapeDelay,
)
    ensures of_delay { delay.write_pos < new_width }
    ensures of_chorus { chorus.write_pos < new_width }
    ensures of_flanger { flanger.write_pos < new_width }
    ensures of_vibrato { vibrato.write_pos < new_width }
    ensures of_reverb { AllBelow new_width (reverb.comb_pos_l ∷ reverb.comb_pos_r ∷ reverb.allpass_pos_l ∷ reverb.allpass_pos_r
        ∷ (reverb.predelay_pos ∷ []) ∷ []) }
    ensures of_tape_delay { tape.write_pos < new_width }
    ensures of_32_bits { new_width ≡ u32.MAX + 1 }
    ensures of_64_bits { old_width ≡ u64.MAX + 1 }
{}

// The page by which each effect's start, retune, reset and question go is its own.
pub fn pages()
    ensures of_tremolo { ⟦<Tremolo as Unit>⟧.page ≡ tremolo_page.page }
    ensures of_vibrato { ⟦<Vibrato as Unit>⟧.page ≡ vibrato_page.page }
    ensures of_chorus { ⟦<Chorus as Unit>⟧.page ≡ chorus_page.page }
    ensures of_flanger { ⟦<Flanger as Unit>⟧.page ≡ flanger_page.page }
    ensures of_delay { ⟦<DelayLine as Unit>⟧.page ≡ delay_page.page }
    ensures of_reverb { ⟦<Reverb as Unit>⟧.page ≡ reverb_page.page }
    ensures of_phaser { ⟦<Phaser as Unit>⟧.page ≡ phaser_page.page }
    ensures of_tape_delay { ⟦<TapeDelay as Unit>⟧.page ≡ tape_page.page }
{}
