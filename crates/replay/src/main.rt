// Replays stored answers of the Rust, and stored ages, and compares them, with no Rust at hand. A file of data/ for each effect, two for the delay's modes; units.rt says
// what a record has.
#![tactic(auto)]

mod phasers;
mod reverbs;
mod tapes;
mod units;
mod words;

ghost use Rattle.std.specs.Prelude.{◌≡◌, ◌≤◌};
ghost use Rattle.replay.specs.Files.{record_count};

use anyhow::{Context, Result};
use std::rt::Files;
use std::{fs, io};
use units::{Effect, Unit};
use words::{Record, Tally};

// Replays the records of a file from its start on.
fn replayed(effect: Effect, stored: &[u8], mem: &mut [f64]) -> Tally
    ensures { result.calls ≡ record_count effect stored.now }
{
    let (start, records) = stored.split_at(stored.len().min(effect.start_size()));
    let mut unit = Unit::new(effect, &Record::new(start), mem);
    let mut tally = Tally::new();
    for record in records.chunks_exact(effect.record_size()) {
        let equal = unit.call(mem, &Record::new(record));
        tally = tally.counted(equal);
    }
    tally
}

fn report(rt: &impl Print, title: &str, tally: Tally) -> io::Result<()> {
    let equal = tally.calls - tally.differ;
    println!(rt; "{title}: {equal} answers equal, {} differ", tally.differ)
}

// Replays the file and says how many answers are equal.
fn replay(
    rt: &(impl Files + Print + AllocGlobal),
    title: &str,
    file: &str,
    effect: Effect,
) -> Result<()> {
    let stored = fs::read(rt, file).context(format_args!("reading {file}"))?;
    let mut mem = vec![in rt.alloc(); 0.0; effect.places()]?;
    report(rt, title, replayed(effect, &stored, &mut mem))?;
    Ok(())
}

fn main(rt: HostRuntime) -> Result<()> {
    replay(&rt, "tremolo", "tremolo.bin", Effect::Tremolo)?;
    replay(&rt, "vibrato", "vibrato.bin", Effect::Vibrato)?;
    replay(&rt, "chorus", "chorus.bin", Effect::Chorus)?;
    replay(&rt, "flanger", "flanger.bin", Effect::Flanger)?;
    replay(&rt, "delay", "delay.bin", Effect::Delay)?;
    replay(&rt, "linear delay", "linear_delay.bin", Effect::Delay)?;
    replay(&rt, "tape delay", "tape_delay.bin", Effect::Tape)?;
    replay(&rt, "reverb", "reverb.bin", Effect::Reverb)?;
    replay(&rt, "phaser", "phaser.bin", Effect::Phaser)
}
