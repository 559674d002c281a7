// Reading a whole text.
ghost use Rattle.std.specs.Prelude.{◌≡◌, ℕ, ◌<◌, ◌≤◌, List, length, Decides, MatchResult, OnErr};
ghost use Rattle.std.specs.Iterator.{item_count};
ghost use Rattle.faults.specs.declared.texts.TheConstants.{LONGEST};
ghost use Rattle.entries.specs.declared.types.Entry.TheVariants as entries;
ghost use Rattle.lines.specs.Faults.{LineRead};
ghost use Rattle.scenario.specs.Texts.{Allowed, RigRead, TextOnce, start, lines_of_text};
ghost use Rattle.scenario.specs.Holdings.{entries_of, Read, Checked};
ghost use Rattle.scenario.specs.Steps.{Sized, held, put, nothing, to_come, NextSaid, Ends, LinesCounted, LacksRoom};

use crate::types::{ReadError, Reading, Scenario};
use entries::{Entry, RigLine};
pub use faults::LONGEST;
use faults::{LineFault, Place, RigFault};
use fields::Reader;
use lines::{LineEntry, Stage, next_entry};
use parts::Size;
use std::alloc::{AllocError, Global};

// Whether a rig may have so many heads and cells.
fn allowed(rig: RigLine) -> bool
    ensures { Decides result (Allowed start (entries.Rig rig)) }
{
    Size::new(rig.heads, rig.cells).is_some()
}

// What a line is read as, with what the rig refuses of it.
fn rig_entry(stage: Stage, line: LineEntry) -> Result<Entry, RigFault>
    ensures { (bytes : List ℕ) → LineRead stage (line.place, bytes) line.said → RigRead stage (line.place, bytes) result }
{
    let said = line.said?;
    match said {
        Entry::Rig(rig) if !allowed(rig) => Err(RigFault::BadRig(line.place)),
        Entry::Set(setting) if !matches!(stage, Stage::Settings(cells) if setting.cell < cells) => {
            Err(RigFault::NoSuchCell(line.place))
        }
        _ => Ok(said),
    }
}

// The lines of a text that are still to come, and the stage where they begin.
#[derive(Drop)]
struct Entries<'a> {
    reader: Reader<'a>,
    stage: Stage,
}

impl<'a> Entries<'a> {
    // All the lines of a text.
    fn new(text: &'a [u8]) -> Entries<'a>
        ensures lines { to_come result ≡ lines_of_text text.now }
        ensures stage { result.stage ≡ start }
    {
        Entries {
            reader: Reader::new(text),
            stage: Stage::Start,
        }
    }
}

impl Iterator for Entries<'_> {
    type Item = Result<Entry, RigFault>;

    ghost next_gives = { NextSaid };

    ghost remaining = { item_count to_come };

    fn next(&mut self) -> Option<Result<Entry, RigFault>> {
        let line = next_entry(self.stage, &mut self.reader)?;
        let said = rig_entry(self.stage, line);
        if let Ok(said) = said {
            self.stage = self.stage.after(said);
        }
        Some(said)
    }
}

// That the text has a line to begin with, and is not too long.
fn sized(text: &[u8]) -> Result<(), RigFault>
    ensures { Sized text.now result }
{
    if text.len() > LONGEST {
        return Err(LineFault::TooLong.into());
    }
    if text.is_empty() {
        let start = Place { line: 1, byte: 0 };
        return Err(LineFault::Misplaced(start).into());
    }
    Ok(())
}

impl Scenario {
    // With what one more line says. It fails only where the entry's list is full.
    fn add(&mut self, said: Entry) -> Result<(), AllocError>
        ensures full { OnErr result (LacksRoom self.old said) }
        ensures held { MatchResult result (λ _. held self.new ≡ put (held self.old) said) (λ _. held self.new ≡ held self.old) }
    {
        match said {
            Entry::Rig(rig) => {
                self.rig = Some(rig);
            }
            Entry::Set(setting) => {
                self.settings.push(setting)?;
            }
            Entry::Call(call) => {
                self.calls.push(call)?;
            }
        }
        Ok(())
    }
}

// Takes in what the lines of the text say, one after another, up to the first fault.
#[tactic(auto, using(crate::proofs::Onward::come_next))]
fn take_lines(scenario: &mut Scenario, text: &[u8]) -> Result<(), ReadError>
    requires { held scenario.old ≡ nothing }
    ensures { Ends (lines_of_text text.now) (entries_of scenario.new) result }
{
    for said in Entries::new(text) {
        scenario.add(said?)?;
    }
    Ok(())
}

// Takes in what the text says, after a look at its size. `check` looks at it as well: one `?` is all that they share.
fn take_text(scenario: &mut Scenario, text: &[u8]) -> Result<(), ReadError>
    requires { held scenario.old ≡ nothing }
    ensures { Read text.now (entries_of scenario.new) result }
{
    sized(text)?;
    // a call and its newline take 4 bytes, and the rig line more
    scenario.calls.reserve(text.len() / 4)?;
    take_lines(scenario, text)
}

/// What the text says, up to its first fault (docs/RULES.md, "Faults").
pub fn read(heap: Global, text: &[u8]) -> Reading
    ensures says { Read text.now (entries_of result.scenario) result.end }
    ensures once { TextOnce }
{
    let mut scenario = Scenario {
        rig: None,
        settings: Vec::new(heap),
        calls: Vec::new(heap),
    };
    let end = take_text(&mut scenario, text);
    Reading { scenario, end }
}

// The first fault of the lines of a text, or how many lines it has.
#[tactic(auto, using(crate::proofs::Onward::counting_first, crate::proofs::Onward::counting_next))]
fn count_lines(text: &[u8]) -> Result<usize, RigFault>
    requires { length text.now ≤ LONGEST }
    ensures { LinesCounted (lines_of_text text.now) result }
{
    // no plainer by `try_fold`, which would owe a proof that its sum fits over every run of the iterator
    let mut count = 0;
    for said in Entries::new(text) {
        said?;
        count += 1;
    }
    Ok(count)
}

/// The first fault of a text, or how many lines it has where it has none. It needs no memory.
pub fn check(text: &[u8]) -> Result<usize, RigFault>
    ensures { Checked text.now result }
{
    sized(text)?;
    count_lines(text)
}
