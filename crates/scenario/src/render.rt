// The text of a scenario.
ghost use Rattle.std.specs.Prelude.{◌≡◌, Some, IfOk, string_bytes};
ghost use Rattle.scenario.specs.Holdings.{entries_of};
ghost use Rattle.scenario.specs.Laws.{scenario_text, RenderedSays};
ghost use Rattle.scenario.specs.Steps.{WritesLines};

use crate::types::Scenario;
use std::alloc::{AllocError, Global};
use std::fmt;

// Writes each item, on a line of its own.
#[tactic(auto, using(crate::proofs::Rendered::no_lines, crate::proofs::Rendered::line_written, crate::proofs::Rendered::lines_written))]
fn write_lines<T: fmt::Display, W: fmt::Write>(
    f: &mut fmt::Formatter<W>,
    items: &[T],
) -> fmt::Result
    ensures { WritesLines W.write_str_gives T.output f.old items.now result f.new }
{
    for item in items {
        writeln!(f, "{item}")?;
    }
    Ok(())
}

impl fmt::Display for Scenario {
    ghost output = { λ s. Some (scenario_text (entries_of s)) };

    #[tactic(auto, using(crate::proofs::Rendered::three_written))]
    fn fmt<W: fmt::Write>(&self, f: &mut fmt::Formatter<W>) -> fmt::Result {
        write_lines(f, self.rig.as_slice())?;
        write_lines(f, &self.settings)?;
        write_lines(f, &self.calls)
    }
}

impl Scenario {
    /// The text of the scenario, its policy always written out.
    pub fn render(&self, heap: Global) -> Result<String, AllocError>
        ensures written { IfOk result (λ t. string_bytes t ≡ scenario_text (entries_of self.now)) }
        ensures inverse { RenderedSays }
    {
        format!(in heap; "{self}")
    }
}
