// What is printed of a text that was read.
ghost use Rattle.std.specs.Prelude.{◌≡◌, ◌≤◌, length, IfOk, Ok, string_bytes};
ghost use Rattle.faults.specs.declared.texts.TheConstants.{LONGEST};
ghost use Rattle.scenario.specs.Holdings.{entries_of};
ghost use Rattle.scenario.specs.Laws.{ReadBack, RenderedSays, SaysExactly};
ghost use Rattle.scenario.specs.Texts.{TextOnce};
ghost use Rattle.scenario.specs.Steps.{Told};

use crate::texts::read;
use crate::types::{ReadError, Reading, Scenario};
use faults::Report;
use std::alloc::{AllocError, Global};

impl Scenario {
    // How many lines the scenario has.
    fn count(&self) -> usize
        requires { length (entries_of self.now) ≤ LONGEST }
        ensures { result ≡ length (entries_of self.now) }
    {
        usize::from(self.rig.is_some()) + self.settings.len() + self.calls.len()
    }

    // The lines of the scenario, and a last one that tells how the reading ended.
    fn told(&self, heap: Global, end: Result<(), ReadError>) -> Result<String, AllocError>
        requires { end ≡ Ok tt → length (entries_of self.now) ≤ LONGEST }
        ensures { IfOk result (λ out. Told (entries_of self.now) end (string_bytes out)) }
    {
        match end {
            Ok(()) => {
                let lines = self.count();
                format!(in heap; "{self}whole\t{lines}\n")
            }
            Err(ReadError::Fault(fault)) => {
                let report = Report::from(fault);
                format!(in heap; "{self}{report}\n")
            }
            Err(ReadError::NoMemory(e)) => Err(e),
        }
    }
}

/// What the program `readback` prints of a text (docs/RULES.md, "What `readback` prints"): the lines up to the first
/// fault, rendered again from what was understood, and how the reading ended.
pub fn readback(heap: Global, text: &[u8]) -> Result<String, AllocError>
    ensures says { IfOk result (λ out. ReadBack text.now (string_bytes out)) }
    ensures once { TextOnce }
    ensures inverse { RenderedSays }
    ensures exact { SaysExactly }
{
    let Reading { scenario, end } = read(heap, text);
    scenario.told(heap, end)
}
