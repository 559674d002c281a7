// Single steps, each printed. The handle that a step needs is moved into it, or lent, as the call by handle wants it.
ghost use Rattle.std.specs.Prelude.{◌≡◌, IfOk};
ghost use Rattle.rules.specs.Calls.{open_of, read_of, write_of, jolt_of, again_of, drop_of, push_of};
ghost use Rattle.rules.specs.Examples.{on_lines};
ghost use Rattle.rules.specs.Refusals.{by_number};
ghost use Rattle.handles.specs.Handles.{running_caller, writing_back_caller, IsNumbered, WrittenBack, pushes_of};
ghost use Rattle.walkthrough.specs.Walk.{committed, mode_text, on_bench, pushes_told};

use crate::bench::{Bench, lists};
use crate::stopped::Stopped;
use handles::{Closed, Refused, Running, WritingBack};
use parts::Mode;
use rules::Refusal;

fn mode_word(mode: Mode) -> &'static str
    ensures { result.now ≡ mode_text mode }
{
    match mode {
        Mode::Hardware => "hardware",
        Mode::Software => "software",
    }
}

impl Bench {
    pub(crate) fn open(&mut self, rt: &HostRuntime, head: u32) -> Result<Running, Stopped>
        ensures handle { IfOk result (λ h. ((running_caller h).head ≡ head) × IsNumbered (on_bench self.new) (running_caller h)) }
        ensures left { on_bench self.new ≡ (open_of (on_bench self.old) (by_number head)).left }
        ensures cells { (on_bench self.new).cells ≡ (on_bench self.old).cells }
    {
        let begun = Running::open(&mut self.rig, head, lists!(self))?;
        println!(rt;
            "head {head} opens a transaction in {}",
            mode_word(begun.mode)
        )?;
        Ok(begun.handle)
    }

    pub(crate) fn read(
        &mut self,
        rt: &HostRuntime,
        head: u32,
        handle: &Running,
        cell: u32,
    ) -> Result<(), Stopped>
        ensures left { on_bench self.new
            ≡ (read_of on_lines.memory (on_bench self.old) (running_caller handle.now) cell).left }
        ensures cells { (on_bench self.new).cells ≡ (on_bench self.old).cells }
    {
        match handle.read(
            &mut self.rig,
            cell,
            &self.cells,
            &mut self.reads,
            &self.writes,
        ) {
            Ok(word) => println!(rt; "head {head} reads {word} from cell {cell}")?,
            Err(refusal) => println!(rt;
                "head {head} reads cell {cell}, and is refused with {}",
                refusal.number()
            )?,
        }
        Ok(())
    }

    pub(crate) fn write(
        &mut self,
        rt: &HostRuntime,
        head: u32,
        handle: &Running,
        cell: u32,
        word: i32,
    ) -> Result<(), Stopped>
        ensures left { on_bench self.new
            ≡ (write_of on_lines.memory (on_bench self.old) (running_caller handle.now) cell word).left }
        ensures cells { (on_bench self.new).cells ≡ (on_bench self.old).cells }
    {
        handle.write(
            &mut self.rig,
            cell,
            word,
            &self.cells,
            &self.reads,
            &mut self.writes,
        )?;
        println!(rt; "head {head} writes {word} to cell {cell}")?;
        Ok(())
    }

    // An interrupt, which a head in hardware answers by aborting.
    pub(crate) fn jolt(
        &mut self,
        rt: &HostRuntime,
        head: u32,
        handle: &Running,
    ) -> Result<(), Stopped>
        ensures left { on_bench self.new
            ≡ (jolt_of (on_bench self.old) (running_caller handle.now)).left }
        ensures cells { (on_bench self.new).cells ≡ (on_bench self.old).cells }
    {
        if let Err(refusal) = handle.jolt(&mut self.rig, lists!(self)) {
            println!(rt;
                "head {head} is interrupted, and is refused with {}",
                refusal.number()
            )?;
        }
        Ok(())
    }

    // Exchanges the handle of an aborted head, and tries its transaction again.
    pub(crate) fn retry(
        &mut self,
        rt: &HostRuntime,
        head: u32,
        handle: Running,
    ) -> Result<Running, Stopped>
        ensures handle { IfOk result (λ h. running_caller h ≡ running_caller handle) }
        ensures left { on_bench self.new ≡ (again_of on_lines.policy (on_bench self.old) (running_caller handle)).left }
        ensures cells { (on_bench self.new).cells ≡ (on_bench self.old).cells }
    {
        let aborted = handle.into_aborted(&self.rig)?;
        let begun = aborted.again(&mut self.rig, lists!(self))?;
        println!(rt; "head {head} tries again in {}", mode_word(begun.mode))?;
        Ok(begun.handle)
    }

    // Pushes until no slot is left. With lists of the right lengths even a refusal leaves no handle to be forgotten.
    pub(crate) fn finish(&mut self, handle: WritingBack) -> Result<u8, Refusal>
        ensures answer { result ≡ pushes_told (push_of (on_bench self.old) (writing_back_caller handle)).answer }
        ensures left { on_bench self.new ≡ pushes_of (on_bench self.old) (writing_back_caller handle) }
        ensures written_back { IfOk result (λ _. WrittenBack (on_bench self.old) (on_bench self.new) (writing_back_caller handle).head) }
    {
        match handle.push_all(&mut self.rig, &mut self.cells, &self.reads, &self.writes) {
            Ok(pushes) => Ok(pushes),
            Err(Refused { refusal, handle: _ }) => Err(refusal),
        }
    }

    // Closes, and pushes to 0 if the writes are to be pushed. Nothing that may fail comes between the close and the pushes.
    pub(crate) fn commit(
        &mut self,
        rt: &HostRuntime,
        head: u32,
        handle: Running,
    ) -> Result<(), Stopped>
        ensures { on_bench self.new ≡ committed (on_bench self.old) (running_caller handle) }
    {
        match handle.close(&mut self.rig, &mut self.cells, &self.reads, &self.writes)? {
            Closed::Complete(attempts) => {
                println!(rt; "head {head} closes, attempts: {attempts}")?;
            }
            Closed::WritingBack(handle, attempts) => {
                let pushes = self.finish(handle)?;
                println!(rt;
                    "head {head} closes, attempts: {attempts}, and pushes to 0, pushes: {pushes}"
                )?;
            }
        }
        Ok(())
    }

    pub(crate) fn give_up(
        &mut self,
        rt: &HostRuntime,
        head: u32,
        handle: Running,
    ) -> Result<(), Stopped>
        ensures left { on_bench self.new
            ≡ (drop_of (on_bench self.old) (running_caller handle)).left }
        ensures cells { (on_bench self.new).cells ≡ (on_bench self.old).cells }
    {
        handle.drop(&mut self.rig, lists!(self))?;
        println!(rt; "head {head} drops its transaction")?;
        Ok(())
    }
}
