// The run of a scenario on the rig that its rig line names. Each pair of a board and a policy is compiled by itself.
ghost use Rattle.std.specs.Prelude.{◌≡◌, IfOk, OnOk, map, vec_items, string_bytes};
ghost use Rattle.std.specs.Option.{ForSome};
ghost use Rattle.faults.specs.declared.texts.TheConstants.{NEWLINE};
ghost use Rattle.fields.specs.Parts.{ended};
ghost use Rattle.rules.specs.Bench.{bench};
ghost use Rattle.rules.specs.Calls.{new_table};
ghost use Rattle.rules.specs.Kit.{kit_of};
ghost use Rattle.rules.specs.Runs.{answers_of, left_by};
ghost use Rattle.scenario.specs.Holdings.{entries_of};
ghost use Rattle.sheets.specs.Kits.{kit_on, kit_named};
ghost use Rattle.sheets.specs.Starts.{CanBegin, made_call};
ghost use Rattle.sheets.specs.Sheets.{held_run, sheet_lines};

use crate::starts::{ByHead, cells_before, empty_slots};
use crate::texts::sheet_text;
use entries::{BoardName, HeadCall, PolicyName, RigLine};
use faults::RigFault;
use parts::{Board, Careful, LinesBoard, Margin, Plain, Policy, Size, StoresBoard};
use rules::Slot;
use runs::{Answer, SetUp, run};
use scenario::Scenario;
use std::alloc::{AllocError, Global};

// The answers to the calls of a scenario, made on lists that are lent.
fn answers_on<B: Board + Drop, P: Policy + Drop>(
    heap: Global,
    set_up: SetUp<B, P>,
    calls: &[HeadCall],
    cells: &mut [i32],
    reads: &mut [Slot<i32>],
    writes: &mut [Slot<i32>],
) -> Result<Vec<Answer<i32>>, AllocError>
    ensures answers { let kit = kit_of ⟦<i32 as parts::Word>⟧ B.Board P.Policy set_up.board set_up.policy in
        let before = bench (new_table set_up.size.heads set_up.size.cells) cells.old reads.old writes.old in
        IfOk result (λ answers. vec_items answers ≡ answers_of kit before (map made_call calls.now)) }
    ensures left { let kit = kit_of ⟦<i32 as parts::Word>⟧ B.Board P.Policy set_up.board set_up.policy in
        let before = bench (new_table set_up.size.heads set_up.size.cells) cells.old reads.old writes.old in
        OnOk result (cells.new ≡ (left_by kit before (map made_call calls.now)).cells) }
{
    let calls = ByHead { calls };
    let ran = run(heap, set_up, calls, cells, reads, writes)?;
    Ok(ran.answers)
}

// The sheet of a scenario on this rig.
fn sheet_with<B: Board + Drop, P: Policy + Drop>(
    heap: Global,
    set_up: SetUp<B, P>,
    scenario: &Scenario,
    fault: Option<RigFault>,
) -> Result<String, AllocError>
    requires { CanBegin set_up.size.heads set_up.size.cells (vec_items scenario.now.settings) }
    ensures { let kit = kit_of ⟦<i32 as parts::Word>⟧ B.Board P.Policy set_up.board set_up.policy in
        IfOk result (λ t. string_bytes t
        ≡ ended NEWLINE (held_run kit set_up.size.heads set_up.size.cells scenario.now fault)) }
{
    let Size { heads, cells } = set_up.size;
    let mut cells = cells_before(heap, cells, &scenario.settings)?;
    let mut reads = empty_slots(heap, heads)?;
    let mut writes = empty_slots(heap, heads)?;
    let answers = answers_on(
        heap,
        set_up,
        &scenario.calls,
        &mut cells,
        &mut reads,
        &mut writes,
    )?;
    sheet_text(heap, &scenario.calls, &answers, &cells, fault)
}

// The sheet of a scenario on this board, under the policy that its rig line names.
fn sheet_on<B: Board + Drop>(
    heap: Global,
    rig: RigLine,
    board: B,
    scenario: &Scenario,
    fault: Option<RigFault>,
) -> Result<String, AllocError>
    requires { CanBegin rig.heads rig.cells (vec_items scenario.now.settings) }
    ensures { let kit = kit_on (B.line board) (B.fits board) rig.policy in
        IfOk result (λ t. string_bytes t
        ≡ ended NEWLINE (held_run kit rig.heads rig.cells scenario.now fault)) }
{
    let RigLine {
        heads,
        cells,
        policy,
        ..
    } = rig;
    match policy {
        PolicyName::Plain => {
            let set_up = SetUp {
                size: Size { heads, cells },
                board,
                policy: Plain,
            };
            sheet_with(heap, set_up, scenario, fault)
        }
        PolicyName::Careful => {
            let set_up = SetUp {
                size: Size { heads, cells },
                board,
                policy: Careful,
            };
            sheet_with(heap, set_up, scenario, fault)
        }
    }
}

// The sheet of a scenario on the board that its rig line names, under a margin.
fn sheet_of_rig(
    heap: Global,
    rig: RigLine,
    scenario: &Scenario,
    fault: Option<RigFault>,
) -> Result<String, AllocError>
    requires { CanBegin rig.heads rig.cells (vec_items scenario.now.settings) }
    ensures { let kit = kit_named rig.board rig.policy in
        IfOk result (λ t. string_bytes t
        ≡ ended NEWLINE (held_run kit rig.heads rig.cells scenario.now fault)) }
{
    match rig.board {
        BoardName::Stores => {
            let board = Margin { below: StoresBoard };
            sheet_on(heap, rig, board, scenario, fault)
        }
        BoardName::Lines => {
            let board = Margin { below: LinesBoard };
            sheet_on(heap, rig, board, scenario, fault)
        }
    }
}

// The sheet of a scenario that was read up to its end or its first fault.
#[tactic(auto, using(crate::proofs::Scenarios::lines_without_rig))]
pub(crate) fn sheet_of(
    heap: Global,
    scenario: &Scenario,
    fault: Option<RigFault>,
) -> Result<String, AllocError>
    requires { ForSome scenario.now.rig
        (λ r. CanBegin r.heads r.cells (vec_items scenario.now.settings)) }
    ensures { IfOk result (λ t. string_bytes t ≡ ended NEWLINE (sheet_lines (entries_of scenario.now) fault)) }
{
    match scenario.rig {
        Some(rig) => sheet_of_rig(heap, rig, scenario, fault),
        None => sheet_text(heap, &[], &[], &[], fault),
    }
}
