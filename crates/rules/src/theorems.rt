// What is proved of the rule book, for every kind of word, every board and every policy: each theorem is the contract
// of a function that does nothing. Board and policy stay two parameters: the rig that holds both, and makes the calls, stands
// in a crate above.
ghost use Rattle.rules.specs.Bounds.{BoundsAtSetUp, BoundsKept};
ghost use Rattle.rules.specs.Examples.{RepricingSheet, SoftwareSheet, ValidationSheet, LinesSheet, StoresSheet, LockSheet, RefusalsSheet};
ghost use Rattle.rules.specs.CallLaws.{CallLaws};
ghost use Rattle.rules.specs.Kit.{kit_of};
ghost use Rattle.rules.specs.RunLaws.{LawsOfRuns, HandlesEndInRuns};

use parts::{Board, Policy, Word};

/// The rule book gives the calls of the worked examples the answers and the cells of their sheets.
pub fn examples_stand()
    ensures repricing { RepricingSheet }
    ensures software { SoftwareSheet }
    ensures validation { ValidationSheet }
    ensures lines { LinesSheet }
    ensures stores { StoresSheet }
    ensures lock { LockSheet }
    ensures refusals { RefusalsSheet }
{}

/// A table that is set up is in bounds, and every call keeps it so, whatever the lists hold; no call changes the length of a list.
pub fn bounds_stand<W: Word, B: Board, P: Policy>(board: &B, policy: &P)
    ensures set_up { BoundsAtSetUp }
    ensures calls { BoundsKept (kit_of W.Word B.Board P.Policy board.now policy.now) }
{}

/// Laws of single calls: what a refusal leaves, a list of wrong length, which calls change the cells, and what becomes of the other heads.
pub fn call_laws_stand<W: Word, B: Board, P: Policy>(board: &B, policy: &P)
    ensures { CallLaws (kit_of W.Word B.Board P.Policy board.now policy.now) }
{}

/// The laws of every list of calls since set-up: the three of what transactions see and do, and that of handles.
pub fn laws_stand<W: Word, B: Board, P: Policy>(board: &B, policy: &P)
    ensures laws { LawsOfRuns (kit_of W.Word B.Board P.Policy board.now policy.now) }
    ensures handles { HandlesEndInRuns (kit_of W.Word B.Board P.Policy board.now policy.now) }
{}
