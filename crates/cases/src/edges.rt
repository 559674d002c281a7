// The list of cases, for the words, boards and policies of the code.
ghost use Rattle.rules.specs.Kit.{kit_of};
ghost use Rattle.cases.specs.Edges.{EdgeCasesHold, MostAreRight};

use parts::{Careful, LinesBoard, Margin, Plain, Rate, StoresBoard};

/// Each case comes out as its row says: by the rule book, which binds every call of the rig, and on these boards and policies.
/// The most transactions and attempts, too many for a row, are those of the rules.
pub fn edge_cases_stand(
    stores: &Margin<StoresBoard>,
    lines: &Margin<LinesBoard>,
    plain: &Plain,
    careful: &Careful,
)
    ensures most { MostAreRight }
    ensures cases { let words = ⟦<i32 as parts::Word>⟧ in
        let on_stores = kit_of words ⟦<Margin<StoresBoard> as parts::Board>⟧ ⟦<Plain as parts::Policy>⟧ stores.now plain.now in
        let on_lines = kit_of words ⟦<Margin<LinesBoard> as parts::Board>⟧ ⟦<Plain as parts::Policy>⟧ lines.now plain.now in
        let carefully = kit_of words ⟦<Margin<LinesBoard> as parts::Board>⟧ ⟦<Careful as parts::Policy>⟧ lines.now careful.now in
        EdgeCasesHold on_stores on_lines carefully ⟦<Rate as parts::Word>⟧.same }
{}
