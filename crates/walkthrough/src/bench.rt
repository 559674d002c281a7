// A rig on the bench, with the lists that it is lent.
ghost use Rattle.std.specs.Prelude.{◌≡◌, true};
ghost use Rattle.rules.specs.Refusals.{lengths_match};
ghost use Rattle.rig.specs.Rigs.{rig_bench};

use parts::{LinesBoard, Margin, Plain, Size};
use rig::Rig;
use rules::Slot;

// Two heads over two cells of amounts. The lists always have the right lengths, so no call is refused for them.
#[derive(Drop)]
pub(crate) struct Bench {
    pub(crate) rig: Rig<Margin<LinesBoard>, Plain>,
    pub(crate) cells: [i32; 2],
    pub(crate) reads: [Slot<i32>; 64],
    pub(crate) writes: [Slot<i32>; 64],
    ghost lists: { lengths_match (rig_bench rig cells reads writes) ≡ true },
}

impl Bench {
    ghost use Rattle.walkthrough.specs.Walk.{new_bench, on_bench};

    pub(crate) fn set_up(cells: [i32; 2]) -> Bench
        ensures { on_bench result ≡ new_bench cells }
    {
        let size = Size { heads: 2, cells: 2 };
        let slot = Slot { cell: 0, word: 0 };
        Bench {
            rig: Rig::new(size, Margin { below: LinesBoard }, Plain),
            cells,
            reads: [slot; 64],
            writes: [slot; 64],
        }
    }
}

// The lists of a bench, for a call that changes none of them. A macro, since a method would borrow the rig with them.
macro_rules! lists {
    ($bench:expr) => {
        rules::Lists {
            cells: &$bench.cells,
            reads: &$bench.reads,
            writes: &$bench.writes,
        }
    };
}

pub(crate) use lists;
