// Validation of what a software attempt has read.
ghost use Rattle.std.specs.Prelude.{◌≡◌, ◌<◌, length};
ghost use Rattle.rules.specs.Kit.{Memory};
ghost use Rattle.rules.specs.Bench.{bench_with, is_valid, cells_validated};
ghost use Rattle.parts.specs.declared.sizes.TheConstants.{MOST_HEADS};
ghost use Rattle.rules.specs.declared.limits.TheConstants.{RECORDS};
ghost use Rattle.logs.specs.Validations.{Finds};

use crate::heads::present_snapshot;
use logs::{Log, Validation, validate};
use parts::Word;
use rules::{Lists, Table};

// What validation finds for a head in software: nothing is loaded while its snapshot is current.
pub(crate) fn revalidate<'a, W: Word>(
    table: &Table,
    head: u32,
    lists: Lists<'a, W>,
) -> Validation<'a, W>
    requires records { length table.now.heads ≡ RECORDS }
    requires head { head < MOST_HEADS }
    ensures { (memory : Memory W) → memory.same ≡ W.Word.same → let b = bench_with table.now lists.entry in Finds (is_valid memory b head) (cells_validated memory b head) result }
{
    let me = table.heads[head as usize];
    let log = Log::of_head(lists.reads, head, me.read_count);
    if me.snapshot == present_snapshot(table) {
        return Validation::Valid(log.range(0, 0));
    }
    validate(lists.cells, &log)
}
