// The call that writes back: push.
ghost use Rattle.std.specs.Prelude.{◌≡◌};
ghost use Rattle.rules.specs.Bench.{bench};
ghost use Rattle.rules.specs.Bounds.{InBounds};
ghost use Rattle.rules.specs.Calls.{outcome, push_of};

use crate::admission::admit;
use logs::Log;
use parts::{Call, Word};
use rules::{Caller, Head, Lists, Refusal, Slot, State, Table};

// The next slot of the write log goes into its cell, and the last one frees the lock.
pub(crate) fn push<W: Word>(
    table: &mut Table,
    who: Caller,
    cells: &mut [W],
    reads: &[Slot<W>],
    writes: &[Slot<W>],
) -> Result<u8, Refusal>
    requires { InBounds table.old }
    ensures { outcome result (bench table.new cells.new reads.now writes.now)
        ≡ push_of (bench table.old cells.old reads.now writes.now) who }
{
    let lists = Lists {
        cells,
        reads,
        writes,
    };
    let me = admit(table, who, Call::Push, lists)?.head;
    let log = Log::of_head(writes, who.head, me.write_count);
    log.range(usize::from(me.written), 1).put_into(cells);
    let written = me.written + 1;
    let left = me.write_count - written;
    let mut head = Head { written, ..me };
    if left == 0 {
        head.state = State::Idle;
        table.sequence += 1;
    }
    table.heads[who.head as usize] = head;
    Ok(left)
}
