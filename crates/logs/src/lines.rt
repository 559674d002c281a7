// Lines touched by an attempt.
ghost use Rattle.std.specs.Prelude.{◌≡◌, ◌+◌, ◌*◌, ◌++◌, not, ◌||◌, ◌≤◌, drop, length};
ghost use Rattle.rules.specs.Logs.{touches, lines_of, distinct_count, lines_touched, lines_touched_with};
ghost use Rattle.logs.specs.Lines.{Marked, most_counted};

use crate::log::Log;
use parts::{Board, Word};

// Whether a cell of one of the two logs is on the line.
fn either_touches<W: Word, B: Board>(
    board: &B,
    line: u32,
    one: &Log<'_, W>,
    other: &Log<'_, W>,
) -> bool
    ensures { result
        ≡ (touches (B.Board.line board.now) line one.now || touches (B.Board.line board.now) line other.now) }
{
    one.touches(board, line) || other.touches(board, line)
}

// Whether no cell of either log is on the line; of the first log only the slots from a place on count. A line whose remainder
// by 64 is not marked needs no search.
fn is_new<W: Word, B: Board>(
    board: &B,
    line: u32,
    marks: &[bool; 64],
    log: &Log<'_, W>,
    from: usize,
    other: &Log<'_, W>,
) -> bool
    requires { Marked (B.Board.line board.now) marks.now (drop from log.now ++ other.now) }
    ensures { result
        ≡ not (touches (B.Board.line board.now) line (drop from log.now) || touches (B.Board.line board.now) line other.now) }
{
    if !marks[(line % 64) as usize] {
        return true;
    }
    !either_touches(board, line, &log.range(from, log.len()), other)
}

// Adds to `count`, the number of lines of the other log, the lines of this one that are not among them, and marks them.
fn count_beside<W: Word, B: Board>(
    board: &B,
    log: &Log<'_, W>,
    other: &Log<'_, W>,
    count: u16,
    marks: &mut [bool; 64],
) -> u16
    requires counted { count ≡ distinct_count (lines_of (B.Board.line board.now) other.now) }
    requires marked { Marked (B.Board.line board.now) marks.old other.now }
    requires few { count ≤ most_counted }
    ensures count { result ≡ distinct_count (lines_of (B.Board.line board.now) (log.now ++ other.now)) }
    ensures marked { Marked (B.Board.line board.now) marks.new (log.now ++ other.now) }
    ensures bound { result ≤ count + most_counted }
{
    let mut count = count;
    let slots = log.slots();
    let mut left = slots.len();
    while left > 0 {
        let line = board.line(slots[left - 1].cell);
        if is_new(board, line, marks, log, left, other) {
            count += 1;
        }
        marks[(line % 64) as usize] = true;
        left -= 1;
    }
    count
}

// The number of different lines among the cells of both logs, all of them marked.
fn count_lines<W: Word, B: Board>(
    board: &B,
    reads: &Log<'_, W>,
    writes: &Log<'_, W>,
    marks: &mut [bool; 64],
) -> u16
    ensures count { result ≡ lines_touched (B.Board.line board.now) reads.now writes.now }
    ensures marked { Marked (B.Board.line board.now) marks.new (reads.now ++ writes.now) }
    ensures bound { result ≤ 2 * most_counted }
{
    let none = writes.range(0, 0);
    let count = count_beside(board, writes, &none, 0, marks);
    count_beside(board, reads, writes, count, marks)
}

/// The number of different lines among the cells of both logs.
pub fn lines_touched<W: Word, B: Board>(board: &B, reads: &Log<'_, W>, writes: &Log<'_, W>) -> u16
    ensures count { result ≡ lines_touched (B.Board.line board.now) reads.now writes.now }
    ensures bound { result ≤ 2 * most_counted }
{
    let mut marks = [false; 64];
    count_lines(board, reads, writes, &mut marks)
}

/// The same with one cell more, as a read of it would touch it.
#[tactic(auto, using(crate::proofs::Counted::one_more, crate::proofs::Counted::none_more))]
pub fn lines_touched_with<W: Word, B: Board>(
    board: &B,
    cell: u32,
    reads: &Log<'_, W>,
    writes: &Log<'_, W>,
) -> u16
    ensures { result ≡ lines_touched_with (B.Board.line board.now) cell reads.now writes.now }
{
    let mut marks = [false; 64];
    let lines = count_lines(board, reads, writes, &mut marks);
    if is_new(board, board.line(cell), &marks, reads, 0, writes) {
        lines + 1
    } else {
        lines
    }
}
