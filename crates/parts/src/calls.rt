// The eight calls of a rig.

/// A call, by what names a cell (C) and what a cell holds (W).
/// The usual terms are begin, read, write, commit, write back one slot, interrupt, retry and cancel.
#[derive(Clone, Copy, Debug, PartialEq, Eq)]
pub enum Call<C, W> {
    Open,
    Read(C),
    Write(C, W),
    Close,
    Push,
    Jolt,
    Again,
    Drop,
}
