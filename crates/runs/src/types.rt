// What a run is made from, and what it gives.
ghost use Rattle.std.specs.Prelude.{◌≡◌, List, Option, length};
ghost use Rattle.std.specs.Iterator.{IsFinite, YieldsFirst};
ghost use Rattle.std.specs.Iterator.Adapters.{copied_source};
ghost use Rattle.std.specs.Slice.Iter.{iter_rest};
ghost use Rattle.rules.specs.declared.types.MadeCall.{MadeCall as Made};
ghost use Rattle.runs.specs.Calls.{copied_in_order};
ghost use Rattle.std.proofs.Common.{rules};

use parts::{Size, Word};
use rig::Rig;
use rules::{Granted, MadeCall, Refusal};
use std::iter::Copied;
use std::slice::Iter;

/// What a call answers.
pub type Answer<W> = Result<Granted<W>, Refusal>;

/// The calls of a run: an iterator over them, of which it is known what it yields.
pub trait Calls<W: Word>: Iterator<Item = MadeCall<W>> {
    // the calls that are still to come
    ghost made: { Self → List (Made W) };

    /// How many calls are still to come.
    fn left(&self) -> usize
        ensures { result ≡ length (made self.now) };

    // it can be asked for the next call at any time
    ghost ready: { (calls : Self) → Self.can_next calls };

    // it comes to an end
    ghost ends: { (calls : Self) → IsFinite (Self.remaining calls) };

    // each call that `next` gives is the first of those that are still to come
    ghost in_order: { (calls rest : Self) (call : Option (Made W)) → Self.next_gives calls call rest → YieldsFirst made calls call rest };
}

impl<'a, W: Word> Calls<W> for Copied<Iter<'a, MadeCall<W>>> {
    ghost made = { λ calls. iter_rest (copied_source calls) };

    ghost ready = { Prim.search rules };

    ghost ends = { Prim.search rules };

    ghost in_order = { copied_in_order };

    fn left(&self) -> usize {
        self.len()
    }
}

/// What a rig is set up from.
#[derive(Debug, Drop, PartialEq, Eq)]
pub struct SetUp<B, P> {
    pub size: Size,
    pub board: B,
    pub policy: P,
}

/// The rig as the calls have left it, and how many were made; their answers are in the lent list.
#[derive(Drop)]
pub struct RunWith<B, P> {
    pub rig: Rig<B, P>,
    pub count: usize,
}

/// The rig as the calls have left it, and their answers.
#[derive(Drop)]
pub struct Run<B, P, W> {
    pub rig: Rig<B, P>,
    pub answers: Vec<Answer<W>>,
}
