// Fields by how they begin.

// A field by how it begins. Each case borrows its bytes from the text.
// Not a pattern alone where it is used: that fields are cases which borrow parts of the text was decided so (docs/DECISIONS.md, 55).
#[derive(Clone, Copy)]
pub enum Field<'a> {
    // begins with a minus sign: the bytes after that
    Minus(&'a [u8]),
    // begins in any other way, or is empty: all of its bytes
    Plain(&'a [u8]),
}
