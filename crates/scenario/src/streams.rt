// Texts that come from a reader, and what is printed of them, which goes to a writer.
ghost use Rattle.std.specs.Prelude.{◌≡◌, ◌+◌, ◌≤◌, ◌<◌, length, take, vec_len, IfOk, IfErr, IfSome, OnErr, MatchResult, string_bytes};
ghost use Rattle.std.specs.Io.KnownBytes.{Appends, Consumes, IsAtEnd, Keeps};
ghost use Rattle.scenario.specs.Laws.{ReadBack};
ghost use Rattle.scenario.specs.Streams.{BeforeWriting, Lasting, PrintOf, Printed, Written};
ghost use Rattle.scenario.specs.declared.streams.StreamError.TheVariants as error;

use crate::printed::readback;
use crate::texts::LONGEST;
use std::alloc::{AllocError, Global};
use std::io;
use std::io::{ErrorKind, Read, Write};
use thiserror::Error;

/// Why a text was not read and printed to its end.
#[derive(Debug, Drop, Error)]
pub enum StreamError {
    #[error("the text could not be read: {0}")]
    NotRead(io::Error),
    #[error("memory is wanting")]
    NoMemory(AllocError),
    #[error("what is printed of the text could not be written: {0}")]
    NotWritten(io::Error),
}

impl From<AllocError> for StreamError {
    ghost from_gives = { λ e r. r ≡ error.NoMemory e };

    fn from(e: AllocError) -> StreamError {
        StreamError::NoMemory(e)
    }
}

// One byte more than the longest text that is read: with that many, a text is known to be too long.
const ENOUGH: usize = LONGEST + 1;

// The most that is asked for in one read.
const PIECE: usize = 8 * 1024;

// Reads into the front of a buffer, and returns how many bytes. None are read where there is no room or nothing is left.
fn read_some<R: Read>(input: &mut R, buffer: &mut [u8]) -> io::Result<usize>
    ensures within { IfOk result (λ n. n ≤ length buffer.new) }
    ensures taken { IfOk result (λ n. Consumes (R.remaining input.old) (R.remaining input.new) (take n buffer.new)) }
    ensures end { IfOk result (λ n. n ≡ 0 → 0 < length buffer.old → IsAtEnd (R.remaining input.new)) }
    ensures lasting { IfErr result Lasting }
{
    for _ in 0..u64::MAX {
        match input.read(buffer) {
            Ok(n) => return Ok(n),
            Err(e) => {
                if e.kind() != ErrorKind::Interrupted {
                    return Err(e);
                }
            }
        }
    }
    Err(io::Error::from(ErrorKind::TimedOut))
}

/// The bytes that a reader has left, at most one more than [`LONGEST`], so that a text which is too long is seen to
/// be. An error is `NoMemory`, or `NotRead`: the reader's own, or `TimedOut` where it is interrupted without end, that is
/// in 2^64 - 1 calls one after another.
#[tactic(auto, using(crate::proofs::Passed::enough_read))]
pub fn read_text<R: Read + Drop>(heap: Global, mut input: R) -> Result<Vec<u8>, StreamError>
    ensures text { IfOk result (λ text. IfSome (R.remaining input) (λ bytes. text.items ≡ take (LONGEST + 1) bytes)) }
    ensures most { IfOk result (λ text. vec_len text ≤ LONGEST + 1) }
    ensures error { IfErr result BeforeWriting }
{
    let mut text = Vec::with_capacity(heap, ENOUGH)?;
    let mut piece = [0; PIECE];
    while text.len() < ENOUGH {
        let room = PIECE.min(ENOUGH - text.len());
        match read_some(&mut input, &mut piece[..room]) {
            Ok(0) => return Ok(text),
            Ok(n) => text.extend_from_slice(&piece[..n])?,
            Err(e) => return Err(StreamError::NotRead(e)),
        }
    }
    Ok(text)
}

// Writes the first of the bytes, and returns how many. An error leaves the writer as it was.
fn write_some<W: Write>(output: &mut W, bytes: &[u8]) -> io::Result<usize>
    requires { 0 < length bytes.now }
    ensures some { IfOk result (λ n. 0 < n) }
    ensures within { IfOk result (λ n. n ≤ length bytes.now) }
    ensures added { IfOk result (λ n. Appends (W.contents output.old) (W.contents output.new) (take n bytes.now)) }
    ensures kept { OnErr result (Keeps (W.contents output.old) (W.contents output.new)) }
    ensures lasting { IfErr result Lasting }
{
    for _ in 0..u64::MAX {
        match output.write(bytes) {
            Ok(0) => return Err(io::Error::from(ErrorKind::WriteZero)),
            Ok(n) => return Ok(n),
            Err(e) => {
                if e.kind() != ErrorKind::Interrupted {
                    return Err(e);
                }
            }
        }
    }
    Err(io::Error::from(ErrorKind::TimedOut))
}

/// Adds a text to what a writer holds. An error is the writer's own, or `WriteZero` where it takes no byte, or `TimedOut`
/// where it is interrupted without end, that is in 2^64 - 1 calls one after another; some of the text may be written by then.
pub fn write_text<W: Write>(output: &mut W, text: &str) -> io::Result<()>
    ensures { Written result (W.contents output.old) (W.contents output.new) text.now }
{
    let mut rest = text.as_bytes();
    while !rest.is_empty() {
        let count = write_some(output, rest)?;
        rest = &rest[count..];
    }
    Ok(())
}

// What `readback` prints of the bytes that a reader has left.
fn told_of<R: Read + Drop>(heap: Global, input: R) -> Result<String, StreamError>
    ensures { MatchResult result (λ told. PrintOf ReadBack (R.remaining input) (string_bytes told)) BeforeWriting }
{
    let text = read_text(heap, input)?;
    let told = readback(heap, &text)?;
    Ok(told)
}

/// Reads a text, and writes what [`readback`] prints of it. Nothing is written before the text is read to its end.
pub fn print_readback<R: Read + Drop, W: Write>(
    heap: Global,
    input: R,
    output: &mut W,
) -> Result<(), StreamError>
    ensures { Printed ReadBack result (R.remaining input) (W.contents output.old) (W.contents output.new) }
{
    let told = told_of(heap, input)?;
    write_text(output, told.as_str()).map_err(StreamError::NotWritten)
}
