// Readers and writers that fail in mid-stream.
use scenario::{StreamError, print_readback};
use std::alloc::Global;
use std::io;
use std::io::{ErrorKind, Read, Write};

static TEXT: &[u8] = b"rig\t1\t1\tlines\no\t0";

static TOLD: &[u8] = b"rig\t1\t1\tlines\tplain\no\t0\nwhole\t2\n";

// Gives a byte at a time, each second call is interrupted, and after the last byte it fails or ends.
#[derive(Drop)]
struct Drip<'a> {
    left: &'a [u8],
    then: Option<ErrorKind>,
    interrupts: bool,
}

impl<'a> Drip<'a> {
    fn of(left: &'a [u8], then: Option<ErrorKind>) -> Drip<'a> {
        Drip {
            left,
            then,
            interrupts: false,
        }
    }
}

impl Read for Drip<'_> {
    fn read(&mut self, buf: &mut [u8]) -> io::Result<usize> {
        self.interrupts = !self.interrupts;
        if self.interrupts {
            return Err(io::Error::from(ErrorKind::Interrupted));
        }
        match (self.left.split_first(), self.then) {
            (Some((byte, rest)), _) if !buf.is_empty() => {
                buf[0] = *byte;
                self.left = rest;
                Ok(1)
            }
            (None, Some(kind)) => Err(io::Error::from(kind)),
            _ => Ok(0),
        }
    }
}

// Takes a byte at a time, each second call is interrupted, and where no room is left it fails or takes none.
#[derive(Drop)]
struct Neck {
    held: Vec<u8>,
    room: usize,
    then: Option<ErrorKind>,
    interrupts: bool,
}

impl Neck {
    fn with_room(heap: Global, room: usize, then: Option<ErrorKind>) -> Neck {
        Neck {
            held: Vec::new(heap),
            room,
            then,
            interrupts: false,
        }
    }
}

impl Write for Neck {
    fn write(&mut self, buf: &[u8]) -> io::Result<usize> {
        self.interrupts = !self.interrupts;
        if self.interrupts {
            return Err(io::Error::from(ErrorKind::Interrupted));
        }
        if buf.is_empty() {
            return Ok(0);
        }
        if self.held.len() >= self.room {
            return match self.then {
                Some(kind) => Err(io::Error::from(kind)),
                None => Ok(0),
            };
        }
        self.held.push(buf[0])?;
        Ok(1)
    }

    fn flush(&mut self) -> io::Result<()> {
        Ok(())
    }
}

#[test]
fn reader_fails(rt: HostRuntime) {
    for count in 0..=TEXT.len() {
        let mut output = Neck::with_room(rt.alloc(), usize::MAX, None);
        let input = Drip::of(&TEXT[..count], Some(ErrorKind::ConnectionReset));
        let Err(StreamError::NotRead(e)) = print_readback(rt.alloc(), input, &mut output) else {
            panic!(rt; "after {count} bytes");
        };
        assert!(rt; e.kind() == ErrorKind::ConnectionReset);
        assert!(rt; output.held.is_empty());
    }
}

#[test]
fn writer_fails(rt: HostRuntime) {
    for (then, wanted) in [
        (Some(ErrorKind::StorageFull), ErrorKind::StorageFull),
        (None, ErrorKind::WriteZero),
    ] {
        for room in 0..TOLD.len() {
            let mut output = Neck::with_room(rt.alloc(), room, then);
            let Err(StreamError::NotWritten(e)) = print_readback(rt.alloc(), TEXT, &mut output)
            else {
                panic!(rt; "with room for {room} bytes");
            };
            assert!(rt; e.kind() == wanted);
            assert_eq!(rt; output.held.as_slice(), &TOLD[..room]);
        }
    }
}

#[test]
fn byte_by_byte(rt: HostRuntime) {
    let mut output = Neck::with_room(rt.alloc(), TOLD.len(), Some(ErrorKind::StorageFull));
    assert!(rt; print_readback(rt.alloc(), Drip::of(TEXT, None), &mut output).is_ok());
    assert_eq!(rt; output.held.as_slice(), TOLD);
}

// No more is read of a text without end than shows that it is too long.
#[test]
fn endless(rt: HostRuntime) {
    let mut output = Vec::new(rt.alloc());
    assert!(rt; print_readback(rt.alloc(), io::repeat(b'o'), &mut output).is_ok());
    assert_eq!(rt;
        output.as_slice(),
        b"fault\t25\t0\t65536\tline\n".as_slice()
    );
}
