// A reader and a writer that fail in mid-stream.
use scenario::StreamError;
use sheets::print_run_sheet;
use std::io;
use std::io::{ErrorKind, Read};

static TEXT: &[u8] = b"rig\t1\t1\tlines\no\t0";

static SHEET: &[u8] = b"o\t0\t0\t1\ncell\t0\t0\n";

#[derive(Drop)]
struct Broken;

impl Read for Broken {
    fn read(&mut self, _buf: &mut [u8]) -> io::Result<usize> {
        Err(io::Error::from(ErrorKind::ConnectionReset))
    }
}

#[test]
fn reader_fails(rt: HostRuntime) {
    let mut output = Vec::new(rt.alloc());
    let Err(StreamError::NotRead(e)) = print_run_sheet(rt.alloc(), TEXT.chain(Broken), &mut output)
    else {
        panic!(rt; "all was read");
    };
    assert!(rt; e.kind() == ErrorKind::ConnectionReset);
    assert!(rt; output.is_empty());
}

// A slice takes what it has room for, and then no byte.
#[test]
fn writer_fails(rt: HostRuntime) {
    for size in 0..=SHEET.len() {
        let mut held = [0u8; 32];
        let mut room = &mut held[..size];
        let written = print_run_sheet(rt.alloc(), TEXT, &mut room);
        let full =
            matches!(&written, Err(StreamError::NotWritten(e)) if e.kind() == ErrorKind::WriteZero);
        assert_eq!(rt; full, size < SHEET.len());
        assert_eq!(rt; written.is_ok(), size == SHEET.len());
        assert_eq!(rt; &held[..size], &SHEET[..size]);
    }
}
