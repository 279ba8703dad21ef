//! Sources and sinks over readers and writers of std, as those of the command are.
use sal_io::{Gate, OpenGate, Source, StdSink, StdSource, read_all, write_all};
use std::alloc::Global;
use std::io;
use std::io::{Read, Write};
use std::test::Fail;

// A reader that fails at once, and a writer that takes some bytes a call and fails after this many flushes.
#[derive(Drop)]
struct Broken;

impl Read for Broken {
    fn read(&mut self, _buf: &mut [u8]) -> io::Result<usize> {
        Err(io::Error::from(io::ErrorKind::Other))
    }
}

#[derive(Drop)]
struct Slow {
    takes: usize,
    flushes: u32,
}

impl Write for Slow {
    fn write(&mut self, buf: &[u8]) -> io::Result<usize> {
        Ok(buf.len().min(self.takes))
    }

    fn flush(&mut self) -> io::Result<()> {
        if self.flushes == 0 {
            return Err(io::Error::from(io::ErrorKind::Other));
        }
        self.flushes -= 1;
        Ok(())
    }
}

fn is_text_read(alloc: Global) -> bool {
    match read_all(alloc, &mut StdSource::new("text".as_bytes()), 4) {
        Ok(bytes) => bytes.as_slice() == "text".as_bytes(),
        Err(_) => false,
    }
}

fn is_fault_told(alloc: Global) -> bool {
    let told = read_all(alloc, &mut StdSource::new(Broken), 4);
    told.is_err()
}

fn is_vector_written(alloc: Global) -> bool {
    let mut written = Vec::new(alloc);
    let told = write_all(&mut StdSink::new(&mut written), b"text");
    told.is_ok() && written.as_slice() == "text".as_bytes()
}

#[test]
fn readers_and_vectors_serve(rt: HostRuntime) -> Result<(), Fail> {
    let alloc = rt.alloc();
    if !is_text_read(alloc) || !is_fault_told(alloc) || !is_vector_written(alloc) {
        return Err("a reader or a vector".into());
    }
    Ok(())
}

// Whether a text is written, by how many bytes a writer takes a call, and how many flushes succeed.
fn is_written(takes: usize, flushes: u32) -> bool {
    write_all(&mut StdSink::new(Slow { takes, flushes }), b"text").is_ok()
}

// Each call is flushed; one that takes no byte is a fault.
#[test]
fn a_slow_writer_is_flushed(rt: HostRuntime) -> Result<(), Fail> {
    if !is_written(1, 4) || !is_written(9, 1) || is_written(1, 3) || is_written(0, 9) {
        return Err("a slow writer".into());
    }
    Ok(())
}

// The streams of the system, without a byte.
#[test]
fn standard_streams_serve(rt: HostRuntime) -> Result<(), Fail> {
    let mut input = StdSource::new(rt.stdin());
    let mut output = StdSink::new(rt.stdout());
    if input.read(&mut []) != Ok(0) || write_all(&mut output, b"text\n").is_err() {
        return Err("the standard streams".into());
    }
    OpenGate.pass(0, 0);
    Ok(())
}
