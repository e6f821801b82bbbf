ghost use Rattle.std.specs.Prelude.{◌≡◌};

use crate::equal::equal;
use puffin_data::data::{Buffered, Counted, Drain, Source};
use std::io;
use std::io::{BufReader, Read, Write};

/// Gives or takes one byte, then fails once, and so on.
#[derive(Drop)]
struct Flaky {
    fails: bool,
}

impl Flaky {
    fn turn(&mut self) -> io::Result<()> {
        self.fails = !self.fails;
        if self.fails {
            Ok(())
        } else {
            Err(io::Error::from(io::ErrorKind::BrokenPipe))
        }
    }
}

impl Read for Flaky {
    fn read(&mut self, buf: &mut [u8]) -> io::Result<usize> {
        self.turn()?;
        match buf.first_mut() {
            Some(place) => {
                *place = 7;
                Ok(1)
            }
            None => Ok(0),
        }
    }
}

impl Write for Flaky {
    fn write(&mut self, buf: &[u8]) -> io::Result<usize> {
        self.turn()?;
        Ok(buf.len().min(1))
    }

    fn flush(&mut self) -> io::Result<()> {
        Ok(())
    }
}

/// Two reads, whatever the reader.
fn read_twice<S: Source>(source: &mut S, buf: &mut [u8]) -> (Option<usize>, Option<usize>)
    requires { S.failures source.old ≡ 0 }
{
    (source.read(buf).ok(), source.read(buf).ok())
}

/// Two writes, whatever the writer.
fn write_twice<D: Drain>(drain: &mut D, buf: &[u8]) -> (Option<usize>, Option<usize>)
    requires { D.failures drain.old ≡ 0 }
{
    (drain.write(buf).ok(), drain.write(buf).ok())
}

#[test]
fn failures_of_reads_are_counted(rt: HostRuntime) {
    let mut buf = [0; 4];
    let mut memory = Counted::new(b"abcdef".as_slice());
    equal(&rt, read_twice(&mut memory, &mut buf), (Some(4), Some(2)));
    equal(&rt, buf, *b"efcd");
    equal(&rt, memory.faults(), 0);
    let mut source = Counted::new(Flaky { fails: false });
    equal(&rt, read_twice(&mut source, &mut buf), (Some(1), None));
    equal(&rt, buf, *b"\x07fcd");
    equal(&rt, Source::faults(&source), 1);
}

#[test]
fn failures_of_writes_are_counted(rt: HostRuntime) {
    let mut drain = Counted::new(Flaky { fails: false });
    equal(&rt, write_twice(&mut drain, b"ab"), (Some(1), None));
    equal(&rt, Drain::faults(&drain), 1);
}

#[test]
fn a_counted_vector_keeps_what_was_written(rt: HostRuntime) {
    let mut file = Counted::new(Vec::new(rt.alloc()));
    equal(&rt, write_twice(&mut file, b"ab"), (Some(2), Some(2)));
    equal(&rt, file.faults(), 0);
    equal(&rt, file.into_inner().as_slice(), b"abab".as_slice());
}

/// Fails with another kind of error each time.
#[derive(Drop)]
struct Failing {
    found: bool,
}

impl Read for Failing {
    fn read(&mut self, _buf: &mut [u8]) -> io::Result<usize> {
        self.found = !self.found;
        Err(io::Error::from(if self.found {
            io::ErrorKind::NotFound
        } else {
            io::ErrorKind::BrokenPipe
        }))
    }
}

#[test]
fn the_last_error_is_told(rt: HostRuntime) {
    let mut source = Counted::new(Failing { found: false });
    equal(&rt, source.last_error().is_none(), true);
    equal(&rt, read_twice(&mut source, &mut [0]), (None, None));
    let last = source.last_error().expect(&rt, "an error");
    equal(&rt, last.kind(), io::ErrorKind::BrokenPipe);
    let failing = Failing { found: false };
    let mut source = Buffered::new(BufReader::with_capacity(rt.alloc(), 4, failing).expect(
        &rt, "memory",
    ));
    equal(&rt, source.last_error().is_none(), true);
    let mut bytes = Vec::new(rt.alloc());
    equal(&rt, source.read_to_len(&mut bytes, 2).is_err(), true);
    let last = source.last_error().expect(&rt, "an error");
    equal(&rt, last.kind(), io::ErrorKind::NotFound);
}
