ghost use Rattle.std.specs.Prelude.{◌≡◌, IfOk};
ghost use Rattle.puffin_data.specs.Device.Counting.{failed_calls, failed_reads};

use crate::equal::equal;
use puffin_data::FileError;
use puffin_data::data::{
    Buffered, Counted, Source, read_byte, read_counted_part, read_length, read_part, read_to_end,
    read_up_to,
};
use std::alloc::Global;
use std::io;
use std::io::{BufReader, Read};
use std::process::Abort;

/// Gives the bytes 0, 1, 2 and so on up to an end, at most three at once. Behind its end it fails, where it is to.
#[derive(Drop)]
struct Trickle {
    next: u8,
    end: u8,
    fails: bool,
}

impl Read for Trickle {
    fn read(&mut self, buf: &mut [u8]) -> io::Result<usize> {
        if self.next >= self.end && self.fails {
            return Err(io::Error::from(io::ErrorKind::Interrupted));
        }
        let left = usize::from(self.end.saturating_sub(self.next));
        let count = buf.len().min(3).min(left);
        for slot in &mut buf[..count] {
            *slot = self.next;
            self.next = self.next.saturating_add(1);
        }
        Ok(count)
    }
}

fn source_of(end: u8, fails: bool) -> Counted<Trickle>
    ensures { failed_calls result ≡ 0 }
{
    Counted::new(Trickle {
        next: 0,
        end,
        fails,
    })
}

/// The same bytes, through a buffer of five.
fn buffered(alloc: Global, end: u8, fails: bool) -> io::Result<Buffered<BufReader<Trickle>>>
    ensures { IfOk result (λ source. failed_reads source ≡ 0) }
{
    let trickle = Trickle {
        next: 0,
        end,
        fails,
    };
    Ok(Buffered::new(BufReader::with_capacity(alloc, 5, trickle)?))
}

#[test]
fn a_part_comes_in_small_reads(rt: HostRuntime) {
    let mut source = source_of(12, false);
    equal(&rt, read_byte(&mut source), Ok(0));
    equal(&rt, read_length(&mut source), Ok(0x04030201));
    let part = read_part(rt.alloc(), &mut source, 5).expect(&rt, "a part");
    equal(&rt, part.as_slice(), b"\x05\x06\x07\x08\x09".as_slice());
    let mut piece = [9; 4];
    equal(&rt, read_up_to(&mut source, &mut piece), Ok(2));
    equal(&rt, piece, [10, 11, 9, 9]);
    equal(&rt, Source::faults(&source), 0);
}

#[test]
fn a_part_that_ends_too_early(rt: HostRuntime) {
    let mut source = source_of(5, false);
    equal(
        &rt,
        read_part(rt.alloc(), &mut source, 6).err(),
        Some(FileError::Truncated),
    );
    equal(&rt, read_byte(&mut source), Err(FileError::Truncated));
    equal(
        &rt,
        read_length(&mut source_of(3, false)),
        Err(FileError::Truncated),
    );
}

#[test]
fn a_failure_is_told_and_counted(rt: HostRuntime) {
    let mut source = source_of(5, true);
    equal(
        &rt,
        read_part(rt.alloc(), &mut source, 6).err(),
        Some(FileError::Io),
    );
    equal(&rt, Source::faults(&source), 1);
    equal(&rt, read_up_to(&mut source, &mut [0]), Err(FileError::Io));
    equal(&rt, Source::faults(&source), 2);
}

#[test]
fn a_counted_part(rt: HostRuntime) {
    let mut source = Counted::new(b"\x04\0\0\0data\0\0\0\0\xff\xff\xff\xffa".as_slice());
    let part = read_counted_part(rt.alloc(), &mut source).expect(&rt, "a part");
    equal(&rt, part.as_slice(), b"data".as_slice());
    let empty = read_counted_part(rt.alloc(), &mut source).expect(&rt, "a part");
    assert!(rt; empty.is_empty());
    let lies = read_counted_part(rt.alloc(), &mut source);
    equal(&rt, lies.err(), Some(FileError::Truncated));
}

/// A reader gives these bytes, and then no other part.
fn ends_behind<S: Source>(rt: &(impl AllocGlobal + Abort), source: &mut S, bytes: &[u8])
    requires { S.failures source.old ≡ 0 }
{
    let rest = read_to_end(rt.alloc(), source).expect(rt, "bytes");
    equal(rt, rest.as_slice(), bytes);
    let none = read_part(rt.alloc(), source, 1).err();
    equal(rt, none, Some(FileError::Truncated));
}

/// A reader gives the counted part `data`, and then the byte `b`.
fn from_memory<S: Source>(rt: &(impl AllocGlobal + Abort), source: &mut S)
    requires { S.failures source.old ≡ 0 }
{
    let part = read_counted_part(rt.alloc(), source).expect(rt, "a part");
    equal(rt, part.as_slice(), b"data".as_slice());
    equal(rt, read_byte(source), Ok(b'b'));
}

#[test]
fn a_part_from_a_buffer(rt: HostRuntime) {
    let mut source = buffered(rt.alloc(), 12, false).expect(&rt, "memory");
    equal(&rt, read_byte(&mut source).expect(&rt, "a byte"), 0);
    let part = read_part(rt.alloc(), &mut source, 8).expect(&rt, "a part");
    equal(
        &rt,
        part.as_slice(),
        b"\x01\x02\x03\x04\x05\x06\x07\x08".as_slice(),
    );
    ends_behind(&rt, &mut source, b"\x09\x0a\x0b");
    equal(&rt, Source::faults(&source), 0);
    from_memory(&rt, &mut Buffered::new(b"\x04\0\0\0datab".as_slice()));
}

#[test]
fn a_buffer_that_fails(rt: HostRuntime) {
    let mut source = buffered(rt.alloc(), 5, true).expect(&rt, "memory");
    let part = read_part(rt.alloc(), &mut source, 6);
    equal(&rt, part.err(), Some(FileError::Io));
    equal(&rt, Source::faults(&source), 1);
    equal(&rt, read_byte(&mut source), Err(FileError::Io));
    equal(&rt, Source::faults(&source), 2);
}

#[test]
fn a_part_of_more_than_a_piece(rt: HostRuntime) {
    let mut bytes = Vec::new(rt.alloc());
    bytes.resize(65540, 7).expect(&rt, "memory");
    bytes.push(8).expect(&rt, "memory");
    let mut source = Counted::new(bytes.as_slice());
    let part = read_part(rt.alloc(), &mut source, 65540).expect(&rt, "a part");
    equal(&rt, part.len(), 65540);
    assert!(rt; part.iter().all(|byte| *byte == 7));
    equal(&rt, read_byte(&mut source), Ok(8));
}
