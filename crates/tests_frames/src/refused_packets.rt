use crate::equal::equal;
use crate::long_packets::LONG_PACKET;
use crate::packets::{fault_of_streams, held, is_written, read, read_one};
use puffin_data::FileError;
use std::alloc::Global;
use std::process::Abort;
use tests_support::samples::PACKET;

/// Why bytes aren't read.
fn refusal(alloc: Global, bytes: &[u8]) -> Option<FileError> {
    read(alloc, bytes).err()
}

#[test]
fn each_beginning_of_a_packet_is_cut_short(rt: HostRuntime) {
    for end in 4..75 {
        let front = PACKET.get(..end).map(|front| refusal(rt.alloc(), front));
        equal(&rt, front, Some(Some(FileError::Truncated)));
    }
}

/// Checks that a packet with this byte at a place is read and kept packed, that its streams aren't unpacked for this fault,
/// and that it is written as it was read.
fn is_read_and_not_unpacked(
    rt: &impl Abort,
    packet: Vec<u8>,
    (place, byte): (usize, u8),
    fault: FileError,
) {
    let alloc = *packet.allocator();
    let mut packet = packet;
    *packet.get_mut(place).expect(rt, "a byte") = byte;
    let mut frame = read_one(alloc, &packet).expect(rt, "a frame");
    equal(
        rt,
        (frame.range_ns(), held(&frame)),
        ((100, 300), (true, false)),
    );
    equal(
        rt,
        (place, byte, fault_of_streams(&mut frame)),
        (place, byte, Some(fault)),
    );
    equal(rt, held(&frame), (true, false));
    is_written(rt, alloc, &frame, &packet);
}

#[test]
fn streams_that_are_read_are_refused_when_they_are_unpacked(rt: HostRuntime) {
    let cases: [(&[u8], (usize, u8), FileError); 5] = [
        (&PACKET, (19, 2), FileError::Compressed(2)),
        (&PACKET, (20, 2), FileError::BadStreams),
        (&PACKET, (20, 0), FileError::BadStreams),
        (&LONG_PACKET, (28, 2), FileError::BadStreams),
        (&LONG_PACKET, (28, 0), FileError::BadStreams),
    ];
    for (packet, change, fault) in cases {
        is_read_and_not_unpacked(
            &rt,
            Vec::from_slice(rt.alloc(), packet).expect(&rt, "memory"),
            change,
            fault,
        );
    }
}
