use crate::equal::equal;
use puffin::wire::{Cursor, put_u64};
use puffin::{FrameIndex, data, frame_data};
use std::process::Abort;

#[test]
fn what_the_crates_below_hold_stands_here_again(rt: HostRuntime) {
    let index: FrameIndex = 300;
    let mut bytes = Vec::new(rt.alloc());
    put_u64(&mut bytes, index).expect(&rt, "memory");
    equal(&rt, bytes.as_slice(), b"\xfb\x2c\x01".as_slice());
    let mut cursor = Cursor::new(&bytes);
    let same: Option<frame_data::FrameIndex> = cursor.u64();
    equal(&rt, same, Some(index));
    assert!(rt; data::Stream::new(rt.alloc()).is_empty());
}
