//! Shares and the tokens of a history have no bytes.

use crate::equal::equal;
use history::{Author, Log};
use puffin::global_profiler::{Event, NewLog, Share, SharedProfiler};
use std::marker::Brand;
use std::mem::size_of;

#[test]
fn shares_and_tokens_have_no_bytes(rt: HostRuntime) {
    equal(&rt, size_of::<NewLog<Event>>(), 0);
    equal(&rt, size_of::<Log<Event, Brand>>(), 0);
    equal(&rt, size_of::<Author<Event, Brand>>(), 0);
    equal(&rt, size_of::<Share<Brand, Brand>>(), 0);
    equal(&rt, size_of::<SharedProfiler<Brand, Brand>>(), 8);
}
