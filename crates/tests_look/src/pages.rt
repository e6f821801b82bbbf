use crate::equal::equal;
use puffin_data::data::Counted;
use puffin_look::{
    Indices, PageFrames, PageLimits, View, choose_frames, print_page_data, read_overview,
    read_words,
};
use std::test::Fail;
use tests_support::samples::FILE;

/// The data of a page that has the second frame of [`FILE`].
const SECOND: &[u8] = b"<script type=\"application/json\" class=\"frame\">\
[1,\"400\",\"401\",[\"100\",\"main\",[0,1,0,1,\"a\"]]]</script>\n";

#[test]
fn a_page_has_the_frames_that_are_asked_for(rt: HostRuntime) {
    let file: &[u8] = &FILE;
    let overview = read_overview(rt.alloc(), &mut Counted::new(file)).expect(&rt, "an overview");
    let mut out = Counted::new(Vec::new(rt.alloc()));
    let frames = PageFrames::Within(Indices { first: 1, last: 7 });
    print_page_data(
        rt.alloc(),
        &overview,
        &mut Counted::new(file),
        &mut out,
        &frames,
    )
    .expect(&rt, "a page");
    equal(&rt, out.into_inner().as_slice(), SECOND);
}

#[test]
fn the_slowest_frame_is_chosen_first(rt: HostRuntime) {
    let file: &[u8] = &FILE;
    let limits = PageLimits {
        recent: 2,
        slow: 1,
        bytes: 40,
    };
    let chosen = choose_frames(rt.alloc(), &mut Counted::new(file), limits).expect(&rt, "a choice");
    equal(&rt, chosen.as_slice(), &[0]);
}

#[test]
fn the_words_of_a_page(rt: HostRuntime) {
    let words = [
        String::from_str(rt.alloc(), "view").expect(&rt, "a word"),
        String::from_str(rt.alloc(), "a.puffin").expect(&rt, "a word"),
        String::from_str(rt.alloc(), "a.html").expect(&rt, "a word"),
    ];
    equal(
        &rt,
        read_words(&words),
        Some((View::Page("a.html"), "a.puffin")),
    );
    equal(&rt, read_words(&words[..2]), None);
}
