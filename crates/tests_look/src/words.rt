use crate::equal::equal;
use puffin_look::{By, Form, Indices, Options, View, order_of, range, read_words, take_options};
use std::test::Fail;

#[test]
fn words_name_what_is_shown(rt: HostRuntime) -> Result<(), Fail> {
    let alloc = rt.alloc();
    let words = [
        String::from_str(alloc, "frames")?,
        String::from_str(alloc, "a.puffin")?,
    ];
    equal(
        &rt,
        read_words(&words),
        Some((View::Frames(None), "a.puffin")),
    );
    equal(&rt, read_words(&words[..1]), None);
    let words = [
        String::from_str(alloc, "frame")?,
        String::from_str(alloc, "a.puffin")?,
        String::from_str(alloc, "7")?,
        String::from_str(alloc, "-:main")?,
    ];
    let frame = View::Frame(7, Some("-:main"));
    equal(&rt, read_words(&words), Some((frame, "a.puffin")));
    equal(&rt, read_words(&words[..2]), None);
    Ok(())
}

#[test]
fn options_are_taken_from_the_words(rt: HostRuntime) -> Result<(), Fail> {
    let alloc = rt.alloc();
    let mut words = vec![in alloc;
        String::from_str(alloc, "top")?,
        String::from_str(alloc, "a.puffin")?,
        String::from_str(alloc, "--frames")?,
        String::from_str(alloc, "3..5")?,
        String::from_str(alloc, "--by")?,
        String::from_str(alloc, "max")?,
    ]?;
    let options = Options {
        frames: Some(Indices { first: 3, last: 4 }),
        order: Some(By::Greatest),
        limit: None,
        texts: false,
        fail_above: None,
        form: Form::Table,
    };
    equal(&rt, take_options(&mut words), Some(options));
    equal(&rt, options.are_taken_by(View::Top(None)), true);
    equal(&rt, options.are_taken_by(View::Trace), false);
    equal(&rt, words.len(), 2);
    equal(&rt, order_of("most"), None);
    equal(&rt, range("5..5"), None);
    Ok(())
}

#[test]
fn json_is_taken_by_what_prints_rows(rt: HostRuntime) -> Result<(), Fail> {
    let alloc = rt.alloc();
    let mut words = vec![in alloc;
        String::from_str(alloc, "diff")?,
        String::from_str(alloc, "a.puffin")?,
        String::from_str(alloc, "b.puffin")?,
        String::from_str(alloc, "--json")?,
    ]?;
    let options = take_options(&mut words).expect(&rt, "options");
    equal(&rt, options.form, Form::Json);
    equal(&rt, words.len(), 3);
    let views = [
        View::Threads,
        View::Frames(None),
        View::Slowest(1),
        View::SlowFrames(1),
        View::Top(None),
        View::Diff("b.puffin", None),
    ];
    for view in &views {
        equal(&rt, options.are_taken_by(*view), true);
    }
    let others = [
        View::Frame(0, None),
        View::Trace,
        View::Folded(None),
        View::Page("a.html"),
    ];
    for view in &others {
        equal(&rt, options.are_taken_by(*view), false);
    }
    Ok(())
}
