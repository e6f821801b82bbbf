use crate::equal::equal;
use puffin_data::Error;
use std::io;

#[test]
fn each_error_has_a_number_and_a_name(rt: HostRuntime) {
    for (error, number, text) in &[
        (Error::PrematureEnd, 1, "PrematureEnd"),
        (Error::InvalidStream, 2, "InvalidStream"),
        (Error::ScopeNeverEnded, 3, "ScopeNeverEnded"),
        (Error::InvalidOffset, 4, "InvalidOffset"),
        (Error::Empty, 5, "Empty"),
        (Error::TooLarge, 6, "TooLarge"),
        (Error::RangeTooLong, 7, "RangeTooLong"),
        (Error::MismatchedEnd, 8, "MismatchedEnd"),
        (Error::ScopesOpen, 9, "ScopesOpen"),
        (Error::MissingId, 10, "MissingId"),
        (Error::IdsExhausted, 11, "IdsExhausted"),
        (Error::IndexExhausted, 12, "IndexExhausted"),
        (Error::SinkIdsExhausted, 13, "SinkIdsExhausted"),
        (Error::TooDeep, 14, "TooDeep"),
        (Error::NoThread, 15, "NoThread"),
        (Error::Memory, 16, "Memory"),
        (Error::UnlikeForms, 17, "UnlikeForms"),
    ] {
        equal(&rt, error.number(), *number);
        equal(&rt, error.name(), *text);
        equal(
            &rt,
            error.to_string(rt.alloc()).expect(&rt, "memory").as_str(),
            *text,
        );
    }
}

#[test]
fn a_cause_becomes_an_error_of_the_system(rt: HostRuntime) {
    let memory = io::Error::from(Error::Memory);
    equal(&rt, memory.kind(), io::ErrorKind::OutOfMemory);
    let deep = io::Error::from(Error::TooDeep);
    equal(&rt, deep.kind(), io::ErrorKind::Other);
    equal(
        &rt,
        deep.to_string(rt.alloc()).expect(&rt, "memory").as_str(),
        "TooDeep",
    );
}
