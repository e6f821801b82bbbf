use crate::equal::equal;
use puffin_data::{Error, FileError};

#[test]
fn each_file_error_has_a_number_and_a_text(rt: HostRuntime) {
    for (error, number, text) in &[
        (FileError::Io, 1, "Io"),
        (FileError::NoMagic, 2, "NoMagic"),
        (FileError::Truncated, 3, "Truncated"),
        (FileError::Legacy, 4, "Legacy"),
        (FileError::Newer, 5, "Newer"),
        (FileError::UnknownKind(3), 6, "UnknownKind 3"),
        (FileError::Compressed(2), 7, "Compressed 2"),
        (FileError::BadMeta, 8, "BadMeta"),
        (FileError::BadStreams, 9, "BadStreams"),
        (FileError::BadScopes, 10, "BadScopes"),
        (FileError::BadRange, 11, "BadRange"),
        (FileError::PartTooLong, 12, "PartTooLong"),
        (
            FileError::Refused(Error::MissingId),
            13,
            "Refused MissingId",
        ),
        (FileError::Memory, 14, "Memory"),
    ] {
        equal(&rt, error.number(), *number);
        equal(
            &rt,
            error.to_string(rt.alloc()).expect(&rt, "memory").as_str(),
            *text,
        );
    }
}
