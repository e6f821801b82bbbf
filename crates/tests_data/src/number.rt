use crate::equal::equal;
use puffin_data::parse_number;

#[test]
fn a_number_has_digits_alone(rt: HostRuntime) {
    for (word, number) in &[
        ("0", Some(0)),
        ("007", Some(7)),
        ("18446744073709551615", Some(u64::MAX)),
        ("18446744073709551616", None),
        ("", None),
        ("+1", None),
        ("-1", None),
        ("1 ", None),
    ] {
        equal(&rt, parse_number(word), *number);
    }
}
