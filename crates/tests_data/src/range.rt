use crate::equal::equal;
use puffin_data::data::is_valid_range;

#[test]
fn a_range_is_ordered_and_its_duration_fits(rt: HostRuntime) {
    for (range, expected) in &[
        ((7, 7), true),
        ((8, 7), false),
        ((0, i64::MAX), true),
        ((-1, i64::MAX), false),
        ((i64::MIN, -1), true),
        ((i64::MIN, 0), false),
    ] {
        equal(&rt, is_valid_range(*range), *expected);
    }
}
