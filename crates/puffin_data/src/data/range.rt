ghost use Rattle.std.specs.Prelude.{◌≡◌, ◌-ℤ◌, ◌≤ℤ◌, FitsSigned, false, IsTrue};
ghost use Rattle.std.specs.Int.{w64};
ghost use Rattle.puffin_data.specs.Range.{is_valid_range_at};

use crate::error::NanoSecond;

/// Returns whether a range isn't reversed and its duration fits `i64`.
#[inline]
pub fn is_valid_range(range: (NanoSecond, NanoSecond)) -> bool
    ensures test { result ≡ is_valid_range_at range.0 range.1 }
    ensures ordered { IsTrue result → range.0 ≤ℤ range.1 }
    ensures duration_fits { IsTrue result → FitsSigned w64 (range.1 -ℤ range.0) }
    // A range that isn't reversed is refused only if it is too long.
    ensures too_long { result ≡ false → range.0 ≤ℤ range.1 → ¬ FitsSigned w64 (range.1 -ℤ range.0) }
{
    let (start, stop) = range;
    start <= stop && stop.wrapping_sub(start) >= 0
}
