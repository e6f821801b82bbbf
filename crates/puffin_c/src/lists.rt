//! Lists that a program gets as far as there is room: rows, and the bytes of their texts.

ghost use Rattle.std.specs.Prelude.{◌≡◌, length};
ghost use Rattle.puffin_c.specs.Reporting.{laid_over};

use crate::unread::lay_over;

/// Copies rows and bytes to the front of a program's, as many of each as fit, and returns how many there are.
pub(crate) fn give<T: Copy>(
    rows: &[T],
    bytes: &[u8],
    out_rows: &mut [T],
    out_bytes: &mut [u8],
) -> (u64, u64)
    ensures rows { out_rows.new ≡ laid_over out_rows.old rows.now }
    ensures bytes { out_bytes.new ≡ laid_over out_bytes.old bytes.now }
    ensures numbers { result ≡ (length rows.now, length bytes.now) }
{
    lay_over(rows, out_rows);
    lay_over(bytes, out_bytes);
    (rows.len() as u64, bytes.len() as u64)
}
