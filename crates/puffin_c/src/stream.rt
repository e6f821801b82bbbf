//! Counts the scopes of a stream.

ghost use Rattle.std.specs.Prelude.{◌≡◌};
ghost use Rattle.puffin_c.specs.Faults.{Returns};
ghost use Rattle.puffin_c.specs.Counting.{IsCounted, form_given};

use crate::count::PuffinCount;
use crate::fault::{Fault, answer_code};
use puffin_data::data::{Form, walk_forest};
use std::alloc::Global;

/// Returns the form with long or with short texts.
pub(crate) fn form_of(long_texts: bool) -> Form
    ensures { result ≡ form_given long_texts }
{
    if long_texts { Form::Long } else { Form::Short }
}

/// Walks over the bytes, and sets the counts.
fn count_scopes(
    alloc: Global,
    bytes: &[u8],
    form: Form,
    count: &mut PuffinCount,
) -> Result<(), Fault>
    ensures { IsCounted form bytes.now count.old count.new result }
{
    let mut tries = 0;
    let walk = walk_forest(alloc, form, bytes, &mut tries)?;
    count.scopes = walk.num_scopes as u64;
    count.depth = walk.depth as u64;
    (count.start_ns, count.stop_ns) = walk.range_ns;
    Ok(())
}

/// Counts the scopes of a stream of any origin. The length of each text takes one byte, or up to two bytes if `long_texts` is
/// set.
///
/// Fails with the first fault in the bytes, or with `Memory`. Nothing changes then.
#[tactic(auto, using(crate::proofs::Causes::count_named))]
#[unsafe(no_mangle)]
pub extern "C" fn puffin_count(
    alloc: Global,
    bytes: &[u8],
    long_texts: bool,
    count: &mut PuffinCount,
) -> u32
    ensures { Returns result (IsCounted (form_given long_texts) bytes.now count.old count.new) }
{
    let answer = count_scopes(alloc, bytes, form_of(long_texts), count);
    answer_code(answer)
}
