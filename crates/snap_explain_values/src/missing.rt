//! The redaction that hits nothing.
ghost use Rattle.std.specs.Prelude.{◌≡◌, IfOk};
ghost use Rattle.snap_content.specs.View.{tree};
ghost use Rattle.snap_assert_settings.specs.Replaced.{replacements_of};
ghost use Rattle.snap_explain_values.specs.Missed.{first_missed};

use crate::hitting::is_hit;
use snap_content::{Content, OutOfMemory};
use snap_select::{Replacement, Selector};
use std::alloc::Global;

/// The place, from 0, of the first of these redactions that hits nothing in the value as it is given: whatever it put, the value would
/// stay as it is. None where each hits something.
pub fn first_missed(
    alloc: Global,
    redactions: &[(Selector<'static>, Replacement)],
    value: &Content,
) -> Result<Option<usize>, OutOfMemory>
    ensures { IfOk result (λ found. found
        ≡ first_missed (replacements_of redactions.now) (tree value.now)) }
{
    for (place, redaction) in redactions.iter().enumerate() {
        if !is_hit(alloc, &redaction.0, value)? {
            return Ok(Some(place));
        }
    }
    Ok(None)
}
