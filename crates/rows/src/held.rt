//! What a collection on a line holds: the last of the values before it.
ghost use Rattle.std.specs.Prelude.{◌≡◌, ◌++◌, ◌∷◌, [], length, IfOk, IfSome};
ghost use Rattle.std.specs.List.{flat_map};
ghost use Rattle.std.specs.Str.Parse.{digits_value, without_leading_plus};

use snap_content::OutOfMemory;
use std::alloc::Global;

/// The last values, as many as the digits say, if there are so many.
pub(crate) fn last_values<T>(held: &mut Vec<T>, digits: &str) -> Result<Option<Vec<T>>, OutOfMemory>
    ensures last { IfOk result (λ found. IfSome found (λ values. held.old.items ≡ held.new.items ++ values.items)) }
    ensures count { IfOk result (λ found. IfSome found
        (λ values. length values.items ≡ digits_value 10 (without_leading_plus digits.now))) }
{
    let Ok(count) = digits.parse::<usize>() else {
        return Ok(None);
    };
    if count > held.len() {
        return Ok(None);
    }
    Ok(Some(held.split_off(held.len() - count)?))
}

/// The last values two by two, as many pairs as the digits say, if there are so many.
pub(crate) fn last_pairs<T: Drop>(
    alloc: Global,
    held: &mut Vec<T>,
    digits: &str,
) -> Result<Option<Vec<(T, T)>>, OutOfMemory>
    ensures last { IfOk result (λ found. IfSome found
        (λ pairs. held.old.items ≡ held.new.items ++ flat_map (λ p. p.0 ∷ p.1 ∷ []) pairs.items)) }
    ensures count { IfOk result (λ found. IfSome found
        (λ pairs. length pairs.items ≡ digits_value 10 (without_leading_plus digits.now))) }
{
    let Ok(count) = digits.parse::<u32>() else {
        return Ok(None);
    };
    let mut pairs = Vec::new(alloc);
    for _pair in 0..count {
        let Some(second) = held.pop() else {
            return Ok(None);
        };
        let Some(first) = held.pop() else {
            return Ok(None);
        };
        pairs.push((first, second))?;
    }
    pairs.reverse();
    Ok(Some(pairs))
}
