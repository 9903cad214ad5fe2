//! Steps of a path that are lent.
ghost use Rattle.std.specs.Prelude.{◌≡◌};
ghost use Rattle.std.specs.Str.{chars, bytes_eq};
ghost use Rattle.snap_select.specs.Matching.{lent_step, is_named, is_numbered, range_check, bound_at};

use snap_content::Content;

/// One step of a path, as `PathItem`, where what it goes by stays where it is.
#[derive(Clone, Copy, Drop)]
pub(crate) enum StepRef<'a> {
    /// The value under this key of a map.
    Key(&'a Content),
    /// The field of this name.
    Field(&'a str),
    /// The item of a list at the first number, counted from 0. The list has as many items as the second says.
    Item(u64, u64),
}

/// Where a bound stands in a list of that many items: a bound below zero counts from the end.
fn bound_at(bound: i64, length: u64) -> u64
    ensures { result ≡ bound_at bound length }
{
    if bound < 0 {
        length.saturating_sub(bound.unsigned_abs())
    } else {
        bound.unsigned_abs()
    }
}

/// Whether both are one text.
pub fn is_same_text(left: &str, right: &str) -> bool
    ensures { result ≡ bytes_eq (chars left.now) (chars right.now) }
{
    left == right
}

impl StepRef<'_> {
    /// Whether this is the field of that name, or a text key that is it.
    pub(crate) fn is_named(self, name: &str) -> bool
        ensures { result ≡ is_named (chars name.now) (lent_step self.entry) }
    {
        match self {
            StepRef::Key(key) => match key.as_str() {
                Some(text) => is_same_text(text, name),
                None => false,
            },
            StepRef::Field(field) => is_same_text(field, name),
            StepRef::Item(_, _) => false,
        }
    }

    /// Whether this is the item at that position, or a key that is the number.
    pub(crate) fn is_numbered(self, number: u64) -> bool
        ensures { result ≡ is_numbered number (lent_step self.entry) }
    {
        match self {
            StepRef::Key(key) => match key.as_u64() {
                Some(value) => value == number,
                None => false,
            },
            StepRef::Field(_) => false,
            StepRef::Item(index, _) => index == number,
        }
    }

    /// Whether this is an item of a list, from the first bound up to the second, which isn't counted.
    pub(crate) fn range_check(self, from: Option<i64>, to: Option<i64>) -> bool
        ensures { result ≡ range_check from to (lent_step self.entry) }
    {
        let StepRef::Item(index, length) = self else {
            return false;
        };
        let begun = match from {
            None => true,
            Some(bound) => bound_at(bound, length) <= index,
        };
        let unended = match to {
            None => true,
            Some(bound) => index < bound_at(bound, length),
        };
        begun && unended
    }
}
