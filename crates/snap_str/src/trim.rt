//! A text without the white space at its ends.
ghost use Rattle.std.specs.Prelude.{◌≡◌};
ghost use Rattle.std.specs.Str.{chars, drop_trailing_whitespace, skip_leading_whitespace};

/// The text without the white space at its start.
pub fn trim_start(text: &str) -> &str
    ensures { chars result.now ≡ skip_leading_whitespace (chars text.now) }
{
    text.trim_start()
}

/// The text without the white space at its end.
pub fn trim_end(text: &str) -> &str
    ensures { chars result.now ≡ drop_trailing_whitespace (chars text.now) }
{
    text.trim_end()
}
