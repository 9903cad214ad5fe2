//! What stands after the front of a text.
ghost use Rattle.std.specs.Prelude.{◌≡◌, None, Some, MatchOption, IsTrue};
ghost use Rattle.std.specs.Char.{is_ascii};
ghost use Rattle.std.specs.List.{list_all};
ghost use Rattle.std.specs.Str.{chars};
ghost use Rattle.snap_path.specs.Names.{past_mark};

use snap_str::cut::strip_prefix;

/// What follows the front, where the text begins with it.
pub fn behind<'a>(text: &'a str, front: &str) -> Option<&'a str>
    ensures { MatchOption result (past_mark (chars front.now) (chars text.now) ≡ None)
        (λ rest. past_mark (chars front.now) (chars text.now) ≡ Some (chars rest.now)) }
{
    strip_prefix(text, front)
}

/// The same for a front of ASCII characters, as a literal is.
pub fn behind_ascii<'a>(text: &'a str, front: &str) -> Option<&'a str>
    requires { IsTrue (list_all is_ascii front.now) }
    ensures { MatchOption result (past_mark front.now (chars text.now) ≡ None)
        (λ rest. past_mark front.now (chars text.now) ≡ Some (chars rest.now)) }
{
    behind(text, front)
}
