//! The name of a path after the front that a folder's files share.
ghost use Rattle.std.specs.Prelude.{◌≡◌, ◌≢◌, ◌==◌, ◌++◌, ◌↔◌, ℕ, List, IsTrue, MatchOption};
ghost use Rattle.std.specs.List.{list_any};
ghost use Rattle.std.specs.Str.{chars};
ghost use Rattle.snap_path.specs.Paths.{IsName, is_component};

use snap_content::characters::is_same;

fn has_slash(text: &str) -> bool
    ensures { result ≡ list_any (λ c. c == 47) (chars text.now) }
{
    text.chars().any(|c| c == '/')
}

/// Neither empty nor a dot.
fn is_part(text: &str) -> bool
    ensures { result ≡ is_component (chars text.now) }
{
    !is_same(text, "") && !is_same(text, ".")
}

/// Whether the text is a name of one component.
pub fn is_name(text: &str) -> bool
    ensures { IsTrue result ↔ IsName (chars text.now) }
{
    is_part(text) && !has_slash(text)
}

/// What follows the front, where the text begins with it.
fn behind<'a>(text: &'a str, front: &str) -> Option<&'a str>
    ensures { MatchOption result ((rest : List ℕ) → chars text.now ≢ chars front.now ++ rest)
        (λ rest. chars text.now ≡ chars front.now ++ chars rest.now) }
{
    match text.strip_prefix(front) {
        Some(rest) => Some(rest),
        None => None,
    }
}

/// What follows the front, where it is a name.
pub fn name_behind<'a>(path: &'a str, front: &str) -> Option<&'a str>
    ensures { MatchOption result
        ((name : List ℕ) → IsName name → chars path.now ≢ chars front.now ++ name)
        (λ name. IsName (chars name.now) × (chars path.now ≡ chars front.now ++ chars name.now)) }
{
    let name = behind(path, front)?;
    if is_name(name) { Some(name) } else { None }
}
