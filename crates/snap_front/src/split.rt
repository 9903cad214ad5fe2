//! Documents, split into their header and their body.
ghost use Rattle.std.specs.Prelude.{◌≡◌, option_map};
ghost use Rattle.std.specs.Str.{chars};
ghost use Rattle.snap_front.specs.Split.{front_read};

use snap_content::characters::before_rest;
use snap_str::lines::next_ended_line;
use snap_text_literals::normal::is_fence;

/// The header of a document and its body; none where it has no header. The first line of a header is `---` but for white space at its
/// end, and it ends before the next such line. The body is all that follows that line, character by character.
pub fn front_read(text: &str) -> Option<(&str, &str)>
    ensures { option_map (λ parts. (chars parts.0.now, chars parts.1.now)) result
        ≡ front_read (chars text.now) }
{
    let Some((first, rest)) = next_ended_line(text) else {
        return None;
    };
    if !is_fence(first) {
        return None;
    }
    let mut rest = rest;
    while let Some((line, more)) = next_ended_line(rest) {
        if is_fence(line) {
            return Some((before_rest(text, rest), more));
        }
        rest = more;
    }
    None
}
