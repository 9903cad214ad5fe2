//! What a JSON text may begin with. The reader of lines is one of YAML, to which a log's prefix, a tab or a byte order mark makes one
//! plain text of the whole line: such a line would go out as a text, with all that the rules were to mask in it. To it `---` begins
//! a document, so that a line of that alone would go out as null.
ghost use Rattle.std.specs.Prelude.{◌≡◌, Option};
ghost use Rattle.std.specs.Str.{chars};
ghost use Rattle.snap_content.specs.View.{tree};
ghost use Rattle.snap_mask.specs.Beginning.{beginning_at, beginning_in, beginning_of, digit_in_front};

use snap_content::Content;
use snap_content::characters::split_first;

/// What a JSON text is, by what it begins with.
#[derive(Clone, Copy, Debug, PartialEq, Eq)]
pub enum Beginning {
    Object,
    List,
    Quoted,
    /// A digit, or a minus before one.
    Number,
    True,
    False,
    Null,
}

fn digit_in_front(text: &str) -> bool
    ensures { result ≡ digit_in_front (chars text.now) }
{
    match split_first(text) {
        Some(('0'..='9', _)) => true,
        _ => false,
    }
}

/// How a text begins without blanks in front, by its first character and what follows.
fn beginning_at(character: char, rest: &str) -> Option<Beginning>
    ensures { result ≡ beginning_at character (chars rest.now) }
{
    match character {
        '{' => Some(Beginning::Object),
        '[' => Some(Beginning::List),
        '"' => Some(Beginning::Quoted),
        't' => Some(Beginning::True),
        'f' => Some(Beginning::False),
        'n' => Some(Beginning::Null),
        '0'..='9' => Some(Beginning::Number),
        '-' => {
            if digit_in_front(rest) {
                Some(Beginning::Number)
            } else {
                None
            }
        }
        _ => None,
    }
}

/// How a text begins after its blanks, if a JSON text can begin so.
pub fn beginning_in(text: &str) -> Option<Beginning>
    ensures { result ≡ beginning_in (chars text.now) }
{
    let mut rest = text;
    'blanks: loop {
        match split_first(rest) {
            None => return None,
            Some((' ', more)) => rest = more,
            Some((character, more)) => return beginning_at(character, more),
        }
    }
}

/// How the JSON text of a value begins, which a text was read as.
pub fn beginning_of(value: &Content) -> Beginning
    ensures { result ≡ beginning_of (tree value.now) }
{
    match value {
        Content::Map(_) => Beginning::Object,
        Content::Seq(_) => Beginning::List,
        Content::String(_) => Beginning::Quoted,
        Content::Bool(true) => Beginning::True,
        Content::Bool(false) => Beginning::False,
        Content::None | Content::Unit => Beginning::Null,
        _ => Beginning::Number,
    }
}
