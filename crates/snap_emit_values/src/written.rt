//! How many characters a scalar is written with, found without writing it.
ghost use Rattle.std.specs.Prelude.{true, [], ◌∷◌, pos, ◌≡◌, ◌≤◌, ◌<◌, ◌^◌, length};
ghost use Rattle.std.specs.Fmt.{signed_decimal};
ghost use Rattle.std.specs.Str.{chars};
ghost use Rattle.snap_print.specs.Spell.{escaped, quoted, spell_text};
ghost use Rattle.snap_emit_values.specs.Nodes.{node_shape};
ghost use Rattle.snap_emit_values.specs.Shape.{is_simple, spelled, shape_of};

use crate::node::Node;
use crate::scalars::char_text;
use itoa::Buffer;
use snap_content::characters::split_first;
use snap_print::need_quotes;
use snap_yaml::Yaml;

/// How many characters stand between double quotes for a character.
fn escaped_len(c: char) -> u128
    ensures value { result ≡ length (escaped c) }
    ensures short { result ≤ 6 }
{
    match c {
        '"' | '\\' | '\u{8}' | '\t' | '\n' | '\u{c}' | '\r' => 2,
        '\0'..='\u{1f}' | '\u{7f}' => 6,
        _ => 1,
    }
}

/// How many characters a text has.
fn characters(value: &str) -> u128
    ensures value { result ≡ length (chars value.now) }
    ensures fits { length (chars value.now) < 2 ^ 64 }
{
    value.chars().count() as u128
}

/// How many characters a text has in double quotes.
fn quoted_len(value: &str) -> u128
    requires { length (chars value.now) < 2 ^ 64 }
    ensures { result ≡ length (quoted (chars value.now)) }
{
    let mut count: u128 = 2;
    let mut rest = value;
    while let Some((c, next)) = split_first(rest) {
        count += escaped_len(c);
        rest = next;
    }
    count
}

/// How many characters a text is written with.
fn string_len(value: &str) -> u128
    ensures { result ≡ length (spell_text (chars value.now)) }
{
    let bare = characters(value);
    if need_quotes(value) {
        quoted_len(value)
    } else {
        bare
    }
}

/// How many characters a text of one character is written with.
fn char_len(value: char) -> u128
    ensures { result ≡ length (spell_text (value ∷ [])) }
{
    let mut buffer = [0u8; 4];
    string_len(char_text(value, &mut buffer))
}

/// How many digits and signs a number is written with.
fn number_len(value: i64) -> u128
    ensures { result ≡ length (signed_decimal value) }
{
    let mut buffer = Buffer::new();
    buffer.format(value).len() as u128
}

/// The same of a number of 128 bits without a sign.
fn natural_len(value: u128) -> u128
    ensures { result ≡ length (signed_decimal (pos value)) }
{
    let mut buffer = Buffer::new();
    buffer.format(value).len() as u128
}

/// The same of a number of 128 bits with a sign.
fn wide_len(value: i128) -> u128
    ensures { result ≡ length (signed_decimal value) }
{
    let mut buffer = Buffer::new();
    buffer.format(value).len() as u128
}

/// How many characters a scalar or an empty collection is written with.
fn node_len(node: Node<'_>) -> u128
    ensures { result ≡ length (spelled (node_shape node.entry)) }
{
    match node {
        Node::Null => 1,
        Node::Bool(true) => 4,
        Node::Bool(false) => 5,
        Node::Integer(value) => number_len(value),
        Node::Natural(value) => natural_len(value),
        Node::Wide(value) => wide_len(value),
        Node::Real(text) => characters(text),
        Node::Char(value) => char_len(value),
        Node::Text(text) => string_len(text),
        Node::List(_) | Node::Dict(_) => 2,
    }
}

/// The same of a value.
pub fn written_len(scalar: &Yaml) -> u128
    ensures { result ≡ length (spelled (shape_of scalar.now)) }
{
    node_len(Node::of_value(scalar))
}

/// Whether the text is told without counting to be written with at most 1,024 characters: no character takes more than six.
fn is_short(text: &str) -> bool
    ensures { result ≡ true → length (spell_text (chars text.now)) ≤ 1024 }
{
    text.len() <= 170
}

/// Whether it is told so since it needs no quotes, and no character takes less than a byte.
fn is_bare_and_short(text: &str) -> bool
    ensures { result ≡ true → length (spell_text (chars text.now)) ≤ 1024 }
{
    if need_quotes(text) {
        return false;
    }
    text.len() <= 1024
}

/// Whether the key is written before a colon.
pub fn is_simple_key(key: Node<'_>) -> bool
    ensures { result ≡ is_simple (node_shape key.entry) }
{
    match key {
        Node::List(_) | Node::Dict(_) => false,
        Node::Text(text) if is_short(text) => true,
        Node::Text(text) if is_bare_and_short(text) => true,
        _ => node_len(key) <= 1024,
    }
}
