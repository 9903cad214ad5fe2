//! Scalars, written straight into a text.
ghost use Rattle.std.specs.Prelude.{◌≡◌, ◌++◌, ◌∷◌, [], OnOk, OnErr, IsTrue, pos};
ghost use Rattle.std.specs.Char.{is_ascii};
ghost use Rattle.std.specs.List.{list_all};
ghost use Rattle.std.specs.Fmt.{signed_decimal};
ghost use Rattle.std.specs.Str.{chars};
ghost use Rattle.snap_print.specs.Begun.{IsBegun};
ghost use Rattle.snap_print.specs.Readable.{IsNumber};
ghost use Rattle.snap_print.specs.Spell.{quoted, spell_text};
ghost use Rattle.snap_emit_values.specs.FromContent.{IsWordWithin};
ghost use Rattle.snap_emit_values.specs.Nodes.{node_shape};
ghost use Rattle.snap_emit_values.specs.Shape.{spelled};

use crate::node::Node;
use itoa::Buffer;
use snap_content::characters::split_first;
use snap_content::{OutOfMemory, Text};
use snap_print::escaping::{bare_run, push_escaped};
use snap_print::need_quotes;
use std::alloc::Global;

/// Adds characters as they are.
pub fn push_run(out: &mut Text, alloc: Global, run: &str) -> Result<(), OutOfMemory>
    ensures ok { OnOk result (out.new ≡ out.old ++ chars run.now) }
    ensures err { OnErr result (IsBegun out.old out.new (chars run.now)) }
{
    out.push_str(alloc, run)
}

/// Adds the text in double quotes, run by run.
fn push_quoted(out: &mut Text, alloc: Global, value: &str) -> Result<(), OutOfMemory>
    ensures ok { OnOk result (out.new ≡ out.old ++ quoted (chars value.now)) }
    ensures err { OnErr result (IsBegun out.old out.new (quoted (chars value.now))) }
{
    out.push(alloc, '"')?;
    let (run, mut rest) = bare_run(value);
    push_run(out, alloc, run)?;
    while let Some((c, behind)) = split_first(rest) {
        push_escaped(out, alloc, c)?;
        let (run, later) = bare_run(behind);
        push_run(out, alloc, run)?;
        rest = later;
    }
    out.push(alloc, '"')
}

/// Adds the text as it is spelled: in double quotes where it needs them. When out of memory, a beginning of that was added.
pub fn push_spelled_str(out: &mut Text, alloc: Global, value: &str) -> Result<(), OutOfMemory>
    ensures ok { OnOk result (out.new ≡ out.old ++ spell_text (chars value.now)) }
    ensures err { OnErr result (IsBegun out.old out.new (spell_text (chars value.now))) }
{
    if need_quotes(value) {
        push_quoted(out, alloc, value)
    } else {
        push_run(out, alloc, value)
    }
}

/// The same of a text.
pub fn push_spelled_text(out: &mut Text, alloc: Global, value: &Text) -> Result<(), OutOfMemory>
    ensures ok { OnOk result (out.new ≡ out.old ++ spell_text value.now) }
    ensures err { OnErr result (IsBegun out.old out.new (spell_text value.now)) }
{
    push_spelled_str(out, alloc, value.as_str())
}

/// A character as a text.
pub fn char_text(value: char, buffer: &mut [u8; 4]) -> &str
    ensures { chars result.now ≡ value ∷ [] }
{
    value.encode_utf8(buffer)
}

/// The same of a text of one character.
fn push_spelled_char(out: &mut Text, alloc: Global, value: char) -> Result<(), OutOfMemory>
    ensures ok { OnOk result (out.new ≡ out.old ++ spell_text (value ∷ [])) }
    ensures err { OnErr result (IsBegun out.old out.new (spell_text (value ∷ []))) }
{
    let mut buffer = [0u8; 4];
    push_spelled_str(out, alloc, char_text(value, &mut buffer))
}

/// Adds ASCII characters.
pub fn push_word(out: &mut Text, alloc: Global, word: &str) -> Result<(), OutOfMemory>
    requires { IsTrue (list_all is_ascii word.now) }
    ensures ok { OnOk result (out.new ≡ out.old ++ word.now) }
    ensures err { OnErr result (IsBegun out.old out.new word.now) }
{
    out.push_ascii(alloc, word)
}

/// Adds the number in base ten.
fn push_number(out: &mut Text, alloc: Global, value: i64) -> Result<(), OutOfMemory>
    ensures ok { OnOk result (out.new ≡ out.old ++ signed_decimal value) }
    ensures within { IsNumber value }
    ensures err { OnErr result (IsBegun out.old out.new (signed_decimal value)) }
{
    let mut buffer = Buffer::new();
    out.push_ascii(alloc, buffer.format(value))
}

/// The same of a number of 128 bits without a sign.
fn push_natural(out: &mut Text, alloc: Global, value: u128) -> Result<(), OutOfMemory>
    ensures ok { OnOk result (out.new ≡ out.old ++ signed_decimal (pos value)) }
    ensures within { IsNumber (pos value) }
    ensures err { OnErr result (IsBegun out.old out.new (signed_decimal (pos value))) }
{
    let mut buffer = Buffer::new();
    out.push_ascii(alloc, buffer.format(value))
}

/// The same of a number of 128 bits with a sign.
fn push_wide(out: &mut Text, alloc: Global, value: i128) -> Result<(), OutOfMemory>
    ensures ok { OnOk result (out.new ≡ out.old ++ signed_decimal value) }
    ensures within { IsNumber value }
    ensures err { OnErr result (IsBegun out.old out.new (signed_decimal value)) }
{
    let mut buffer = Buffer::new();
    out.push_ascii(alloc, buffer.format(value))
}

/// Adds what is written for a scalar or an empty collection.
pub fn push_spelled(out: &mut Text, alloc: Global, node: Node<'_>) -> Result<(), OutOfMemory>
    ensures ok { OnOk result (out.new ≡ out.old ++ spelled (node_shape node.entry)) }
    ensures within { IsWordWithin (node_shape node.entry) }
    ensures err { OnErr result (IsBegun out.old out.new (spelled (node_shape node.entry))) }
{
    match node {
        Node::Null => push_word(out, alloc, "~"),
        Node::Bool(true) => push_word(out, alloc, "true"),
        Node::Bool(false) => push_word(out, alloc, "false"),
        Node::Integer(value) => push_number(out, alloc, value),
        Node::Natural(value) => push_natural(out, alloc, value),
        Node::Wide(value) => push_wide(out, alloc, value),
        Node::Real(text) => push_run(out, alloc, text),
        Node::Char(value) => push_spelled_char(out, alloc, value),
        Node::Text(text) => push_spelled_str(out, alloc, text),
        Node::List(_) => push_word(out, alloc, "[]"),
        Node::Dict(_) => push_word(out, alloc, "{}"),
    }
}
