//! The text of a tree, and the tree of a text.
ghost use Rattle.std.specs.Prelude.{◌≡◌, false, List, IfOk, IfErr};
ghost use Rattle.std.specs.Str.{chars};
ghost use Rattle.snap_content.specs.Plain.{Plain, plain, content_of};
ghost use Rattle.snap_print.specs.Readable.{IsWithin};
ghost use Rattle.snap_content.specs.View.{tree};
ghost use Rattle.snap_print.specs.Blocks.{blocks_if};
ghost use Rattle.snap_print.specs.Lines.{document_of, lines_of, text_of};
ghost use Rattle.snap_print.specs.Printed.{AreRows, EndsWell};
ghost use Rattle.snap_parse_events.specs.Nodes.{Node};
ghost use Rattle.snap_parse_laws_json.specs.Bounded.{IsJsonOf};
ghost use Rattle.snap_parse.specs.TextNodes.{AreNodesOf};
ghost use Rattle.snap_emit.specs.Parsed.{ParseEnd, HeaderEnd, IsErrorOf, IsParsedIn};
ghost use Rattle.snap_emit.specs.Readings.{IsOnly, IsOfStream, IsTreeOf, IsHeaderTreeOf};
ghost use Rattle.snap_emit.specs.Spelled.{IsTextOf, IsHeaderOf, KeepsNumber};

use crate::pieces::number_refusal;
pub use crate::reading::Header;
use crate::reading::{read_header, read_text};
use crate::refusal::Refusal;
use snap_content::{Content, Error, OutOfMemory, Text};
use snap_emit_values::printing::{print_body, printed_document};
use std::alloc::Global;

/// `---`, a line's end, and the text of the plain form, in which texts of several lines are literal blocks where `literal` is on.
/// The error is that memory is out.
pub fn to_string(alloc: Global, content: &Content, literal: bool) -> Result<Text, OutOfMemory>
    ensures printed { IfOk result (λ text. text
        ≡ document_of (blocks_if literal) (plain (tree content.now))) }
    ensures within { IfOk result (λ _. IsWithin (plain (tree content.now))) }
    ensures rows { IfOk result (λ _. AreRows
        (lines_of (blocks_if literal) (plain (tree content.now)))) }
    ensures end { IfOk result (λ _. EndsWell
        (lines_of (blocks_if literal) (plain (tree content.now)))) }
{
    printed_document(alloc, content, literal)
}

/// The text of the plain form alone, as it is the body of a snapshot file. The error is that memory is out.
pub fn body_to_string(alloc: Global, content: &Content, literal: bool) -> Result<Text, OutOfMemory>
    ensures printed { IfOk result (λ text. text
        ≡ text_of (blocks_if literal) (plain (tree content.now))) }
    ensures within { IfOk result (λ _. IsWithin (plain (tree content.now))) }
    ensures rows { IfOk result (λ _. AreRows
        (lines_of (blocks_if literal) (plain (tree content.now)))) }
    ensures end { IfOk result (λ _. EndsWell
        (lines_of (blocks_if literal) (plain (tree content.now)))) }
{
    let mut text = Text::empty();
    print_body(&mut text, alloc, content, literal)?;
    Ok(text)
}

/// The tree of a YAML text that is one document: of a printed text the tree that was printed, of a text in the free layout the
/// tree that it spells, and of the JSON text of a bounded tree that tree, where its numbers have 128 bits. A number that is no
/// whole number of 128 bits refuses it with `FloatText`, and all else that is no tree with `FailedParsingYaml`, whichever stands
/// first, with the path; an alias refuses it with `FailedParsingYaml`. Where a text is refused with `FloatText`, such a number is
/// a piece of it.
pub fn parse_str(alloc: Global, text: &str, path: &Text) -> Result<Content, Error>
    ensures end { ParseEnd (chars text.now) path.now result }
    ensures read { (t : Plain) → IsWithin t → IsTextOf (chars text.now) t
        → IfOk result (λ made. tree made ≡ content_of t) }
    ensures json { (t : Plain) → IsWithin t → IsJsonOf t (chars text.now)
        → IfOk result (λ made. tree made ≡ content_of t) }
    ensures json_memory { (t : Plain) → IsWithin t → IsJsonOf t (chars text.now)
        → IfErr result (λ e. e ≡ Error.OutOfMemory) }
    ensures nodes { (nodes : List Node) → AreNodesOf (chars text.now) nodes
        → IsParsedIn nodes (chars text.now) path.now result }
    ensures stream { IfOk result (λ made. IsOfStream (λ node. IsTreeOf node made)) }
    ensures within { IfOk result (λ made. IsWithin (plain (tree made))) }
{
    match read_text(alloc, text)? {
        Ok(content) => Ok(content),
        Err(refusal) => Err(refused(alloc, text, path, refusal)?),
    }
}

/// The error of a refusal.
fn refused(alloc: Global, text: &str, path: &Text, refusal: Refusal) -> Result<Error, OutOfMemory>
    ensures { IfOk result (λ error. IsErrorOf (chars text.now) path.now refusal error) }
{
    match refusal {
        Refusal::Number => number_refusal(alloc, text, path),
        Refusal::NoYaml(_) | Refusal::NotOneDocument | Refusal::Alias | Refusal::NoTree => {
            Ok(Error::FailedParsingYaml(path.try_clone(alloc)?))
        }
    }
}

/// The same for the header of a snapshot file, in which such a number is kept as its text, and an alias is left out. Whether a
/// number was kept is told: in a printed header none is, and in one that spells a tree exactly where one stands bare in it.
pub fn parse_header(alloc: Global, text: &str, path: &Text) -> Result<Header, Error>
    ensures end { HeaderEnd (chars text.now) path.now result }
    ensures read { (t : Plain) → IsWithin t → IsHeaderOf (chars text.now) t
        → IfOk result (λ header. tree header.content ≡ content_of t) }
    ensures numbers { IfOk result (λ header. KeepsNumber (chars text.now) header.number_as_text) }
    ensures json { (t : Plain) → IsWithin t → IsJsonOf t (chars text.now)
        → IfOk result (λ header. tree header.content ≡ content_of t) }
    ensures json_numbers { (t : Plain) → IsWithin t → IsJsonOf t (chars text.now)
        → IfOk result (λ header. header.number_as_text ≡ false) }
    ensures json_memory { (t : Plain) → IsWithin t → IsJsonOf t (chars text.now)
        → IfErr result (λ e. e ≡ Error.OutOfMemory) }
    ensures nodes { (nodes : List Node) → AreNodesOf (chars text.now) nodes
        → IfOk result (λ header. IsOnly (λ node. IsHeaderTreeOf node header) nodes) }
    ensures stream { IfOk result (λ header. IsOfStream (λ node. IsHeaderTreeOf node header)) }
    ensures within { IfOk result (λ header. IsWithin (plain (tree header.content))) }
{
    match read_header(alloc, text)? {
        Ok(header) => Ok(header),
        Err(_) => Err(Error::FailedParsingYaml(path.try_clone(alloc)?)),
    }
}
