//! The tree of a YAML text, built of its events.
ghost use Rattle.std.specs.Prelude.{◌≡◌, ◌≢◌, List, IfOk, IfErr};
ghost use Rattle.std.specs.Str.{chars};
ghost use Rattle.snap_parse_events.specs.Nodes.{Node};
ghost use Rattle.snap_parse.specs.Loaded.{scan_error};
ghost use Rattle.snap_parse.specs.TextNodes.{AreNodesOf};
ghost use Rattle.snap_emit.specs.Readings.{IsLoadedOf, IsLoadedIn, IsOfStream, IsReasonIn};

use crate::builder::Builder;
use crate::refusal::Refusal;
use snap_content::{Content, OutOfMemory};
use snap_parse::{LoadError, Parser, ScanError};
use std::alloc::Global;

/// What the one document of a text is as a tree.
#[derive(Drop)]
pub(crate) struct Loaded {
    /// The tree, if there is one.
    pub(crate) content: Option<Content>,
    /// Whether a number stands in it as its text, since it is no whole number of 128 bits. Where there is no tree, whether
    /// such a number stands before what is none.
    pub(crate) has_number_text: bool,
    /// Whether an alias stands in the document. Its value is left out.
    pub(crate) has_alias: bool,
}

/// The parser's own error: no document was open before.
fn own_error(error: LoadError) -> ScanError
    ensures { result ≡ scan_error error }
{
    match error {
        LoadError::Scan(error) => error,
        LoadError::InsideDocument => ScanError::OutOfMemory,
        LoadError::OutOfMemory => ScanError::OutOfMemory,
    }
}

/// The refusal of a text that is no YAML. The error is that memory was short, and comes only where that was told.
fn no_yaml(error: ScanError) -> Result<Refusal, OutOfMemory>
    ensures ok { IfOk result (λ why. (why ≡ Refusal.NoYaml error)
        × (error ≢ ScanError.OutOfMemory)) }
    ensures err { IfErr result (λ _. error ≡ ScanError.OutOfMemory) }
{
    match &error {
        ScanError::OutOfMemory => Err(OutOfMemory),
        ScanError::Syntax(_, _) => Ok(Refusal::NoYaml(error)),
    }
}

/// What the text's one document is as a tree, or why there is no such document.
pub(crate) fn load_tree(alloc: Global, text: &str) -> Result<Result<Loaded, Refusal>, OutOfMemory>
    ensures nodes { (nodes : List Node) → AreNodesOf (chars text.now) nodes
        → IfOk result (λ read. IsLoadedIn nodes read) }
    ensures stream { IfOk result (λ read. IfOk read
        (λ loaded. IsOfStream (λ node. IsLoadedOf node loaded))) }
    ensures cause { IfOk result (λ read. IfErr read (λ why. IsReasonIn (chars text.now) why)) }
{
    let mut parser = Parser::new(alloc, text);
    let mut builder = Builder::new(alloc);
    match parser.load(&mut builder, true) {
        Ok(()) => builder.into_loaded(),
        Err(error) => {
            drop(builder);
            Ok(Err(no_yaml(own_error(error))?))
        }
    }
}
