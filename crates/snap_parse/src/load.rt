//! All documents of a text.
ghost use Rattle.std.specs.Prelude.{◌≡◌, ◌≢◌, List, IfOk, IfErr, map, [], ◌∷◌, ◌++◌, false};
ghost use Rattle.std.specs.Str.{chars};
ghost use Rattle.snap_content.specs.Plain.{Plain};
ghost use Rattle.snap_print.specs.Blocks.{Blocks};
ghost use Rattle.snap_print.specs.Lines.{document_of};
ghost use Rattle.snap_scan_tokens.specs.Place.{before_nul};
ghost use Rattle.snap_scan.specs.Sound.{IsFounded};
ghost use Rattle.snap_parse_events.specs.Nodes.{Node};
ghost use Rattle.snap_parse_laws.specs.Endings.{ends_in_block};
ghost use Rattle.snap_parse_laws.specs.Layouts.{Document};
ghost use Rattle.snap_parse_laws.specs.LayoutTexts.{document_text};
ghost use Rattle.snap_parse_laws.specs.LayoutRules.{IsDocument};
ghost use Rattle.snap_parse_laws_json.specs.Bounded.{IsJsonOf};
ghost use Rattle.snap_parse_laws_json.specs.Nodes.{json_node};
ghost use Rattle.snap_yaml.specs.View.{value_of, array_list};
ghost use Rattle.snap_parse.specs.Documents.{document_value};
ghost use Rattle.snap_parse.specs.LaidValues.{layout_value};
ghost use Rattle.snap_parse.specs.Loaded.{AreLoaded, AreLoadedOf, AreValuesOf, scan_error};
ghost use Rattle.snap_parse.specs.PrintedEvents.{node_of};
ghost use Rattle.snap_parse.specs.TextNodes.{AreNodesOf};

use crate::loader::{Documents, Loader};
use snap_parse_events::{LoadError, Parser};
use snap_scan_tokens::ScanError;
use snap_yaml::Array;
use std::alloc::Global;

/// Loads documents.
#[derive(Clone, Copy, Debug)]
pub struct YamlLoader;

impl YamlLoader {
    /// The documents of a text, one value for each, and whether an alias stands in them, or why it is no YAML: the parser's
    /// own error.
    pub fn load_documents(alloc: Global, source: &str) -> Result<Documents, ScanError>
        ensures documents { IfOk result (λ made.
            AreLoadedOf (map value_of (array_list made.values)) made.has_alias) }
        ensures nodes { (nodes : List Node) → AreNodesOf (chars source.now) nodes
            → IfOk result (λ made.
            AreValuesOf nodes (map value_of (array_list made.values)) made.has_alias) }
        ensures memory { (nodes : List Node) → AreNodesOf (chars source.now) nodes
            → IfErr result (λ e. e ≡ ScanError.OutOfMemory) }
        ensures cause { IfErr result (λ e. IsFounded (before_nul (chars source.now)) e) }
    {
        let mut parser = Parser::new(alloc, source);
        let mut loader = Loader::new(alloc);
        match parser.load(&mut loader, true) {
            Ok(()) => loader.into_documents(),
            Err(error) => Err(refusal(&error)),
        }
    }

    /// The documents of a text, one value for each, or why it is no YAML: the parser's own error.
    pub fn load_from_str(alloc: Global, source: &str) -> Result<Array, ScanError>
        ensures documents { IfOk result (λ made. AreLoaded (map value_of (array_list made))) }
        ensures printed { (w : Blocks) (p : Plain) → chars source.now ≡ document_of w p
            → IfOk result (λ made. map value_of (array_list made)
            ≡ document_value (node_of w p) ∷ []) }
        ensures memory { (w : Blocks) (p : Plain) → chars source.now ≡ document_of w p
            → IfErr result (λ e. e ≡ ScanError.OutOfMemory) }
        ensures dumped { (w : Blocks) (p : Plain) → ends_in_block w p ≡ false
            → chars source.now ++ 10 ∷ [] ≡ document_of w p
            → IfOk result (λ made. map value_of (array_list made)
            ≡ document_value (node_of w p) ∷ []) }
        ensures dumped_memory { (w : Blocks) (p : Plain) → ends_in_block w p ≡ false
            → chars source.now ++ 10 ∷ [] ≡ document_of w p
            → IfErr result (λ e. e ≡ ScanError.OutOfMemory) }
        ensures json { (p : Plain) → IsJsonOf p (chars source.now)
            → IfOk result (λ made. map value_of (array_list made)
            ≡ document_value (json_node p) ∷ []) }
        ensures json_memory { (p : Plain) → IsJsonOf p (chars source.now)
            → IfErr result (λ e. e ≡ ScanError.OutOfMemory) }
        ensures laid { (d : Document) → IsDocument d → chars source.now ≡ document_text d
            → IfOk result (λ made. map value_of (array_list made)
            ≡ layout_value d.tree ∷ []) }
        ensures laid_memory { (d : Document) → IsDocument d → chars source.now ≡ document_text d
            → IfErr result (λ e. e ≡ ScanError.OutOfMemory) }
        ensures cause { IfErr result (λ e. IsFounded (before_nul (chars source.now)) e) }
    {
        match YamlLoader::load_documents(alloc, source) {
            Ok(documents) => Ok(into_values(documents)),
            Err(error) => Err(error),
        }
    }
}

/// The values alone.
fn into_values(documents: Documents) -> Array
    ensures { result ≡ documents.values }
{
    let Documents {
        values,
        has_alias: _,
    } = documents;
    values
}

/// Why a text has no documents, where no document was open before.
fn refusal(error: &LoadError) -> ScanError
    requires { error.now ≢ LoadError.InsideDocument }
    ensures { result ≡ scan_error error.now }
{
    match error {
        LoadError::Scan(error) => *error,
        LoadError::OutOfMemory => ScanError::OutOfMemory,
        LoadError::InsideDocument => unreachable!(),
    }
}
