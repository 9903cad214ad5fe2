//! A request: what a document of a stream asks for.
ghost use Rattle.std.specs.Prelude.{◌≡◌, List, ℕ, Some, option_map, IfOk, IfErr, IsErrOf, MatchResult, true, false};
ghost use Rattle.std.specs.Str.{chars};
ghost use Rattle.snap_content.specs.Tree.{TreePairs, map};
ghost use Rattle.snap_content.specs.View.{tree, pair_trees};
ghost use Rattle.snap_fields.specs.Fields.{text_at};
ghost use Rattle.snap_assert_place.specs.Place.{names_file};
ghost use Rattle.snap_run_requests.specs.Keys.{name_of, value_at, asks_for_block};
ghost use Rattle.snap_run_requests.specs.Faults.{IsAssertionFault, IsAssertionEnd, IsBlockFault, IsTreeEnd, IsRefused};
ghost use Rattle.snap_run_requests.specs.Requests.{RequestView, IsAssertion, IsRequest, Spells, ReadsAs};
ghost use Rattle.snap_run_requests.specs.RequestOf.{assertion_of, request_of};
ghost use Rattle.snap_run_requests.specs.Heads.{IsTold, IsHead};

use crate::fault::{KeyFault, Reason, RequestError};
use crate::key::Key;
use crate::pairs::{called, keys_fault, line_at, sort_at, text_at, text_if_there, text_or_empty};
use crate::redaction_items::redactions_of_pairs;
use snap_assert_place::file_path::is_file_path;
use snap_assert_settings::redactions::Replacements;
use snap_content::characters::is_same;
use snap_content::{Content, OutOfMemory, Text};
use snap_emit::read_text;
use snap_fields::fields::{value_named, value_taken};
use std::alloc::Global;

/// What a document asks for.
#[derive(Drop)]
pub enum Request {
    Assertion(Assertion),
    /// Opens a block in which duplicates are allowed.
    Begin,
    /// Closes the innermost block.
    End,
}

/// A tree that is to be asserted, with its name and its place.
#[derive(Drop)]
pub struct Assertion {
    pub module_name: Text,
    pub file: Text,
    pub line: u32,
    /// The name, where one is given; else a function stands there.
    pub name: Option<Text>,
    /// Empty where none stands there.
    pub function: Text,
    /// Empty where none stands there.
    pub suffix: Text,
    pub expr: Text,
    pub value: Content,
    pub redactions: Replacements,
    /// Whether the maps of the value are sorted.
    pub sort: bool,
}

/// What the pairs of an assertion tell but its value and its redactions, lent.
#[derive(Clone, Copy, Debug)]
struct Told<'a> {
    module_name: &'a str,
    file: &'a str,
    line: u32,
    name: Option<&'a str>,
    function: &'a str,
    suffix: &'a str,
    expr: &'a str,
    sort: bool,
}

/// An assertion but its value.
#[derive(Drop)]
struct Head {
    module_name: Text,
    file: Text,
    line: u32,
    name: Option<Text>,
    function: Text,
    suffix: Text,
    expr: Text,
    redactions: Replacements,
    sort: bool,
}

/// The path at `file`, which is that of a file.
fn file_at<'a>(pairs: &'a [(Content, Content)]) -> Result<&'a str, Reason>
    ensures { MatchResult result
        (λ file. (text_at (name_of Key.File) (pair_trees pairs.now) ≡ Some (chars file.now))
        × (names_file (chars file.now) ≡ true))
        (λ why. IsAssertionFault (pair_trees pairs.now) why) }
{
    let file = text_at(pairs, Key::File)?;
    if is_file_path(file) {
        Ok(file)
    } else {
        Err(Reason::NoFile)
    }
}

/// What the pairs of an assertion tell but its value and its redactions, or what is wrong with them.
fn told_in<'a>(pairs: &'a [(Content, Content)]) -> Result<Told<'a>, Reason>
    ensures { MatchResult result (λ told. IsTold (pair_trees pairs.now) told)
        (λ why. IsAssertionFault (pair_trees pairs.now) why) }
{
    if let Some(fault) = keys_fault(pairs, &Key::OF_ASSERTION) {
        return Err(Reason::Key(fault));
    }
    let module_name = text_at(pairs, Key::Module)?;
    let file = file_at(pairs)?;
    let line = line_at(pairs)?;
    called(pairs)?;
    let name = text_if_there(pairs, Key::Name)?;
    let function = text_or_empty(pairs, Key::Function)?;
    let suffix = text_or_empty(pairs, Key::Suffix)?;
    let expr = text_at(pairs, Key::Expr)?;
    let sort = sort_at(pairs)?;
    Ok(Told {
        module_name,
        file,
        line,
        name,
        function,
        suffix,
        expr,
        sort,
    })
}

/// The text of its own, where there is one.
fn own_text(alloc: Global, text: Option<&str>) -> Result<Option<Text>, OutOfMemory>
    ensures { IfOk result (λ own. own ≡ option_map (λ t. chars t.now) text.entry) }
{
    match text {
        None => Ok(None),
        Some(text) => Ok(Some(Text::from_str(alloc, text)?)),
    }
}

/// The assertion that the pairs tell but for its value.
fn head_of_pairs(alloc: Global, pairs: &[(Content, Content)]) -> Result<Head, RequestError>
    ensures { MatchResult result (λ head. IsHead (pair_trees pairs.now) head)
        (λ error. IsAssertionEnd (pair_trees pairs.now) error) }
{
    let told = told_in(pairs)?;
    let module_name = Text::from_str(alloc, told.module_name)?;
    let file = Text::from_str(alloc, told.file)?;
    let name = own_text(alloc, told.name)?;
    let function = Text::from_str(alloc, told.function)?;
    let suffix = Text::from_str(alloc, told.suffix)?;
    let expr = Text::from_str(alloc, told.expr)?;
    let redactions = redactions_of_pairs(alloc, pairs)?;
    Ok(Head {
        module_name,
        file,
        line: told.line,
        name,
        function,
        suffix,
        expr,
        redactions,
        sort: told.sort,
    })
}

/// The assertion with this value, where there is one.
fn with_value(head: Head, value: Option<Content>) -> Result<Assertion, RequestError>
    ensures { (pairs : TreePairs) → asks_for_block pairs ≡ false → IsHead pairs head
        → option_map tree value ≡ value_at Key.Value pairs
        → MatchResult result (λ assertion. IsAssertion (map pairs) (assertion_of assertion))
        (λ error. IsAssertionEnd pairs error) }
{
    let Some(value) = value else {
        drop(head);
        return Err(RequestError::NoRequest(Reason::Key(KeyFault::Missing(Key::Value))));
    };
    let Head {
        module_name,
        file,
        line,
        name,
        function,
        suffix,
        expr,
        redactions,
        sort,
    } = head;
    Ok(Assertion {
        module_name,
        file,
        line,
        name,
        function,
        suffix,
        expr,
        value,
        redactions,
        sort,
    })
}

/// The assertion that a map of these pairs is. Its value is taken out of the pairs.
fn assertion_of_pairs(
    alloc: Global,
    pairs: Vec<(Content, Content)>,
) -> Result<Assertion, RequestError>
    requires { asks_for_block (pair_trees pairs.items) ≡ false }
    ensures { MatchResult result
        (λ assertion. IsAssertion (map (pair_trees pairs.items)) (assertion_of assertion))
        (λ error. IsAssertionEnd (pair_trees pairs.items) error) }
{
    match head_of_pairs(alloc, pairs.as_slice()) {
        Ok(head) => with_value(head, value_taken(pairs, Key::Value.name())),
        Err(error) => {
            drop(pairs);
            Err(error)
        }
    }
}

/// The request for a block that a map of these pairs is.
fn block_of_pairs(pairs: &[(Content, Content)]) -> Result<Request, Reason>
    ensures { MatchResult result
        (λ request. IsRequest (map (pair_trees pairs.now)) (request_of request))
        (λ why. IsBlockFault (pair_trees pairs.now) why) }
{
    if let Some(fault) = keys_fault(pairs, &Key::OF_BLOCK) {
        return Err(Reason::Key(fault));
    }
    let Some(word) = text_if_there(pairs, Key::Duplicates)? else {
        return Err(Reason::Key(KeyFault::Missing(Key::Duplicates)));
    };
    if is_same(word, "begin") {
        Ok(Request::Begin)
    } else if is_same(word, "end") {
        Ok(Request::End)
    } else {
        Err(Reason::Key(KeyFault::WrongKind(Key::Duplicates)))
    }
}

/// Whether the pairs ask for a block.
fn asks_for_block(pairs: &[(Content, Content)]) -> bool
    ensures { result ≡ asks_for_block (pair_trees pairs.now) }
{
    value_named(pairs, Key::Duplicates.name()).is_some()
}

/// The request of pairs that ask for a block.
fn block_request(pairs: Vec<(Content, Content)>) -> Result<Request, RequestError>
    requires { asks_for_block (pair_trees pairs.items) ≡ true }
    ensures { MatchResult result
        (λ request. IsRequest (map (pair_trees pairs.items)) (request_of request))
        (λ error. IsTreeEnd (map (pair_trees pairs.items)) error) }
{
    let block = block_of_pairs(pairs.as_slice());
    drop(pairs);
    match block {
        Ok(request) => Ok(request),
        Err(why) => Err(RequestError::NoRequest(why)),
    }
}

/// The request of pairs that ask for no block.
fn assertion_request(alloc: Global, pairs: Vec<(Content, Content)>) -> Result<Request, RequestError>
    requires { asks_for_block (pair_trees pairs.items) ≡ false }
    ensures { MatchResult result
        (λ request. IsRequest (map (pair_trees pairs.items)) (request_of request))
        (λ error. IsTreeEnd (map (pair_trees pairs.items)) error) }
{
    match assertion_of_pairs(alloc, pairs) {
        Ok(assertion) => Ok(Request::Assertion(assertion)),
        Err(error) => Err(error),
    }
}

/// The request that a map of these pairs is.
fn request_of_pairs(alloc: Global, pairs: Vec<(Content, Content)>) -> Result<Request, RequestError>
    ensures { MatchResult result
        (λ request. IsRequest (map (pair_trees pairs.items)) (request_of request))
        (λ error. IsTreeEnd (map (pair_trees pairs.items)) error) }
{
    if asks_for_block(pairs.as_slice()) {
        block_request(pairs)
    } else {
        assertion_request(alloc, pairs)
    }
}

/// The request that a tree is.
fn request_of_content(alloc: Global, content: Content) -> Result<Request, RequestError>
    ensures { MatchResult result (λ request. IsRequest (tree content) (request_of request))
        (λ error. IsTreeEnd (tree content) error) }
{
    match content {
        Content::Map(pairs) => request_of_pairs(alloc, pairs.into_vec()),
        other => {
            drop(other);
            Err(RequestError::NoRequest(Reason::NoMap))
        }
    }
}

/// The request that a text is read as.
fn request_of_text(alloc: Global, text: &str) -> Result<Request, RequestError>
    ensures { MatchResult result (λ request. ReadsAs text.now (request_of request))
        (λ error. IsRefused text.now error) }
{
    match read_text(alloc, text)? {
        Ok(content) => request_of_content(alloc, content),
        Err(refusal) => Err(RequestError::NoRequest(Reason::NoTree(refusal))),
    }
}

/// Reads a document. One that is printed of a request, or spells it in the free layout, is never refused, and it is read as that
/// request. Any other is refused for a reason that holds of it; out of memory comes only where the document is a text.
pub fn read_request(alloc: Global, document: &[u8]) -> Result<Request, RequestError>
    ensures ok { IfOk result (λ request. ReadsAs document.now (request_of request)) }
    ensures cause { IfErr result (λ error. IsRefused document.now error) }
    ensures refused { (why : Reason) → IsErrOf result (RequestError.NoRequest why)
        → (r : RequestView) → Spells document.now r → ⊥ }
{
    match str::from_utf8(document) {
        Ok(text) => request_of_text(alloc, text),
        Err(error) => Err(RequestError::NoRequest(Reason::NotUtf8 {
            place: error.valid_up_to(),
        })),
    }
}
