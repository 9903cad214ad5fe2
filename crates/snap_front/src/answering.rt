//! One document, and one command on it.
ghost use Rattle.std.specs.Prelude.{◌≡◌, Some, true, List, ℕ, IfOk, IfErr, encode_utf8_all};
ghost use Rattle.std.specs.Str.{chars};
ghost use Rattle.snap_content.specs.View.{tree};
ghost use Rattle.snap_front.specs.Commands.{refusal_of, reply_of};
ghost use Rattle.snap_front.specs.Front.{AreBytesOf, HasNoAnswer, IsAnswer, IsDone, IsFormatted, IsGot, IsHeadIn, IsPrinted, IsTextAnswer, ValueReads};
ghost use Rattle.snap_front.specs.Heads.{is_map, remove_head, set_head};
ghost use Rattle.snap_front.specs.Paths.{steps_of};
ghost use Rattle.snap_front.specs.Runs.{HeaderReads};
ghost use Rattle.snap_front.specs.Split.{front_read};
ghost use Rattle.snap_front.specs.TreePaths.{get_tree};
ghost use Rattle.snap_front.specs.Wanted.{IsRequest, Wanted, wanted_in};
ghost use Rattle.snap_front.specs.declared.reply.Reply.{Reply};

use crate::front_error::FrontError;
use crate::heads::{print_document, read_head, remove_value, set_value};
use crate::path::Path;
use crate::refusal::Refusal;
use crate::split::front_read;
use crate::trees::get_tree;
use crate::words::{Request, request_of};
use snap_content::{Blob, Content, Text};
use snap_emit::yaml::body_to_string;
use std::alloc::Global;
use std::str;

/// The error that says why a command did nothing.
fn refused(refusal: Refusal) -> FrontError
    ensures { (reply : Reply) × (result ≡ FrontError.Refused reply)
        × (reply_of reply ≡ refusal_of refusal) }
{
    FrontError::Refused(refusal.reply())
}

/// The head of the document and its body.
fn head_in(alloc: Global, text: &str) -> Result<(Content, &str), FrontError>
    ensures { IsHeadIn (chars text.now) result }
{
    let Some((header, body)) = front_read(text) else {
        return Err(refused(Refusal::NotFront));
    };
    match read_head(alloc, header)? {
        Ok(head) => Ok((head, body)),
        Err(refusal) => Err(refused(refusal)),
    }
}

/// The text of what stands at the end of the path.
fn got(alloc: Global, head: Content, path: &Path) -> Result<Text, FrontError>
    ensures { IsGot (get_tree (steps_of path.now) (tree head)) result }
{
    let text = match get_tree(&head, path) {
        Some(part) => Some(body_to_string(alloc, part, false)),
        None => None,
    };
    drop(head);
    match text {
        Some(text) => Ok(text?),
        None => Err(refused(Refusal::Absent)),
    }
}

/// The document, printed. The head ends.
fn printed(alloc: Global, head: Content, body: &str) -> Result<Text, FrontError>
    ensures { is_map (tree head) ≡ true → IsFormatted (tree head) (chars body.now) result }
{
    let text = print_document(alloc, &head, body);
    drop(head);
    Ok(text?)
}

/// The document with the value at the end of the path, printed.
fn with_value(
    alloc: Global,
    head: Content,
    body: &str,
    path: &Path,
    value: Content,
) -> Result<Text, FrontError>
    ensures { is_map (tree head) ≡ true
        → IsPrinted (set_head (steps_of path.now) (tree value) (tree head)) (chars body.now) result }
{
    let mut head = head;
    match set_value(alloc, &mut head, path, value) {
        Ok(None) => printed(alloc, head, body),
        Ok(Some(refusal)) => {
            drop(head);
            Err(refused(refusal))
        }
        Err(error) => {
            drop(head);
            Err(FrontError::from(error))
        }
    }
}

/// The document without what stands at the end of the path, printed.
fn without_value(alloc: Global, head: Content, body: &str, path: &Path) -> Result<Text, FrontError>
    ensures { is_map (tree head) ≡ true
        → IsPrinted (remove_head (steps_of path.now) (tree head)) (chars body.now) result }
{
    let mut head = head;
    match remove_value(&mut head, path) {
        Ok(part) => {
            drop(part);
            printed(alloc, head, body)
        }
        Err(refusal) => {
            drop(head);
            Err(refused(refusal))
        }
    }
}

/// What is answered to the request, of a document with this head and body.
fn done(alloc: Global, request: Request, head: Content, body: &str) -> Result<Text, FrontError>
    ensures { is_map (tree head) ≡ true
        → IsDone request (tree head) (chars body.now) result }
{
    match request {
        Request::Get(path) => got(alloc, head, &path),
        Request::Set(path, value) => with_value(alloc, head, body, &path, value),
        Request::Remove(path) => without_value(alloc, head, body, &path),
        Request::Format => printed(alloc, head, body),
    }
}

/// What is answered to the request, of a text.
fn answered(alloc: Global, request: Request, text: &str) -> Result<Text, FrontError>
    ensures { (wanted : Wanted) → IsRequest (Some wanted) (Some request)
        → IsTextAnswer wanted (chars text.now) result }
{
    match head_in(alloc, text) {
        Ok((head, body)) => done(alloc, request, head, body),
        Err(error) => {
            drop(request);
            Err(error)
        }
    }
}

/// The bytes of the answer.
fn bytes_of(alloc: Global, text: Text) -> Result<Blob, FrontError>
    ensures ok { IfOk result (λ blob. blob ≡ encode_utf8_all text) }
    ensures err { IfErr result (λ e. e ≡ FrontError.OutOfMemory) }
{
    Ok(Blob::from_slice(alloc, text.as_str().as_bytes())?)
}

/// The bytes of the answer, if there is one.
fn bytes_or(alloc: Global, answer: Result<Text, FrontError>) -> Result<Blob, FrontError>
    ensures { AreBytesOf answer result }
{
    match answer {
        Ok(text) => bytes_of(alloc, text),
        Err(error) => Err(error),
    }
}

/// What is answered to the request, of these bytes.
fn answer_of(alloc: Global, request: Request, document: &[u8]) -> Result<Blob, FrontError>
    ensures ok { (words : List (List ℕ)) → IsRequest (wanted_in words) (Some request)
        → IfOk result (λ blob. IsAnswer words document.now blob) }
    ensures err { (words : List (List ℕ)) → IsRequest (wanted_in words) (Some request)
        → IfErr result (λ e. HasNoAnswer words document.now e) }
{
    match str::from_utf8(document) {
        Ok(text) => bytes_or(alloc, answered(alloc, request, text)),
        Err(_) => {
            drop(request);
            Err(FrontError::NotText)
        }
    }
}

/// The answer to the words, of a document: of `get PATH` the text of what stands in its header at the end of the path; of `set PATH
/// VALUE`, `remove PATH` and `format` the document, its header printed anew and its body byte for byte as it was.
pub fn front(alloc: Global, words: &[Text], document: &[u8]) -> Result<Blob, FrontError>
    ensures ok { IfOk result (λ blob. IsAnswer words.now document.now blob) }
    ensures err { IfErr result (λ e. HasNoAnswer words.now document.now e) }
    // Where the header and the value read as trees, there is no other answer.
    ensures one { IfOk result (λ blob. (other : List ℕ)
        → HeaderReads (front_read (chars document.now)) → ValueReads (wanted_in words.now)
        → IsAnswer words.now document.now other → other ≡ blob) }
{
    match request_of(alloc, words)? {
        Some(request) => answer_of(alloc, request, document),
        None => Err(FrontError::BadWords),
    }
}
