//! Documents by their names.
ghost use Rattle.std.specs.Prelude.{◌≡◌, ◌++◌, ◌∷◌, [], IfOk, OnOk, OnErr, position};
ghost use Rattle.std.specs.Str.{bytes_eq, chars};
ghost use Rattle.snap_content.specs.View.{tree};
ghost use Rattle.snap_front.specs.Documents.{with_document};
ghost use Rattle.snap_front.specs.Stored.{docs_in, seen};

use crate::command::Command;
use crate::heads::{print_document, read_head, remove_value, set_value};
use crate::path::Path;
use crate::reading::plain_copy;
use crate::refusal::Refusal;
use crate::reply::Reply;
use crate::split::front_read;
use crate::trees::get_tree;
use snap_content::{Content, OutOfMemory, Text};
use snap_select::is_same_text;
use std::alloc::Global;
use std::mem;

/// A document.
#[derive(Debug, Drop)]
struct Held {
    /// The tree of its header.
    head: Content,
    body: Text,
}

/// Documents with a header of YAML, each under a name.
#[derive(Debug, Drop)]
pub struct FrontStore {
    alloc: Global,
    /// In the order in which the names came.
    docs: Vec<(Text, Held)>,
}

/// Whether both are one name.
fn is_name(text: &Text, name: &Text) -> bool
    ensures { result ≡ bytes_eq text.now name.now }
{
    let left = text.as_str();
    let right = name.as_str();
    is_same_text(left, right)
}

/// Where the document of that name stands.
fn place_of(docs: &[(Text, Held)], name: &Text) -> Option<usize>
    ensures { result ≡ position (λ pair. bytes_eq pair.0 name.now) docs.now }
{
    docs.iter().position(|pair| is_name(&pair.0, name))
}

/// One document more, after the others.
fn push(
    docs: &mut Vec<(Text, Held)>,
    alloc: Global,
    name: &Text,
    held: Held,
) -> Result<(), OutOfMemory>
    ensures ok { OnOk result (docs.new.items ≡ docs.old.items ++ (name.now, held) ∷ []) }
    ensures err { OnErr result (docs.new.items ≡ docs.old.items) }
{
    match name.try_clone(alloc) {
        Ok(name) => {
            docs.push((name, held))?;
            Ok(())
        }
        Err(error) => {
            drop(held);
            Err(error)
        }
    }
}

/// The documents with this one under the name: in place of the one that stands there, or after the others.
fn put_held(
    docs: &mut Vec<(Text, Held)>,
    alloc: Global,
    name: &Text,
    held: Held,
) -> Result<(), OutOfMemory>
    ensures ok { OnOk result (docs_in docs.new.items
        ≡ with_document name.now (seen held) (docs_in docs.old.items)) }
    ensures err { OnErr result (docs_in docs.new.items ≡ docs_in docs.old.items) }
{
    match place_of(docs.as_slice(), name) {
        Some(at) => {
            drop(mem::replace(&mut docs[at].1, held));
            Ok(())
        }
        None => push(docs, alloc, name, held),
    }
}

/// The document of a head and a body.
fn held_of(alloc: Global, head: Content, body: &str) -> Result<Held, OutOfMemory>
    ensures { IfOk result (λ held. seen held
        ≡ record { head = tree head; body = chars body.now }) }
{
    match Text::from_str(alloc, body) {
        Ok(body) => Ok(Held { head, body }),
        Err(error) => {
            drop(head);
            Err(error)
        }
    }
}

impl FrontStore {
    ghost use Rattle.snap_front.specs.Commands.{command_of, done, reply_of, puts, gets, sets, removes, prints};
    ghost use Rattle.snap_front.specs.Kept.{AreMaps, IsAgain};
    ghost use Rattle.snap_front.specs.Paths.{steps_of};
    ghost use Rattle.snap_front.specs.Runs.{Comes};
    ghost use Rattle.snap_front.specs.Stored.{docs_of};

    /// No documents.
    pub fn new(alloc: Global) -> FrontStore
        ensures { docs_of result ≡ [] }
    {
        FrontStore {
            alloc,
            docs: Vec::new(alloc),
        }
    }

    /// Does what the command says. After the one error, that memory is out, nothing has changed. Headers are maps from the first
    /// document that is put on, and so a document that is printed is put again as what it was.
    pub fn apply(&mut self, command: &Command) -> Result<Reply, OutOfMemory>
        ensures comes { IfOk result (λ reply. Comes (docs_of self.old) (command_of command.now)
            (docs_of self.new, reply_of reply)) }
        ensures err { OnErr result (docs_of self.new ≡ docs_of self.old) }
        ensures again { AreMaps (docs_of self.old)
            → IfOk result (λ reply. IsAgain (reply_of reply)) }
    {
        match command {
            Command::Put { name, text } => self.put(name, text.as_str()),
            Command::Get { name, path } => self.get(name, path),
            Command::Set { name, path, value } => self.set(name, path, value),
            Command::Remove { name, path } => Ok(self.remove(name, path)),
            Command::Print { name } => self.print(name),
        }
    }

    fn put(&mut self, name: &Text, text: &str) -> Result<Reply, OutOfMemory>
        ensures comes { IfOk result (λ reply. Comes (docs_of self.old)
            (puts name.now (chars text.now)) (docs_of self.new, reply_of reply)) }
        ensures err { OnErr result (docs_of self.new ≡ docs_of self.old) }
    {
        let Some((header, body)) = front_read(text) else {
            return Ok(Reply::NotFront);
        };
        match read_head(self.alloc, header)? {
            Ok(head) => self.keep(name, head, body),
            Err(refusal) => Ok(refusal.reply()),
        }
    }

    /// Takes the head and the body as the document of that name.
    fn keep(&mut self, name: &Text, head: Content, body: &str) -> Result<Reply, OutOfMemory>
        ensures kept { IfOk result (λ reply. (reply_of reply ≡ done) × (docs_of self.new
            ≡ with_document name.now (record { head = tree head; body = chars body.now })
            (docs_of self.old))) }
        ensures err { OnErr result (docs_of self.new ≡ docs_of self.old) }
    {
        let held = held_of(self.alloc, head, body)?;
        put_held(&mut self.docs, self.alloc, name, held)?;
        Ok(Reply::Done)
    }

    fn get(&self, name: &Text, path: &Path) -> Result<Reply, OutOfMemory>
        ensures { IfOk result (λ reply. Comes (docs_of self.now) (gets name.now (steps_of path.now))
            (docs_of self.now, reply_of reply)) }
    {
        let Some(at) = place_of(self.docs.as_slice(), name) else {
            return Ok(Reply::NoName);
        };
        match get_tree(&self.docs[at].1.head, path) {
            Some(part) => Ok(Reply::Tree(part.try_clone(self.alloc)?)),
            None => Ok(Reply::Absent),
        }
    }

    fn set(&mut self, name: &Text, path: &Path, value: &Content) -> Result<Reply, OutOfMemory>
        ensures comes { IfOk result (λ reply. Comes (docs_of self.old)
            (sets name.now (steps_of path.now) (tree value.now))
            (docs_of self.new, reply_of reply)) }
        ensures err { OnErr result (docs_of self.new ≡ docs_of self.old) }
    {
        let Some(at) = place_of(self.docs.as_slice(), name) else {
            return Ok(Reply::NoName);
        };
        let value = plain_copy(self.alloc, value)?;
        match set_value(self.alloc, &mut self.docs[at].1.head, path, value)? {
            None => Ok(Reply::Done),
            Some(refusal) => Ok(refusal.reply()),
        }
    }

    fn remove(&mut self, name: &Text, path: &Path) -> Reply
        ensures { Comes (docs_of self.old) (removes name.now (steps_of path.now))
            (docs_of self.new, reply_of result) }
    {
        let Some(at) = place_of(self.docs.as_slice(), name) else {
            return Reply::NoName;
        };
        match remove_value(&mut self.docs[at].1.head, path) {
            Ok(part) => Reply::Tree(part),
            Err(refusal) => refusal.reply(),
        }
    }

    fn print(&self, name: &Text) -> Result<Reply, OutOfMemory>
        ensures comes { IfOk result (λ reply. Comes (docs_of self.now) (prints name.now)
            (docs_of self.now, reply_of reply)) }
        ensures again { AreMaps (docs_of self.now)
            → IfOk result (λ reply. IsAgain (reply_of reply)) }
    {
        let Some(at) = place_of(self.docs.as_slice(), name) else {
            return Ok(Reply::NoName);
        };
        let held = &self.docs[at].1;
        let text = print_document(self.alloc, &held.head, held.body.as_str())?;
        Ok(Reply::Printed(text))
    }
}
