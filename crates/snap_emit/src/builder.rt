//! The receiver that makes the tree of a document of events.
ghost use Rattle.std.specs.Prelude.{◌≡◌, ◌||◌, [], OnOk, IfErr, IfOk, option_map};
ghost use Rattle.snap_emit.specs.Built.{IsNodeOf, IsOneDocument, documents_seen, reading_or_bad, one_more, seen};

use crate::frame::Frame;
use crate::loaded::Loaded;
use crate::made::{Made, scalar};
use crate::refusal::Refusal;
use snap_content::{Items, OutOfMemory, Pairs};
use snap_parse::{Event, MarkedEventReceiver, Marker};
use std::alloc::Global;
use std::collections::VecDeque;
use std::mem;

/// The documents that have ended. One alone is wanted.
#[derive(Drop)]
pub(crate) enum Ended {
    Nothing,
    One(Made),
    Several,
}

/// Makes the tree of a document of events, in place of a recursion by what is open.
#[derive(Drop)]
pub(crate) struct Builder {
    alloc: Global,
    ended: Ended,
    /// The node of the document that is open, once it is whole.
    node: Option<Made>,
    /// What is open, the innermost first.
    open: VecDeque<Frame>,
    /// An alias came.
    has_alias: bool,
    /// An event was lost when memory ran out.
    is_broken: bool,
}

/// The documents with one more.
fn with_one(ended: Ended, node: Option<Made>) -> Ended
    ensures { documents_seen result
        ≡ one_more (documents_seen ended) (reading_or_bad (option_map seen node)) }
{
    match ended {
        Ended::Nothing => Ended::One(node_or_bad(node)),
        Ended::One(made) => {
            drop(made);
            drop(node);
            Ended::Several
        }
        Ended::Several => {
            drop(node);
            Ended::Several
        }
    }
}

/// The node of a document, which is a bad value where there is none.
fn node_or_bad(node: Option<Made>) -> Made
    ensures { seen result ≡ reading_or_bad (option_map seen node) }
{
    match node {
        None => Made::Bad,
        Some(made) => made,
    }
}

impl Builder {
    ghost use Rattle.snap_parse.specs.Aliases.{is_alias};
    ghost use Rattle.snap_emit.specs.Built.{built, put_read, close_read, end_read, step_read, seen, HasBuilt, HoldsLoaded};

    pub(crate) fn new(alloc: Global) -> Builder
        ensures { HasBuilt result [] }
    {
        Builder {
            alloc,
            ended: Ended::Nothing,
            node: None,
            open: VecDeque::new(alloc),
            has_alias: false,
            is_broken: false,
        }
    }

    /// What the one document is, unless an event was lost.
    pub(crate) fn into_loaded(self) -> Result<Result<Loaded, Refusal>, OutOfMemory>
        ensures { IfOk result (λ read. HoldsLoaded self read) }
    {
        if self.is_broken {
            return Err(OutOfMemory);
        }
        Ok(one_document(self.ended, self.has_alias))
    }

    /// Puts a node where it belongs.
    fn put(&mut self, made: Made) -> Result<(), OutOfMemory>
        ensures made { OnOk result (built self.new ≡ put_read (seen made) (built self.old)) }
        ensures alias { self.new.has_alias ≡ self.old.has_alias }
    {
        match self.open.front_mut() {
            None => self.node = Some(made),
            Some(frame) => frame.put(made)?,
        }
        Ok(())
    }

    /// Ends what is open.
    fn close(&mut self) -> Result<(), OutOfMemory>
        ensures made { OnOk result (built self.new ≡ close_read (built self.old)) }
        ensures alias { self.new.has_alias ≡ self.old.has_alias }
    {
        match self.open.pop_front() {
            None => Ok(()),
            Some(frame) => self.put(frame.into_made()),
        }
    }

    /// Ends a document.
    fn end_document(&mut self)
        ensures made { built self.new ≡ end_read (built self.old) }
        ensures alias { self.new.has_alias ≡ self.old.has_alias }
    {
        let node = self.node.take();
        let ended = mem::replace(&mut self.ended, Ended::Several);
        self.ended = with_one(ended, node);
    }

    /// What an event changes.
    fn take(&mut self, event: Event<'_>) -> Result<(), OutOfMemory>
        ensures made { OnOk result (built self.new ≡ step_read event.entry (built self.old)) }
        ensures alias { OnOk result (self.new.has_alias
            ≡ (is_alias event.entry || self.old.has_alias)) }
    {
        match event {
            Event::StreamStart | Event::StreamEnd | Event::DocumentStart => Ok(()),
            Event::Alias(_) => {
                self.has_alias = true;
                Ok(())
            }
            Event::DocumentEnd => {
                self.end_document();
                Ok(())
            }
            Event::Scalar(text, style, _, tag) => self.put(scalar(self.alloc, text, style, tag)?),
            Event::SequenceStart(_) => {
                let items = Items::new(self.alloc);
                self.open.push_front(Frame::List(Some(items), false))?;
                Ok(())
            }
            Event::MappingStart(_) => {
                let pairs = Pairs::new(self.alloc);
                self.open.push_front(Frame::Dict(Some(pairs), false, None))?;
                Ok(())
            }
            Event::SequenceEnd | Event::MappingEnd => self.close(),
        }
    }
}

/// What the one document is, or that there is not one.
fn one_document(ended: Ended, has_alias: bool) -> Result<Loaded, Refusal>
    ensures { IsOneDocument (documents_seen ended) has_alias result }
{
    match ended {
        Ended::One(made) => Ok(loaded_of(made, has_alias)),
        Ended::Nothing | Ended::Several => Err(Refusal::NotOneDocument),
    }
}

/// What a document is, from its node.
fn loaded_of(made: Made, has_alias: bool) -> Loaded
    ensures { IsNodeOf (seen made) has_alias result }
{
    let has_number_text = made.has_number();
    Loaded {
        content: made.into_content(),
        has_number_text,
        has_alias,
    }
}

impl MarkedEventReceiver for Builder {
    ghost use Rattle.snap_emit.specs.Built.{HasBuilt};

    ghost told = { HasBuilt };

    fn on_event(&mut self, ev: Event<'_>, _mark: Marker) -> Result<(), OutOfMemory> {
        if self.is_broken {
            return Err(OutOfMemory);
        }
        match self.take(ev) {
            Ok(()) => {
                self.is_broken = false;
                Ok(())
            }
            Err(error) => {
                self.is_broken = true;
                Err(error)
            }
        }
    }
}
