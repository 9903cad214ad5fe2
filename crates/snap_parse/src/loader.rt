//! The receiver that makes documents of events.
ghost use Rattle.std.specs.Prelude.{◌≡◌, ◌||◌, [], OnOk, IfOk, IfErr, true, false};
ghost use Rattle.snap_yaml.specs.View.{value_of};
ghost use Rattle.snap_parse.specs.Loader.{held_of};
ghost use Rattle.snap_parse.specs.Steps.{put_in};

use crate::scalar::scalar;
use snap_content::OutOfMemory;
use snap_parse_events::{Event, MarkedEventReceiver};
use snap_scan_tokens::{Marker, ScanError};
use snap_yaml::{Array, Hash, Yaml};
use std::alloc::Global;
use std::collections::VecDeque;

/// The documents of a text.
#[derive(Drop)]
pub struct Documents {
    /// A value for each document.
    pub values: Array,
    /// Whether an alias stands in one of them. An alias has no value: its place is left out.
    pub has_alias: bool,
}

/// A list or a mapping that is open.
#[derive(Drop)]
pub(crate) enum Frame {
    List(Array),
    /// With the key whose value is due.
    Dict(Hash, Option<Yaml>),
}

/// Puts a value into a mapping: a key, or the value that its key is waiting for. A key without a node is left out.
fn put_in_dict(pairs: &mut Hash, due: &mut Option<Yaml>, made: Yaml) -> Result<(), OutOfMemory>
    ensures { OnOk result (held_of (Frame.Dict pairs.new due.new)
        ≡ put_in (value_of made) (held_of (Frame.Dict pairs.old due.old))) }
{
    match due.take() {
        Some(key) => pairs.push((key, made)),
        None => {
            if !made.is_badvalue() {
                *due = Some(made);
            }
            Ok(())
        }
    }
}

impl Frame {
    /// Puts a value where it belongs.
    fn put(&mut self, made: Yaml) -> Result<(), OutOfMemory>
        ensures { OnOk result (held_of self.new ≡ put_in (value_of made) (held_of self.old)) }
    {
        match self {
            Frame::List(items) => items.push(made),
            Frame::Dict(pairs, due) => put_in_dict(pairs, due, made),
        }
    }
}

/// Makes documents of events, in place of a recursion by what is open.
#[derive(Drop)]
pub(crate) struct Loader {
    alloc: Global,
    documents: Array,
    /// The node of the document that is open, once it is whole.
    node: Option<Yaml>,
    /// What is open, the innermost first.
    open: VecDeque<Frame>,
    /// An alias came.
    has_alias: bool,
    /// An event was lost when memory ran out.
    is_broken: bool,
}

impl Loader {
    ghost use Rattle.snap_parse.specs.Steps.{put, close, end_document, step};
    ghost use Rattle.snap_parse.specs.Aliases.{is_alias};
    ghost use Rattle.snap_parse.specs.Loader.{state_of, HasLoaded, HoldsDocuments};

    pub(crate) fn new(alloc: Global) -> Loader
        ensures { HasLoaded result [] }
    {
        Loader {
            alloc,
            documents: Array::new(alloc),
            node: None,
            open: VecDeque::new(alloc),
            has_alias: false,
            is_broken: false,
        }
    }

    /// The documents, unless an event was lost.
    pub(crate) fn into_documents(self) -> Result<Documents, ScanError>
        ensures ok { IfOk result (λ made. HoldsDocuments self made) }
        ensures err { IfErr result (λ e. e ≡ ScanError.OutOfMemory) }
    {
        if self.is_broken {
            return Err(ScanError::OutOfMemory);
        }
        Ok(Documents {
            values: self.documents,
            has_alias: self.has_alias,
        })
    }

    /// Puts a value where it belongs.
    fn put(&mut self, made: Yaml) -> Result<(), OutOfMemory>
        ensures made { OnOk result (state_of self.new ≡ put (value_of made) (state_of self.old)) }
        ensures alias { self.new.has_alias ≡ self.old.has_alias }
    {
        match self.open.front_mut() {
            None => self.node = Some(made),
            Some(frame) => frame.put(made)?,
        }
        Ok(())
    }

    /// Ends what is open.
    fn close(&mut self) -> Result<(), OutOfMemory>
        ensures made { OnOk result (state_of self.new ≡ close (state_of self.old)) }
        ensures alias { self.new.has_alias ≡ self.old.has_alias }
    {
        match self.open.pop_front() {
            None => Ok(()),
            Some(Frame::List(items)) => self.put(Yaml::Array(items)),
            Some(Frame::Dict(pairs, _)) => self.put(Yaml::Hash(pairs)),
        }
    }

    /// Ends a document.
    fn end_document(&mut self) -> Result<(), OutOfMemory>
        ensures made { OnOk result (state_of self.new ≡ end_document (state_of self.old)) }
        ensures alias { self.new.has_alias ≡ self.old.has_alias }
    {
        let node = match self.node.take() {
            None => Yaml::BadValue,
            Some(node) => node,
        };
        self.documents.push(node)
    }

    /// What an event changes.
    fn take(&mut self, event: Event<'_>) -> Result<(), OutOfMemory>
        ensures made { OnOk result (state_of self.new ≡ step event.entry (state_of self.old)) }
        ensures alias { OnOk result (self.new.has_alias
            ≡ (is_alias event.entry || self.old.has_alias)) }
    {
        match event {
            Event::StreamStart | Event::StreamEnd | Event::DocumentStart => Ok(()),
            Event::Alias(_) => {
                self.has_alias = true;
                Ok(())
            }
            Event::DocumentEnd => self.end_document(),
            Event::Scalar(text, style, _, tag) => self.put(scalar(self.alloc, text, style, tag)?),
            Event::SequenceStart(_) => {
                let items = Array::new(self.alloc);
                self.open.push_front(Frame::List(items))?;
                Ok(())
            }
            Event::MappingStart(_) => {
                let pairs = Hash::new(self.alloc);
                self.open.push_front(Frame::Dict(pairs, None))?;
                Ok(())
            }
            Event::SequenceEnd | Event::MappingEnd => self.close(),
        }
    }
}

impl MarkedEventReceiver for Loader {
    ghost use Rattle.snap_parse.specs.Loader.{HasLoaded};

    ghost told = { HasLoaded };

    fn on_event(&mut self, ev: Event<'_>, _mark: Marker) -> Result<(), OutOfMemory> {
        if self.is_broken {
            return Err(OutOfMemory);
        }
        match self.take(ev) {
            Ok(()) => {
                self.is_broken = false;
                Ok(())
            }
            Err(error) => {
                self.is_broken = true;
                Err(error)
            }
        }
    }
}
