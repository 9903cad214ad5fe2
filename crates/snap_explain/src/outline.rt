//! The nodes of a text, in the order in which they begin, each with its place.
use snap_content::characters::is_same;
use snap_content::{OutOfMemory, Text};
use snap_parse::{Event, LoadError, MarkedEventReceiver, Marker, Parser, TScalarStyle, Tag};
use std::alloc::Global;

/// What a node is.
#[derive(Clone, Copy, Debug, PartialEq, Eq)]
pub(crate) enum Kind {
    Mapping,
    Sequence,
    /// A scalar in quotes, or one that is written as a block.
    Quoted,
    /// Any other scalar.
    Plain,
    Alias,
}

/// A node: how many characters stand before it, in how many others it is, and the text of a scalar.
#[derive(Debug, Drop)]
pub(crate) struct Node {
    pub before: usize,
    pub depth: usize,
    pub kind: Kind,
    pub text: Text,
}

/// The nodes of a text up to its end, or up to where it is no YAML.
#[derive(Debug, Drop)]
pub(crate) struct Outline {
    alloc: Global,
    depth: usize,
    pub nodes: Vec<Node>,
    /// How many documents began.
    pub documents: usize,
    /// How many characters stand before the second one.
    pub second: usize,
}

/// How many nodes hold what comes after an event.
fn depth_after(event: &Event<'_>, depth: usize) -> usize {
    match event {
        Event::SequenceStart(_) | Event::MappingStart(_) => depth.saturating_add(1),
        Event::SequenceEnd | Event::MappingEnd => depth.saturating_sub(1),
        _ => depth,
    }
}

/// Whether a scalar is read by its text alone, or as what a tag of YAML's own says.
fn scalar_kind(style: TScalarStyle, tag: &Option<Tag>) -> Kind {
    match (style, tag) {
        (TScalarStyle::Plain, None) => Kind::Plain,
        (TScalarStyle::Plain, Some(tag)) if is_same(tag.handle().as_str(), "!!") => Kind::Plain,
        _ => Kind::Quoted,
    }
}

/// What node an event begins, if it begins one.
fn kind_begun(event: &Event<'_>) -> Option<Kind> {
    match event {
        Event::Alias(_) => Some(Kind::Alias),
        Event::Scalar(_, style, _, tag) => Some(scalar_kind(*style, tag)),
        Event::SequenceStart(_) => Some(Kind::Sequence),
        Event::MappingStart(_) => Some(Kind::Mapping),
        _ => None,
    }
}

/// The text of a scalar, and none of any other event.
fn text_of<'a>(event: &'a Event<'_>) -> &'a str {
    match event {
        Event::Scalar(text, _, _, _) => text.as_str(),
        _ => "",
    }
}

impl Outline {
    fn new(alloc: Global) -> Outline {
        Outline {
            alloc,
            depth: 0,
            nodes: Vec::new(alloc),
            documents: 0,
            second: 0,
        }
    }

    fn begin_document(&mut self, before: usize) {
        self.documents = self.documents.saturating_add(1);
        if self.documents == 2 {
            self.second = before;
        }
    }

    fn add(&mut self, kind: Kind, before: usize, text: &str) -> Result<(), OutOfMemory> {
        let text = Text::from_str(self.alloc, text)?;
        self.nodes.push(Node {
            before,
            depth: self.depth,
            kind,
            text,
        })?;
        Ok(())
    }
}

impl MarkedEventReceiver for Outline {
    fn on_event(&mut self, ev: Event<'_>, mark: Marker) -> Result<(), OutOfMemory> {
        if let Event::DocumentStart = &ev {
            self.begin_document(mark.index());
        }
        if let Some(kind) = kind_begun(&ev) {
            self.add(kind, mark.index(), text_of(&ev))?;
        }
        self.depth = depth_after(&ev, self.depth);
        Ok(())
    }
}

/// The nodes of a text.
pub(crate) fn outline_of(alloc: Global, text: &str) -> Result<Outline, OutOfMemory> {
    let mut outline = Outline::new(alloc);
    let mut parser = Parser::new(alloc, text);
    match parser.load(&mut outline, true) {
        Err(LoadError::OutOfMemory) => {
            drop(outline);
            Err(OutOfMemory)
        }
        _ => Ok(outline),
    }
}
