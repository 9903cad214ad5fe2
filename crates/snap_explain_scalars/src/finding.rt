//! The first such scalar of a document.
ghost use Rattle.std.specs.Prelude.{◌≡◌, IfOk, IfSome, MatchOption, None, OnErr, OnOk, Some};
ghost use Rattle.std.specs.Option.{option_or};
ghost use Rattle.std.specs.Str.{chars};
ghost use Rattle.snap_explain_scalars.specs.Elsewhere.{read_elsewhere};
ghost use Rattle.snap_explain_scalars.specs.Found.{IsFirstOf, seen, told, told_of};

use crate::elsewhere::read_elsewhere;
use crate::otherwise::Otherwise;
use crate::parts::may_hold;
use snap_content::{OutOfMemory, Text};
use snap_parse_events::{Event, LoadError, MarkedEventReceiver, Parser};
use snap_scan_tokens::{Marker, TScalarStyle};
use std::alloc::Global;

/// The first plain scalar that is read otherwise elsewhere: how many characters of the document stand before it, its text, and how.
#[derive(Debug, Drop)]
pub struct Found {
    pub before: usize,
    pub text: Text,
    pub otherwise: Otherwise,
}

/// Gets events, and keeps the first such scalar of them.
#[derive(Drop)]
struct Search {
    alloc: Global,
    found: Option<Found>,
}

/// The text of a plain scalar without a tag that is told.
fn told_in<'a>(event: &'a Event<'_>) -> Option<(&'a str, Otherwise)>
    ensures { MatchOption result (told_of event.now ≡ None)
        (λ it. told_of event.now ≡ told (chars it.0.now) (Some it.1)) }
{
    match event {
        Event::Scalar(text, TScalarStyle::Plain, _, None) => {
            let text = text.as_str();
            match read_elsewhere(text) {
                None => None,
                Some(otherwise) => Some((text, otherwise)),
            }
        }
        _ => None,
    }
}

impl Search {
    /// Keeps the scalar of an event, where it is told and none was before.
    fn keep(&mut self, event: &Event<'_>, before: usize) -> Result<(), OutOfMemory>
        ensures ok { OnOk result (seen self.new.found
            ≡ option_or (seen self.old.found) (told_of event.now)) }
        ensures err { OnErr result (self.new.found ≡ self.old.found) }
    {
        if self.found.is_some() {
            return Ok(());
        }
        match told_in(event) {
            None => Ok(()),
            Some((text, otherwise)) => {
                let text = Text::from_str(self.alloc, text)?;
                self.found = Some(Found {
                    before,
                    text,
                    otherwise,
                });
                Ok(())
            }
        }
    }
}

impl MarkedEventReceiver for Search {
    ghost use Rattle.std.specs.Prelude.{◌≡◌};
    ghost use Rattle.snap_explain_scalars.specs.Found.{first_told, seen};

    ghost told = { λ search events. seen search.found ≡ first_told events };

    fn on_event(&mut self, ev: Event<'_>, mark: Marker) -> Result<(), OutOfMemory> {
        self.keep(&ev, mark.index())
    }
}

/// The same, of any document.
fn find_first(alloc: Global, document: &str) -> Result<Option<Found>, OutOfMemory>
    ensures { IfOk result (λ found. IsFirstOf (chars document.now) found) }
{
    let mut search = Search { alloc, found: None };
    let mut parser = Parser::new(alloc, document);
    match parser.load(&mut search, true) {
        Err(LoadError::OutOfMemory) => {
            drop(search);
            Err(OutOfMemory)
        }
        _ => Ok(search.found),
    }
}

/// The first plain scalar of a document that is read otherwise elsewhere. A scalar in quotes, in a block, or with a tag is none.
///
/// Where it stands, and that none is passed over before it or in a document without one, is shown by tests.
pub fn first_otherwise(alloc: Global, document: &str) -> Result<Option<Found>, OutOfMemory>
    ensures told { IfOk result (λ found. MatchOption found (Unit {0})
        (λ f. read_elsewhere f.text ≡ Some f.otherwise)) }
    // What is found is the first one of the events that the parser gives.
    ensures first { IfOk result (λ found. IfSome found
        (λ f. IsFirstOf (chars document.now) (Some f))) }
{
    if !may_hold(document) {
        return Ok(None);
    }
    find_first(alloc, document)
}
