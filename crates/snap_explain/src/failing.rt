//! The finding of a page that a command has no answer for, written.
ghost use Rattle.std.specs.Prelude.{◌≡◌, List, ℕ, Some, IfOk, string_bytes};
ghost use Rattle.snap_io.specs.Causes.{Counted};
ghost use Rattle.snap_explain.specs.Findings.{Writes, is_write_fault};
ghost use Rattle.snap_explain.specs.Pages.{IsWhy, IsSaidOf, failing_text};

use crate::page::page_told;
use crate::page_words::words_told;
use crate::position::Place;
use crate::refusal::ReasonWords;
use crate::saying::SayError;
use snap_content::{OutOfMemory, Text};
use snap_emit::Refusal;
use snap_front::{FrontError, FrontStatus};
use snap_io::Sink;
use snap_io_streams::streams::write_all;
use snap_run_requests::Reason;
use std::alloc::Global;
use std::fmt;

/// What a finding points at.
#[derive(Clone, Copy, Debug, PartialEq, Eq)]
pub enum Pointed {
    /// The words, or the page as a whole.
    Nothing,
    /// A place of the page.
    Page(Place),
    /// A character of the word PATH, counted from 1.
    Path { column: usize },
    /// A place of the word VALUE.
    Value(Place),
}

impl fmt::Display for Pointed {
    ghost use Rattle.std.specs.Prelude.{Some};
    ghost use Rattle.snap_explain.specs.Pages.{pointed_text};

    ghost output = { λ pointed. Some (pointed_text pointed) };

    fn fmt<W: fmt::Write>(&self, f: &mut fmt::Formatter<W>) -> fmt::Result {
        match self {
            Pointed::Nothing => f.write_str(""),
            Pointed::Page(place) => write!(f, ", {place}"),
            Pointed::Path { column } => write!(f, ", PATH, character {column}"),
            Pointed::Value(place) => write!(f, ", VALUE, {place}"),
        }
    }
}

/// What is told besides the status: where, why a text is read as no tree, and what helps.
#[derive(Debug, Drop)]
pub struct PageTold {
    pub pointed: Pointed,
    /// Why the header, or VALUE, is read as no tree.
    pub why: Option<Refusal>,
    pub detail: Text,
}

impl PageTold {
    ghost use Rattle.std.specs.Prelude.{◌≡◌, None};

    /// A detail alone.
    pub(crate) fn of_detail(pointed: Pointed, detail: Text) -> PageTold
        ensures { result.why ≡ None }
    {
        PageTold {
            pointed,
            why: None,
            detail,
        }
    }

    /// Nothing besides the status.
    pub(crate) fn nothing() -> PageTold
        ensures { result.why ≡ None }
    {
        PageTold::of_detail(Pointed::Nothing, Text::empty())
    }
}

/// The words for a reason why a text is read as no tree.
#[derive(Clone, Copy, Debug)]
struct WhyWords {
    why: Option<Refusal>,
}

impl fmt::Display for WhyWords {
    ghost use Rattle.std.specs.Prelude.{Some};
    ghost use Rattle.snap_explain.specs.Pages.{why_text};

    ghost output = { λ words. Some (why_text words.why) };

    fn fmt<W: fmt::Write>(&self, f: &mut fmt::Formatter<W>) -> fmt::Result {
        match self.why {
            None => f.write_str(""),
            Some(why) => {
                let reason = Reason::NoTree(why);
                let words = ReasonWords { why: &reason };
                write!(f, ": {words}")
            }
        }
    }
}

/// What is said of a run that ended so, as a line.
fn failing(alloc: Global, status: &FrontStatus, told: &PageTold) -> Result<String, OutOfMemory>
    ensures { IfOk result (λ text. string_bytes text
        ≡ failing_text status.now told.now.pointed told.now.why told.now.detail) }
{
    let described = status.describe(alloc)?;
    let why = WhyWords { why: told.why };
    Ok(format!(in alloc; "{described}{}{why}{}\n", told.pointed, told.detail)?)
}

/// Writes what is said of a run that ended so.
fn say_told<K: Sink>(
    alloc: Global,
    status: &FrontStatus,
    told: &PageTold,
    sink: &mut K,
) -> Result<(), SayError>
    ensures said { (w : List ℕ) → K.written sink.old ≡ Some w
        → Writes (failing_text status.now told.now.pointed told.now.why told.now.detail) w
        (K.written sink.new) result }
    ensures cause { Counted is_write_fault (K.faults sink.old) (K.faults sink.new) result }
{
    let text = failing(alloc, status, told)?;
    write_all(sink, text.as_bytes())?;
    Ok(())
}

/// What is told of a page besides the status of the run.
fn told_of(
    alloc: Global,
    words: &[Text],
    document: &[u8],
    status: &FrontStatus,
) -> Result<PageTold, OutOfMemory>
    ensures { IfOk result (λ told. IsWhy words.now document.now told.why) }
{
    match status {
        FrontStatus::Failed(FrontError::BadWords) => words_told(alloc, words),
        FrontStatus::Failed(error) => page_told(alloc, words, document, error),
        _ => Ok(PageTold::nothing()),
    }
}

/// Says of a page why the run ended so.
pub(crate) fn say_failing<K: Sink>(
    alloc: Global,
    words: &[Text],
    document: &[u8],
    status: &FrontStatus,
    sink: &mut K,
) -> Result<(), SayError>
    ensures said { (w : List ℕ) → K.written sink.old ≡ Some w
        → IsSaidOf words.now document.now status.now w (K.written sink.new) result }
    ensures cause { Counted is_write_fault (K.faults sink.old) (K.faults sink.new) result }
{
    let told = told_of(alloc, words, document, status)?;
    let said = say_told(alloc, status, &told, sink);
    drop(told);
    said
}
