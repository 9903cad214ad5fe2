//! Why a document is no request, in words.
ghost use Rattle.std.specs.Prelude.{◌≡◌};
ghost use Rattle.snap_explain.specs.Refusals.{taken_text, select_text, tree_text};

use snap_emit::Refusal;
use snap_run_requests::{Key, KeyFault, Reason, RedactionFault};
use snap_scan_tokens::ScanError;
use snap_select::SelectFault;
use std::fmt;

/// What a key takes.
fn taken_text(key: Key) -> &'static str
    ensures { result.now ≡ taken_text key }
{
    match key {
        Key::Line => "a whole number below 4,294,967,296",
        Key::Redactions => "a list",
        Key::Sort => "true or false",
        Key::Duplicates => "begin or end",
        _ => "a text",
    }
}

/// What is wrong in a selector.
pub(crate) fn select_text(fault: SelectFault) -> &'static str
    ensures { result.now ≡ select_text fault }
{
    match fault {
        SelectFault::BadToken => "no selector goes on so",
        SelectFault::DeepTwice => "a second .**",
        SelectFault::TooLarge => "a number that is too large",
    }
}

/// Why a text is no tree.
fn tree_text(refusal: &Refusal) -> &'static str
    ensures { result.now ≡ tree_text refusal.now }
{
    match refusal {
        Refusal::NoYaml(ScanError::Syntax(_, info)) => info.text(),
        Refusal::NoYaml(ScanError::OutOfMemory) => "no YAML",
        Refusal::NotOneDocument => "not one value",
        Refusal::Alias => "an alias",
        Refusal::NoTree => "something in it is no value",
        Refusal::Number => "a number that is no whole number of 128 bits",
    }
}

/// The words for a fault of a key.
#[derive(Clone, Copy, Debug)]
struct KeyWords<'a> {
    fault: &'a KeyFault,
}

impl fmt::Display for KeyWords<'_> {
    ghost use Rattle.std.specs.Prelude.{Some};
    ghost use Rattle.snap_explain.specs.Refusals.{key_text};

    ghost output = { λ words. Some (key_text words.fault.now) };

    fn fmt<W: fmt::Write>(&self, f: &mut fmt::Formatter<W>) -> fmt::Result {
        match self.fault {
            KeyFault::Missing(key) => write!(f, "the key {} is missing", key.name()),
            KeyFault::Twice(key) => write!(f, "the key {} stands twice", key.name()),
            KeyFault::Unknown { .. } => f.write_str("an unknown key"),
            KeyFault::WrongKind(key) => {
                write!(f, "the key {} takes {}", key.name(), taken_text(*key))
            }
        }
    }
}

/// The words for a fault of a redaction.
#[derive(Clone, Copy, Debug)]
struct RedactionWords<'a> {
    fault: &'a RedactionFault,
}

impl fmt::Display for RedactionWords<'_> {
    ghost use Rattle.std.specs.Prelude.{Some};
    ghost use Rattle.snap_explain.specs.Refusals.{redaction_text};

    ghost output = { λ words. Some (redaction_text words.fault.now) };

    fn fmt<W: fmt::Write>(&self, f: &mut fmt::Formatter<W>) -> fmt::Result {
        match self.fault {
            RedactionFault::NoMap => f.write_str("no map"),
            RedactionFault::Key(fault) => {
                let words = KeyWords { fault };
                write!(f, "{words}")
            }
            RedactionFault::NoSelector(error) => write!(
                f,
                "no selector, character {}: {}",
                error.column(),
                select_text(error.kind()),
            ),
            RedactionFault::NothingPut => f.write_str("neither put nor sort: true"),
            RedactionFault::PutAndSort => f.write_str("both put and sort"),
        }
    }
}

/// The words for a reason why a document is no request.
#[derive(Clone, Copy, Debug)]
pub(crate) struct ReasonWords<'a> {
    pub why: &'a Reason,
}

impl fmt::Display for ReasonWords<'_> {
    ghost use Rattle.std.specs.Prelude.{Some};
    ghost use Rattle.snap_explain.specs.Refusals.{reason_text};

    ghost output = { λ words. Some (reason_text words.why.now) };

    fn fmt<W: fmt::Write>(&self, f: &mut fmt::Formatter<W>) -> fmt::Result {
        match self.why {
            Reason::NotUtf8 { .. } => f.write_str("not UTF-8"),
            Reason::NoTree(refusal) => f.write_str(tree_text(refusal)),
            Reason::NoMap => f.write_str("no map"),
            Reason::Key(fault) => {
                let words = KeyWords { fault };
                write!(f, "{words}")
            }
            Reason::NoFile => f.write_str("the path at file names no file"),
            Reason::NoRedaction { place, fault } => {
                let words = RedactionWords { fault };
                write!(f, "redactions[{place}]: {words}")
            }
        }
    }
}
