//! A fixed word for each cause that a finding may have.
ghost use Rattle.std.specs.Prelude.{◌≡◌};
ghost use Rattle.snap_explain.specs.Json.{tree_word, key_word, redaction_word, reason_word, file_word, kind_word, trouble_word};

use crate::trouble::{Cause, Trouble};
use snap_emit::Refusal;
use snap_run::RefusalKind;
use snap_run_requests::{KeyFault, Reason, RedactionFault};

fn tree_word(refusal: &Refusal) -> &'static str
    ensures { result.now ≡ tree_word refusal.now }
{
    match refusal {
        Refusal::NoYaml(_) => "no-yaml",
        Refusal::NotOneDocument => "not-one-value",
        Refusal::Alias => "alias",
        Refusal::NoTree => "no-value",
        Refusal::Number => "number",
    }
}

fn key_word(fault: &KeyFault) -> &'static str
    ensures { result.now ≡ key_word fault.now }
{
    match fault {
        KeyFault::Missing(_) => "missing-key",
        KeyFault::Twice(_) => "key-twice",
        KeyFault::Unknown { .. } => "unknown-key",
        KeyFault::WrongKind(_) => "wrong-kind",
    }
}

fn redaction_word(fault: &RedactionFault) -> &'static str
    ensures { result.now ≡ redaction_word fault.now }
{
    match fault {
        RedactionFault::NoMap => "redaction-no-map",
        RedactionFault::Key(fault) => key_word(fault),
        RedactionFault::NoSelector(_) => "no-selector",
        RedactionFault::NothingPut => "nothing-put",
        RedactionFault::PutAndSort => "put-and-sort",
    }
}

/// The word for why a document is no request.
pub(crate) fn reason_word(why: &Reason) -> &'static str
    ensures { result.now ≡ reason_word why.now }
{
    match why {
        Reason::NotUtf8 { .. } => "not-utf8",
        Reason::NoTree(refusal) => tree_word(refusal),
        Reason::NoMap => "no-map",
        Reason::Key(fault) => key_word(fault),
        Reason::NoFile => "no-file",
        Reason::NoRedaction { fault, .. } => redaction_word(fault),
    }
}

fn file_word(cause: Cause) -> &'static str
    ensures { result.now ≡ file_word cause }
{
    match cause {
        Cause::Absent => "no-snapshot",
        Cause::NotUtf8 => "snapshot-not-utf8",
        Cause::NoHeader => "snapshot-no-yaml",
        Cause::NoMap => "snapshot-no-map",
        Cause::NoExtension => "snapshot-no-extension",
        Cause::Binary => "snapshot-binary",
        Cause::Differs => "snapshot-differs",
    }
}

fn kind_word(kind: RefusalKind) -> &'static str
    ensures { result.now ≡ kind_word kind }
{
    match kind {
        RefusalKind::NameClash => "name-clash",
        RefusalKind::DoctestNeedsName => "doctest-needs-name",
        RefusalKind::DuplicateDiffers => "duplicate-differs",
        RefusalKind::NamesExhausted => "names-exhausted",
    }
}

/// The word for why a request would not pass, or that it passes with something to be said.
pub(crate) fn trouble_word(what: &Trouble) -> &'static str
    ensures { result.now ≡ trouble_word what.now }
{
    match what {
        Trouble::StrayEnd => "no-block",
        Trouble::Refused { kind, .. } => kind_word(*kind),
        Trouble::Unpassed { cause, .. } => file_word(*cause),
        Trouble::Noted { .. } => "noted",
    }
}
