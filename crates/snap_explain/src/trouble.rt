//! Why a request would not pass, in words.
ghost use Rattle.std.specs.Prelude.{◌≡◌};
ghost use Rattle.snap_explain.specs.Troubles.{cause_text, kind_text};

use crate::notes::Notes;
use snap_content::Text;
use snap_run::RefusalKind;
use std::fmt;

/// Why the file at a path gives no pass.
#[derive(Clone, Copy, Debug, PartialEq, Eq)]
pub enum Cause {
    /// No file is there.
    Absent,
    /// It is no UTF-8.
    NotUtf8,
    /// Its header is not that of a tree.
    NoHeader,
    /// Its header is no map.
    NoMap,
    /// Its header says binary, without an extension.
    NoExtension,
    /// Its header says binary.
    Binary,
    /// Its body differs.
    Differs,
}

impl Cause {
    /// What is wrong with the file, in words.
    pub fn text(&self) -> &'static str
        ensures { result.now ≡ cause_text self.now }
    {
        match self {
            Cause::Absent => "no snapshot is there",
            Cause::NotUtf8 => "the snapshot is not UTF-8",
            Cause::NoHeader => "the header of the snapshot is no YAML",
            Cause::NoMap => "the header of the snapshot is no map",
            Cause::NoExtension => "the header of the snapshot says binary, without an extension",
            Cause::Binary => "the header of the snapshot says binary",
            Cause::Differs => "the snapshot differs",
        }
    }
}

/// Why a request would not pass, or would end a run; or what is to be said of one that passes.
#[derive(Debug, Drop)]
pub enum Trouble {
    /// A block ends where none is open.
    StrayEnd,
    /// What is remembered refuses it, and which document stands against it.
    Refused {
        kind: RefusalKind,
        detail: Text,
    },
    /// A file gives no pass: its path, and the same as a scalar is spelled.
    Unpassed {
        cause: Cause,
        file: Text,
        path: Text,
        detail: Text,
    },
    /// It passes, and this is to be said of it and of a file: the path of that, and the same as a scalar is spelled.
    Noted {
        notes: Notes,
        file: Text,
        path: Text,
    },
}

/// Why what is remembered refuses a request, in words.
fn kind_text(kind: RefusalKind) -> &'static str
    ensures { result.now ≡ kind_text kind }
{
    match kind {
        RefusalKind::NameClash => "another function, with or without test_, has the same name",
        RefusalKind::DoctestNeedsName => "a doctest without a name",
        RefusalKind::DuplicateDiffers => {
            "the open block of duplicates has another value under this name"
        }
        RefusalKind::NamesExhausted => "no number is left for this name",
    }
}

/// The words for why a request would not pass.
impl fmt::Display for Trouble {
    ghost use Rattle.std.specs.Prelude.{Some};
    ghost use Rattle.snap_explain.specs.Troubles.{trouble_text};

    ghost output = { λ trouble. Some (trouble_text trouble) };

    fn fmt<W: fmt::Write>(&self, f: &mut fmt::Formatter<W>) -> fmt::Result {
        match self {
            Trouble::StrayEnd => f.write_str("no block of duplicates is open"),
            Trouble::Refused { kind, detail } => write!(f, "{}{detail}", kind_text(*kind)),
            Trouble::Unpassed {
                cause,
                path,
                detail,
                ..
            } => write!(f, "{}: {path}{detail}", cause.text()),
            Trouble::Noted { notes, path, .. } => write!(f, "{notes}: {path}"),
        }
    }
}
