//! The keys of a request and of its redactions.
ghost use Rattle.std.specs.Prelude.{IsTrue};
ghost use Rattle.std.specs.Char.{is_ascii};
ghost use Rattle.std.specs.List.{list_all};

/// A key of a request, or of one of its redactions.
#[derive(Clone, Copy, Debug, PartialEq, Eq)]
pub enum Key {
    Module,
    File,
    Line,
    Name,
    Function,
    Suffix,
    Expr,
    Value,
    Redactions,
    /// Of both.
    Sort,
    At,
    Put,
    /// Of a request that opens or closes a block.
    Duplicates,
}

impl Key {
    ghost use Rattle.std.specs.Prelude.{◌≡◌};
    ghost use Rattle.snap_run_requests.specs.Keys.{name_of};

    /// Each key.
    pub const ALL: [Key; 13] = [
        Key::Module,
        Key::File,
        Key::Line,
        Key::Name,
        Key::Function,
        Key::Suffix,
        Key::Expr,
        Key::Value,
        Key::Redactions,
        Key::Sort,
        Key::At,
        Key::Put,
        Key::Duplicates,
    ];

    /// The keys that an assertion may have.
    pub const OF_ASSERTION: [Key; 10] = [
        Key::Module,
        Key::File,
        Key::Line,
        Key::Name,
        Key::Function,
        Key::Suffix,
        Key::Expr,
        Key::Value,
        Key::Redactions,
        Key::Sort,
    ];

    /// The key that a request for a block has.
    pub const OF_BLOCK: [Key; 1] = [Key::Duplicates];

    /// The keys that a redaction may have.
    pub const OF_REDACTION: [Key; 3] = [Key::At, Key::Put, Key::Sort];

    /// How the key is written.
    pub const fn name(&self) -> &'static str
        ensures name { result.now ≡ name_of self.now }
        ensures ascii { IsTrue (list_all is_ascii result.now) }
    {
        match self {
            Key::Module => "module",
            Key::File => "file",
            Key::Line => "line",
            Key::Name => "name",
            Key::Function => "function",
            Key::Suffix => "suffix",
            Key::Expr => "expr",
            Key::Value => "value",
            Key::Redactions => "redactions",
            Key::Sort => "sort",
            Key::At => "at",
            Key::Put => "put",
            Key::Duplicates => "duplicates",
        }
    }
}
