//! How a scalar is taken elsewhere.
ghost use Rattle.std.specs.Prelude.{◌≡◌};
ghost use Rattle.snap_explain_scalars.specs.Said.{said};

/// How other readers take a plain scalar that ours takes otherwise.
#[derive(Clone, Copy, Debug, PartialEq, Eq)]
pub enum Otherwise {
    /// A number of ours, which some take for a text or for another number.
    TextOrNumber,
    /// A number of ours, which some take for a text.
    Text,
    /// The others are texts of ours.
    Truth,
    Null,
    Number,
    Date,
    MergeKey,
    DefaultKey,
}

impl Otherwise {
    /// In words that stand after the scalar.
    pub fn text(&self) -> &'static str
        ensures { result.now ≡ said self.now }
    {
        match self {
            Otherwise::TextOrNumber => {
                "a number here, and a text or another number to some other readers of YAML"
            }
            Otherwise::Text => "a number here, and a text to some other readers of YAML",
            Otherwise::Truth => "a text here, and a truth value to some other readers of YAML",
            Otherwise::Null => "a text here, and null to some other readers of YAML",
            Otherwise::Number => "a text here, and a number to some other readers of YAML",
            Otherwise::Date => "a text here, and a date to some other readers of YAML",
            Otherwise::MergeKey => "a text here, and a merge key to some other readers of YAML",
            Otherwise::DefaultKey => "a text here, and a default key to some other readers of YAML",
        }
    }
}
