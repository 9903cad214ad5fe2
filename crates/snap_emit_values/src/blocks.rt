//! Where a tree stands in a text, which tells the texts that are written as literal blocks.
ghost use Rattle.std.specs.Prelude.{◌≡◌};
ghost use Rattle.snap_print.specs.Blocks.{blocks_if, before_more, is_inside};
ghost use Rattle.snap_emit_values.specs.Places.{place, dump_place};

/// Whether texts are written as literal blocks, and what follows where a tree stands.
#[derive(Clone, Copy, Debug)]
pub enum Blocks {
    /// No text is written as a block.
    Off,
    /// Something follows.
    Inside,
    /// Nothing follows.
    End,
    /// Nothing follows, and white space at the end is lost.
    Last,
}

impl Blocks {
    /// Where the text of a snapshot stands, with literal blocks or without.
    pub fn of_text(literal: bool) -> Blocks
        ensures { place result ≡ blocks_if literal }
    {
        if literal { Blocks::Last } else { Blocks::Off }
    }

    /// Where a dump stands, with literal blocks or without.
    pub fn of_dump(literal: bool) -> Blocks
        ensures { place result ≡ dump_place literal }
    {
        if literal { Blocks::End } else { Blocks::Off }
    }

    /// The place of what something follows.
    pub fn before_more(self) -> Blocks
        ensures { place result ≡ before_more (place self) }
    {
        match self {
            Blocks::Off => Blocks::Off,
            Blocks::Inside | Blocks::End | Blocks::Last => Blocks::Inside,
        }
    }

    /// Whether something follows.
    pub fn is_inside(self) -> bool
        ensures { result ≡ is_inside (place self) }
    {
        matches!(self, Blocks::Inside)
    }
}
