//! Laws of printed texts.
ghost use Rattle.std.specs.Prelude.{◌≡◌, true};
ghost use Rattle.snap_content.specs.Plain.{Plain};
ghost use Rattle.snap_print.specs.Readable.{IsWithin};
ghost use Rattle.snap_print.specs.Blocks.{Blocks};
ghost use Rattle.snap_print.specs.LineExamples.{ArePrinted};
ghost use Rattle.snap_print.specs.Lines.{lines_of};
ghost use Rattle.snap_print.specs.Printed.{AreRows, EndsWell, is_trimmed};

/// No line of a printed text holds a line's end or begins with two dashes, so none is `---` with white space after it. Where the
/// end is trimmed, the last line is not empty and ends in no white space.
pub const fn printed_lines_are_rows()
    ensures rows { (w : Blocks) (p : Plain) → IsWithin p → AreRows (lines_of w p) }
    ensures end { (w : Blocks) (p : Plain) → is_trimmed w ≡ true → IsWithin p → EndsWell (lines_of w p) }
{}

/// Texts with literal blocks, worked out by hand.
pub const fn worked_examples()
    ensures { ArePrinted }
{}
