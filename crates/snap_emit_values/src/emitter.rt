//! The emitter: it writes values into a text that it borrows.
ghost use Rattle.std.specs.Prelude.{◌≡◌, ◌++◌, OnOk, OnErr, false};
ghost use Rattle.snap_print.specs.Begun.{IsBegun};
ghost use Rattle.snap_emit_values.specs.Document.{dumped};
ghost use Rattle.snap_emit_values.specs.Emitter.{written, lent_name, is_literal};
ghost use Rattle.snap_emit_values.specs.Places.{dump_place};
ghost use Rattle.snap_emit_values.specs.Shape.{shape_of};

use crate::blocks::Blocks;
use crate::documents::push_dump;
use snap_content::{OutOfMemory, Text};
use snap_yaml::Yaml;
use std::alloc::Global;
use thiserror::Error;

/// Why a value was not written whole.
#[derive(Clone, Copy, Debug, PartialEq, Eq, Error)]
pub enum EmitError {
    #[error("OutOfMemory")]
    OutOfMemory,
}

impl From<OutOfMemory> for EmitError {
    fn from(_error: OutOfMemory) -> EmitError {
        EmitError::OutOfMemory
    }
}

pub type EmitResult = Result<(), EmitError>;

/// Writes values into a text that it borrows, with literal blocks where they are asked for.
#[derive(Drop)]
pub struct YamlEmitter<'a> {
    alloc: Global,
    writer: &'a mut Text,
    literal: bool,
}

impl<'a> YamlEmitter<'a> {
    /// An emitter without literal blocks.
    pub fn new(alloc: Global, writer: &'a mut Text) -> YamlEmitter<'a>
        ensures same_text { lent_name result ≡ writer.entry.ghost_name }
        ensures untouched { written result ≡ writer.old }
        ensures plain { is_literal result ≡ false }
    {
        YamlEmitter {
            alloc,
            writer,
            literal: false,
        }
    }

    /// Whether the next dumps have texts of several lines as literal blocks.
    pub fn use_literal_blocks(&mut self, value: bool)
        ensures same_text { lent_name self.new ≡ lent_name self.old }
        ensures untouched { written self.new ≡ written self.old }
        ensures set { is_literal self.new ≡ value }
    {
        self.literal = value;
    }

    /// Adds `---` and the lines of the value, without the end of the last unless that is a literal block's. When out of memory, a
    /// beginning of that was added.
    pub fn dump(&mut self, doc: &Yaml) -> EmitResult
        ensures same_text { lent_name self.new ≡ lent_name self.old }
        ensures same_setting { is_literal self.new ≡ is_literal self.old }
        ensures ok { OnOk result (written self.new
            ≡ written self.old ++ dumped (dump_place (is_literal self.old)) (shape_of doc.now)) }
        ensures err { OnErr result (IsBegun (written self.old) (written self.new)
            (dumped (dump_place (is_literal self.old)) (shape_of doc.now))) }
    {
        push_dump(self.writer, self.alloc, doc, Blocks::of_dump(self.literal))?;
        Ok(())
    }
}
