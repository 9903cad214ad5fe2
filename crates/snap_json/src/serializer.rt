//! Condensed JSON, one value after the other in one text.
ghost use Rattle.std.specs.Prelude.{◌≡◌, ◌++◌, [], OnOk, OnErr, IsErrOf, true, false};
ghost use Rattle.snap_content.specs.View.{tree};
ghost use Rattle.snap_print.specs.Begun.{IsBegun};
ghost use Rattle.snap_print.specs.Readable.{IsWithin};
ghost use Rattle.snap_json.specs.JsonPlain.{json_plain};
ghost use Rattle.snap_json.specs.JsonText.{json_text, json_refuses};
ghost use Rattle.snap_json.specs.Written.{before_first_refusal};
ghost use Rattle.snap_json.specs.declared.error.JsonError.TheVariants.{JsonKey};
ghost use Rattle.snap_json.specs.declared.format.Format.TheVariants.{Condensed};

use crate::error::JsonError;
use crate::format::Format;
use crate::walk::write_value;
use snap_content::{Content, Text};
use std::alloc::Global;
use std::marker::Model;

/// Writes values as condensed JSON, one after the other in one text.
#[derive(Drop)]
pub struct Serializer {
    alloc: Global,
    out: Text,
}

/// A serializer is seen as the text so far.
impl Model for Serializer {
    ghost use Rattle.std.specs.Prelude.{ℕ, List};

    ghost Value = { List ℕ };

    ghost view = { λ serializer. serializer.out };
}

impl Serializer {
    pub fn new(alloc: Global) -> Serializer
        ensures { result ≡ [] }
    {
        Serializer {
            alloc,
            out: Text::empty(),
        }
    }

    /// Adds a value at the end. After `JsonKey` what stands before the first refused key was added, after running out of memory
    /// a beginning of that.
    pub fn serialize(&mut self, value: &Content) -> Result<(), JsonError>
        ensures ok { OnOk result (self.new ≡ self.old ++ json_text Condensed (tree value.now)) }
        ensures accepted { OnOk result (json_refuses (tree value.now) ≡ false) }
        ensures within { OnOk result (IsWithin (json_plain (tree value.now))) }
        ensures begun { OnErr result (IsBegun self.old self.new (before_first_refusal Condensed (tree value.now))) }
        ensures refused { IsErrOf result JsonKey → json_refuses (tree value.now) ≡ true }
        ensures up_to_key { IsErrOf result JsonKey → self.new ≡ self.old ++ before_first_refusal Condensed (tree value.now) }
    {
        write_value(&mut self.out, self.alloc, Format::Condensed, 0, value)
    }

    pub fn into_result(self) -> Text
        ensures { result ≡ self }
    {
        self.out
    }
}
