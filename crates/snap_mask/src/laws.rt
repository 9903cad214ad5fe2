//! What definitions promise by themselves.
ghost use Rattle.std.specs.Prelude.{◌≡◌, ◌≤◌, false, List, ℕ, Some};
ghost use Rattle.snap_content.specs.Plain.{Plain, content_of};
ghost use Rattle.snap_content.specs.Tree.{Tree};
ghost use Rattle.snap_print.specs.Readable.{IsWithin};
ghost use Rattle.snap_json.specs.JsonPlain.{json_plain};
ghost use Rattle.snap_json.specs.JsonText.{has_refused, json_refuses};
ghost use Rattle.snap_parse_laws_json.specs.Bounded.{has_long, levels};
ghost use Rattle.snap_assert_settings.specs.Replaced.{ReplacementView, redacted_by};
ghost use Rattle.snap_mask.specs.Records.{IsJsonLine, IsRecordOf, IsReadAgainAs};
ghost use Rattle.snap_mask.specs.Rules.{rules_in};

/// Rules that words spell keep keys that JSON accepts: a key that is reached becomes a text, and one that isn't stays.
pub const fn masked_keys_are_accepted()
    ensures { (words : List (List ℕ)) (rules : List ReplacementView) (t : Plain)
        → rules_in words ≡ Some rules → IsWithin t → has_refused t ≡ false
        → json_refuses (redacted_by rules (content_of t)) ≡ false }
{}

/// Rules that words spell make no value deeper.
pub const fn masking_adds_no_levels()
    ensures { (words : List (List ℕ)) (rules : List ReplacementView) (value : Tree)
        → rules_in words ≡ Some rules
        → levels (json_plain (redacted_by rules value)) ≤ levels (json_plain value) }
{}

/// The record of a line that is the JSON text of a tree is the JSON text of what JSON keeps of the masked tree: `parse_str` reads it
/// again as that, where no key became longer than keys may be. A text that is put in place of a key may be as long as it likes.
pub const fn a_record_is_read_again()
    ensures { (words : List (List ℕ)) (rules : List ReplacementView) (t : Plain) (line given : List ℕ)
        → rules_in words ≡ Some rules → IsJsonLine t line → IsRecordOf rules line given
        → has_long (json_plain (redacted_by rules (content_of t))) ≡ false
        → IsReadAgainAs (json_plain (redacted_by rules (content_of t))) given }
{}
