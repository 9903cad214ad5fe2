//! Laws of the documents of an input, and worked examples.
ghost use Rattle.std.specs.Prelude.{◌≡◌, ◌∷◌, ℕ, List, [], codes};
ghost use Rattle.std.specs.List.{concat};
ghost use Rattle.std.specs.Str.{chars};
ghost use Rattle.snap_content.specs.Plain.{Plain, content_of};
ghost use Rattle.snap_print.specs.Readable.{IsWithin};
ghost use Rattle.snap_emit.specs.Spelled.{IsTextOf};
ghost use Rattle.snap_run_requests.specs.Cut.{documents};
ghost use Rattle.snap_run_requests.specs.Requests.{RequestView, IsRequest, Spells, ReadsAs};

/// The documents of an input, one after the other, are the input.
pub const fn cut_loses_nothing()
    ensures { (input : List ℕ) → concat (documents input) ≡ input }
{}

/// A document that spells a request is read as that one alone. One that is printed of a tree, or spells it, is read only as the
/// request that this tree is.
pub const fn a_document_is_read_as_it_is_spelled()
    ensures read { (document : List ℕ) (r : RequestView) → Spells document r → ReadsAs document r }
    ensures only { (document : List ℕ) (r other : RequestView) → Spells document r
        → ReadsAs document other → other ≡ r }
    ensures text { (document : List ℕ) (r : RequestView) (t : Plain) → ReadsAs document r
        → IsWithin t → IsTextOf (chars document) t → IsRequest (content_of t) r }
{}

/// Documents at concrete values.
pub const fn worked_examples()
    ensures cut { documents (codes "a: 1\n---\nb\n ---\n---\r\nc")
        ≡ codes "a: 1\n" ∷ codes "---\nb\n ---\n" ∷ codes "---\r\nc" ∷ [] }
{}
