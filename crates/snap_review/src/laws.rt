//! What the definitions promise by themselves.
ghost use Rattle.std.specs.Prelude.{◌≡◌, List, ℕ, Option, Some, true};
ghost use Rattle.snap_assert_place.specs.Place.{PlaceView};
ghost use Rattle.snap_assert_place.specs.SnapshotPath.{records_path as records_left};
ghost use Rattle.snap_io.specs.Files.{Files};
ghost use Rattle.snap_path.specs.Paths.{joined, name_of};
ghost use Rattle.snap_text_literals.specs.Inline.{lead, inline_normal};
ghost use Rattle.snap_text_literals.specs.Spelled.{spelled};
ghost use Rattle.snap_review.specs.Ends.{ReviewOf};
ghost use Rattle.snap_review.specs.Patched.{IsPatched, IsRefused, Puts, ReadsBack};
ghost use Rattle.snap_review.specs.Places.{HasNoneMarked, IsMarked};
ghost use Rattle.snap_review.specs.Previews.{PreviewOf, is_refusal};
ghost use Rattle.snap_review.specs.Wanted.{records_path};
ghost use Rattle.snap_review.specs.declared.patching.NewLiteral.{NewLiteral};
ghost use Rattle.snap_review.specs.declared.patching.Refusal.{Refusal};
ghost use Rattle.snap_review.specs.declared.patching.Refusal.TheVariants.{OutOfMemory};
ghost use Rattle.snap_review.specs.declared.status.ReviewStatus.{ReviewStatus};
ghost use Rattle.snap_review.specs.declared.status.ReviewStatus.TheVariants.{Done};
ghost use Rattle.snap_review.specs.declared.words.Request.{Request};

/// What is put reads, as a literal, as a text that stands for a snapshot of the new text's normal form: so the assertion that asked
/// for it passes.
pub const fn what_is_put_reads_back()
    ensures { (source rest put behind : List ℕ) (change : NewLiteral)
        → (p : Puts source rest change put behind)
        → ReadsBack (spelled (lead p.place.from) (inline_normal change.text)) change.text }
{}

/// The first literal behind an `@` is one, and there is none where behind no `@` stands one.
pub const fn one_place()
    ensures one { (text here behind other after : List ℕ) → IsMarked text here behind
        → IsMarked text other after → (here ≡ other) × (behind ≡ after) }
    ensures none { (text here behind : List ℕ) → IsMarked text here behind
        → HasNoneMarked text → ⊥ }
{}

/// A source with new literals is one, and where there is one no change is refused, but where memory is out.
pub const fn one_patch()
    ensures one { (source : List ℕ) (changes : List NewLiteral) (made other : List ℕ)
        → IsPatched source source changes made → IsPatched source source changes other
        → made ≡ other }
    ensures taken { (source : List ℕ) (changes : List NewLiteral) (made : List ℕ)
        (refusal : Refusal) → IsPatched source source changes made
        → (refusal ≡ OutOfMemory → ⊥) → IsRefused source source changes refusal → ⊥ }
{}

/// A review of a source below a workspace finds the records where assertions in that source leave them.
pub const fn records_are_found()
    ensures { (place : PlaceView) (name : List ℕ) → name_of place.file ≡ Some name
        → records_path (joined place.workspace place.file) ≡ records_left place }
{}

/// What a review ends with is what a preview over the files before it may end with: the refusal of one that is refused, and that there is
/// a plan for one that is done.
pub const fn refusals_are_foreseen()
    ensures refused { (asked : Option Request) (status : ReviewStatus) (files after : Option Files)
        (written said : Option (List ℕ)) → is_refusal status ≡ true
        → ReviewOf asked status files after written said → PreviewOf asked status files }
    ensures done { (asked : Option Request) (files after : Option Files)
        (written said : Option (List ℕ)) → ReviewOf asked Done files after written said
        → PreviewOf asked Done files }
{}
