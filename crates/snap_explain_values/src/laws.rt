//! Laws of what is asked of values.
ghost use Rattle.std.specs.Prelude.{◌≡◌, ◌≢◌, ◌↔◌, ◌<◌, ℕ, true, false, List, [], Some, slice_get};
ghost use Rattle.snap_content.specs.Tree.{Tree};
ghost use Rattle.snap_select.specs.Parts.{Parts};
ghost use Rattle.snap_select.specs.Redacted.{redacted};
ghost use Rattle.snap_explain_values.specs.Missed.{hits};
ghost use Rattle.snap_explain_values.specs.Twice.{is_same, has_twice};

/// A redaction that hits nothing changes nothing, whatever it puts.
pub const fn what_hits_nothing_changes_nothing()
    ensures { (parts : Parts) (put : Tree → Tree) (value : Tree) → hits parts [] value ≡ false
        → redacted parts put [] value ≡ value }
{}

/// A redaction that hits something changes the value, where it puts another tree in place of each.
pub const fn what_hits_changes_something()
    ensures other { (parts : Parts) (put : Tree → Tree) (value : Tree)
        → ((t : Tree) → put t ≢ t) → hits parts [] value ≡ true
        → redacted parts put [] value ≢ value }
    // Of two different trees, at most one stands wherever it hits.
    ensures trees { (parts : Parts) (one two value : Tree) → one ≢ two
        → hits parts [] value ≡ true → redacted parts (λ _. one) [] value ≡ value
        → redacted parts (λ _. two) [] value ≢ value }
{}

/// Trees are the same exactly where they are equal.
pub const fn same_trees_are_equal()
    ensures { (a b : Tree) → (is_same a b ≡ true) ↔ (a ≡ b) }
{}

/// A tree stands twice in a list exactly where two places hold it.
pub const fn twice_is_at_two_places()
    ensures twice { (trees : List Tree) → has_twice trees ≡ true → (i : ℕ) × (j : ℕ) × (t : Tree)
        × (i < j) × (slice_get trees i ≡ Some t) × (slice_get trees j ≡ Some t) }
    ensures once { (trees : List Tree) (i j : ℕ) (t : Tree) → i < j → slice_get trees i ≡ Some t
        → slice_get trees j ≡ Some t → has_twice trees ≡ true }
{}
