//! Laws of selectors' texts.
ghost use Rattle.std.specs.Prelude.{◌≡◌, ℕ, List, [], Some};
ghost use Rattle.snap_content.specs.Orders.{tree_cmp};
ghost use Rattle.snap_content.specs.Sorted.{Sorted};
ghost use Rattle.snap_content.specs.Tree.{Tree};
ghost use Rattle.snap_select.specs.Examples.{AreSelected, AreRefused};
ghost use Rattle.snap_select.specs.Grammar.{IsSelector};
ghost use Rattle.snap_select.specs.InOrder.{IsStableSort, ordered, pair_cmp, field_cmp};
ghost use Rattle.snap_select.specs.Parts.{Parts};
ghost use Rattle.snap_select.specs.Reading.{outcome, before_part, selects};
ghost use Rattle.snap_select.specs.Redacted.{redacted};
ghost use Rattle.snap_select.specs.Redacting.{IsRedacted, only};
ghost use Rattle.snap_select.specs.Redacts.{IsHit, Redacts};
ghost use Rattle.snap_select.specs.Selected.{selected};
ghost use Rattle.snap_select.specs.SortedTree.{sorted_tree};

/// A text is a selector of one list of parts at most.
pub const fn parts_are_unique()
    ensures { (text : List ℕ) (a b : Parts) → IsSelector text a → IsSelector text b → a ≡ b }
{}

/// Read character by character, a text gives exactly the parts of which it is a selector.
pub const fn reading_is_the_grammar()
    ensures selects { (text : List ℕ) (parts : Parts) → IsSelector text parts
        → outcome (before_part []) text ≡ selects parts }
    ensures selected { (text : List ℕ) (parts : Parts)
        → outcome (before_part []) text ≡ selects parts → IsSelector text parts }
{}

/// What is selected is the parts of a selector, and nothing where a text is none.
pub const fn selected_is_the_grammar()
    ensures some { (text : List ℕ) (parts : Parts) → IsSelector text parts
        → selected text ≡ Some parts }
    ensures selector { (text : List ℕ) (parts : Parts) → selected text ≡ Some parts
        → IsSelector text parts }
{}

/// Texts and their parts, and texts and their faults, that were worked out by hand.
pub const fn worked_examples()
    ensures selected { AreSelected }
    ensures refused { AreRefused }
{}

/// What sorting the maps of a tree makes is one tree.
pub const fn sorting_makes_the_sorted_tree()
    ensures { (c out : Tree) → Sorted c out → out ≡ sorted_tree c }
{}

/// Where the tree that is put follows from the value alone, what a redaction makes of a tree is one tree.
pub const fn one_redacted_tree()
    ensures { (ss : Parts) (put : Tree → Tree) (c out : Tree) → IsRedacted ss (only put) c out
        → out ≡ redacted ss put [] c }
{}

/// That one tree is what a redaction makes of the tree, position by position; and it is the tree itself where no position is hit.
pub const fn redacted_parts_are_the_redaction()
    ensures redacts { (ss : Parts) (put : Tree → Tree) (c : Tree)
        → Redacts ss (only put) c (redacted ss put [] c) }
    ensures untouched { (ss : Parts) (put : Tree → Tree) (c : Tree)
        → ((position : List ℕ) → ¬ IsHit ss [] c position) → redacted ss put [] c ≡ c }
{}

/// A stable sort has one outcome, the list in order: of trees, of the pairs of a map, and of the fields of a struct.
pub const fn stable_sorts_make_the_list_in_order()
    ensures trees { (old new : List Tree) → IsStableSort tree_cmp old new
        → new ≡ ordered tree_cmp old }
    ensures pairs { (old new : List (Tree × Tree)) → IsStableSort pair_cmp old new
        → new ≡ ordered pair_cmp old }
    ensures fields { (old new : List (List ℕ × Tree)) → IsStableSort field_cmp old new
        → new ≡ ordered field_cmp old }
{}
