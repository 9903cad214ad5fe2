//! Laws of trees.
ghost use Rattle.std.specs.Prelude.{◌≡◌, ◌↔◌, ◌<◌, ◌≤◌, ℕ, false, List, length, slice_index_or};
ghost use Rattle.std.specs.Cmp.{IsTotalOrder};
ghost use Rattle.std.specs.List.Sorted.{IsPermutation};
ghost use Rattle.std.specs.Ordering.{ordering_then, is_lt};
ghost use Rattle.std.specs.Cmp.Lexicographic.{slice_cmp};
ghost use Rattle.std.specs.declared.cmp.Ordering.TheVariants.{Equal};
ghost use Rattle.snap_content.specs.Keys.{key_cmp};
ghost use Rattle.snap_content.specs.Compared.{content_cmp};
ghost use Rattle.snap_content.specs.Orders.{text_cmp, tree_cmp, trees_cmp, pairs_cmp, fields_cmp};
ghost use Rattle.snap_content.specs.Plain.{Plain, plain, content_of};
ghost use Rattle.snap_content.specs.Sorted.{Entry, InKeyOrder, Sorted};
ghost use Rattle.snap_content.specs.Tree.{Tree};
ghost use Rattle.snap_content.specs.View.{item_trees, pair_trees, field_trees};
ghost use Rattle.snap_content.specs.declared.content.Content.{Content};

/// The plain form of the tree that a reader makes of a plain tree is that plain tree.
pub const fn made_trees_are_plain()
    ensures { (p : Plain) → plain (content_of p) ≡ p }
{}

/// The order of trees is total.
pub const fn order_is_total()
    ensures { IsTotalOrder tree_cmp }
{}

/// The order answers `Equal` exactly where two trees are one.
pub const fn equal_in_order_is_equal()
    ensures { (a b : Tree) → (tree_cmp a b ≡ Equal) ↔ (a ≡ b) }
{}

/// Lists, which compare by their items, compare as the lists of the trees that they mean.
pub const fn lists_compare_as_their_trees()
    ensures items { (xs ys : List Content)
        → slice_cmp content_cmp xs ys ≡ trees_cmp (item_trees xs) (item_trees ys) }
    ensures pairs { (xs ys : List (Content × Content))
        → slice_cmp (λ x y. ordering_then (content_cmp x.0 y.0) (content_cmp x.1 y.1)) xs ys
        ≡ pairs_cmp (pair_trees xs) (pair_trees ys) }
    ensures fields { (xs ys : List (List ℕ × Content))
        → slice_cmp (λ x y. ordering_then (text_cmp x.0 y.0) (content_cmp x.1 y.1)) xs ys
        ≡ fields_cmp (field_trees xs) (field_trees ys) }
{}

/// The order of keys is total; keys that it does not tell apart compare with each other key alike.
pub const fn key_order_is_total()
    ensures { IsTotalOrder key_cmp }
{}

/// Entries in the order of their keys are those that they were, and no later one has a lesser key.
pub const fn entries_ascend()
    ensures same { (old new : List Entry) → InKeyOrder old new → IsPermutation old new }
    ensures ascends { (old new : List Entry) → InKeyOrder old new → (i j : ℕ) (d : Entry)
        → i ≤ j → j < length new
        → is_lt (key_cmp (slice_index_or new j d).0 (slice_index_or new i d).0) ≡ false }
{}

/// Entries have one such order.
pub const fn entries_have_one_order()
    ensures { (old new other : List Entry) → InKeyOrder old new → InKeyOrder old other
        → new ≡ other }
{}

/// Sorting twice is sorting once.
pub const fn sorting_twice_is_once()
    ensures { (tree once twice : Tree) → Sorted tree once → Sorted once twice → twice ≡ once }
{}
