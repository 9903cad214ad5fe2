//! Laws of printed texts, and of texts in free layouts.
ghost use Rattle.std.specs.Prelude.{◌≡◌, ◌∷◌, ◌++◌, [], false, true, ℕ, List, Some, length};
ghost use Rattle.snap_content.specs.Plain.{Plain};
ghost use Rattle.snap_print.specs.Blocks.{Blocks};
ghost use Rattle.snap_print.specs.Lines.{document_of};
ghost use Rattle.snap_scan_tokens.specs.Place.{before_nul, Place};
ghost use Rattle.snap_scan_tokens.specs.declared.quoted.Quotes.{Quotes};
ghost use Rattle.snap_scan_tokens.specs.declared.token.Token.{Token};
ghost use Rattle.snap_scan.specs.Fetching.{Leaves, plain, quoted, read_key, told, value_of_key};
ghost use Rattle.snap_scan.specs.State.{State};
ghost use Rattle.snap_scan.specs.declared.keys.SimpleKey.{SimpleKey};
ghost use Rattle.snap_scan.specs.declared.kind.TokenKind.{TokenKind};
ghost use Rattle.snap_scan.specs.Owed.{Owes};
ghost use Rattle.snap_scan.specs.Scan.{start_scan};
ghost use Rattle.snap_parse_laws.specs.Endings.{ends_in_block};
ghost use Rattle.snap_parse_laws.specs.FreeLayouts.{IsFree};
ghost use Rattle.snap_parse_laws.specs.KeyPlaces.{NamesLast, StandsBefore};
ghost use Rattle.snap_parse_laws.specs.LayoutExamples.{AreLaid};
ghost use Rattle.snap_parse_laws.specs.LayoutTokens.{layout_tokens};
ghost use Rattle.snap_parse_laws.specs.Layouts.{Document};
ghost use Rattle.snap_parse_laws.specs.LayoutTexts.{document_text};
ghost use Rattle.snap_parse_laws.specs.LayoutRules.{IsDocument};
ghost use Rattle.snap_parse_laws.specs.Tokens.{document_tokens, document_with};

/// A new scanner of the text that is printed for a plain tree, with literal blocks or without, owes the tree's tokens, whatever
/// tree it is: so `next` gives them one after the other, and nothing is refused.
pub const fn printed_texts_owe_their_tokens()
    ensures { (w : Blocks) (p : Plain) → Owes (start_scan (before_nul (document_of w p))).state
        (document_tokens w p) }
{}

/// So does that of such a text without the end of its last line, where no block ends the text.
pub const fn dumped_texts_owe_their_tokens()
    ensures { (w : Blocks) (p : Plain) (text : List ℕ) → ends_in_block w p ≡ false
        → text ++ 10 ∷ [] ≡ document_of w p
        → Owes (start_scan (before_nul text)).state (document_tokens w p) }
{}

/// A new scanner of a text in any free layout owes the tokens of its tree.
pub const fn laid_texts_owe_their_tokens()
    ensures { (d : Document) → IsDocument d
        → Owes (start_scan (before_nul (document_text d))).state (document_with (layout_tokens d.tree)) }
{}

/// A new scanner of a text that a hand wrote in the free layout owes the tokens of its tree.
pub const fn free_layouts_owe_their_tokens()
    ensures { (d : Document) → IsFree d
        → Owes (start_scan (before_nul (document_text d))).state (document_with (layout_tokens d.tree)) }
{}

/// Where a simple key may begin, the possible key that a plain or a quoted scalar, an alias, an anchor or a tag leaves names the token
/// that was put, and has its mark.
pub const fn possible_keys_are_their_tokens()
    ensures plain { (s u : State) (p : Place) (key : SimpleKey) → s.allowed ≡ true
        → plain s ≡ told p u → u.keys.key ≡ Some key → NamesLast key u.held }
    ensures quoted { (quotes : Quotes) (s u : State) (p : Place) (key : SimpleKey)
        → s.allowed ≡ true → quoted quotes s ≡ told p u → u.keys.key ≡ Some key
        → NamesLast key u.held }
    ensures read { (kind : TokenKind) (s u : State) (key : SimpleKey) → s.allowed ≡ true
        → Leaves (read_key kind s) u → u.keys.key ≡ Some key → NamesLast key u.held }
{}

/// At the `:` of a possible key, Key is put right before the token that it names, at the key's mark.
pub const fn keys_stand_before_their_tokens()
    ensures { (s : State) (key : SimpleKey) (before : List Token) (token : Token)
        (behind : List Token) → s.held ≡ before ++ token ∷ behind → key.place ≡ length before
        → StandsBefore key before token (value_of_key key s).held }
{}

/// Layouts and their texts, worked out by hand.
pub const fn worked_examples()
    ensures { AreLaid }
{}
