//! Laws of JSON texts.
ghost use Rattle.std.specs.Prelude.{◌≡◌, true, false, [], ◌∷◌};
ghost use Rattle.snap_content.specs.Plain.{Plain};
ghost use Rattle.snap_scan_tokens.specs.Place.{before_nul};
ghost use Rattle.snap_scan.specs.Owed.{Owes};
ghost use Rattle.snap_scan.specs.Scan.{start_scan};
ghost use Rattle.snap_parse_events.specs.Nodes.{stream_events};
ghost use Rattle.snap_parse_events.specs.Place.{start_spot};
ghost use Rattle.snap_parse_events.specs.Twin.{Yields};
ghost use Rattle.snap_json.specs.JsonText.{text_at, has_refused};
ghost use Rattle.snap_json.specs.declared.format.Format.TheVariants.{Condensed};
ghost use Rattle.snap_parse_laws_json.specs.Bounded.{is_bounded};
ghost use Rattle.snap_parse_laws_json.specs.Examples.{AreTokens, AreBounds};
ghost use Rattle.snap_parse_laws_json.specs.Nodes.{json_node};
ghost use Rattle.snap_parse_laws_json.specs.Tokens.{json_stream_tokens};

/// A new scanner of the condensed JSON text of a bounded tree owes the tree's tokens, whatever texts and numbers stand in it:
/// so `next` gives them one after the other, and nothing is refused.
pub const fn json_texts_owe_their_tokens()
    ensures { (p : Plain) → has_refused p ≡ false → is_bounded p ≡ true
        → Owes (start_scan (before_nul (text_at Condensed 0 p))).state (json_stream_tokens p) }
{}

/// These tokens yield the events of one document of the tree's node.
pub const fn json_tokens_yield_their_events()
    ensures { (p : Plain) → has_refused p ≡ false
        → Yields start_spot (json_stream_tokens p) (stream_events (json_node p ∷ [])) }
{}

/// Trees and their tokens, and where the bounds lie, worked out by hand.
pub const fn worked_examples()
    ensures tokens { AreTokens }
    ensures bounds { AreBounds }
{}
