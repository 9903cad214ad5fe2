//! Laws of events, and of what a parser makes of tokens.
ghost use Rattle.std.specs.Prelude.{◌≡◌, List, Some, true, false};
ghost use Rattle.snap_parse_events.specs.declared.event.Event.{Event as EventSeen};
ghost use Rattle.snap_parse_events.specs.Meaning.{Meaning, ahead, after_all};
ghost use Rattle.snap_parse_events.specs.Place.{start_spot};
ghost use Rattle.snap_parse_events.specs.Streams.{HasNoEnd, IsStream, AreDocuments, AreFront};
ghost use Rattle.snap_parse_events.specs.TokenTrees.{Tree, IsFit, document_tokens, document_events};
ghost use Rattle.snap_parse_events.specs.Twin.{Yields};

/// Events that may come, from the start up to the first StreamEnd, are StreamStart, documents and StreamEnd: each document has
/// one node between its marks, and each mapping an even number of nodes.
pub const fn whole_streams()
    ensures { (events : List EventSeen) → IsStream events → AreDocuments events }
{}

/// Events that may come, from the start on and before any StreamEnd, are the first of those of some documents, however many they
/// are.
pub const fn fronts_of_streams()
    ensures { (events : List EventSeen) (now : Meaning) → HasNoEnd events
        → after_all events ahead ≡ Some now → AreFront events }
{}

/// The tokens of a document of one tree, in any layout, yield the events of that tree.
pub const fn tokens_of_a_tree_yield_its_events()
    ensures { (t : Tree) → IsFit true false t
        → Yields start_spot (document_tokens t) (document_events t) }
{}
