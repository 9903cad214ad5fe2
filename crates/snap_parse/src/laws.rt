//! What loading promises of documents.
ghost use Rattle.std.specs.Prelude.{◌≡◌, List, map, [], ◌∷◌};
ghost use Rattle.snap_content.specs.Plain.{Plain};
ghost use Rattle.snap_print.specs.Readable.{IsWithin};
ghost use Rattle.snap_print.specs.Blocks.{Blocks};
ghost use Rattle.snap_parse_laws.specs.Tokens.{document_tokens};
ghost use Rattle.snap_parse_events.specs.Nodes.{Node, stream_events};
ghost use Rattle.snap_parse_laws_json.specs.Nodes.{json_node};
ghost use Rattle.snap_parse_events.specs.Place.{start_spot};
ghost use Rattle.snap_parse_events.specs.Twin.{Yields};
ghost use Rattle.snap_parse.specs.Documents.{document_value};
ghost use Rattle.snap_parse.specs.PrintedEvents.{node_of};
ghost use Rattle.snap_parse.specs.PrintedValues.{read_value};
ghost use Rattle.snap_parse.specs.Steps.{steps, start};

/// The documents that are made of a stream's events, one event after the other, are the values of its nodes.
pub const fn documents_are_the_values_of_nodes()
    ensures { (nodes : List Node) → (steps (stream_events nodes) start).documents
        ≡ map document_value nodes }
{}

/// The tokens of what is printed for a plain tree yield the events of one document of its node.
pub const fn printed_tokens_yield_their_events()
    ensures { (w : Blocks) (p : Plain) → Yields start_spot (document_tokens w p)
        (stream_events (node_of w p ∷ [])) }
{}

/// What is printed for a plain tree is read as that tree, where its numbers have 128 bits, with literal blocks or without: a text
/// stays a text, in quotes or not, and a whole number that has more than 64 bits is kept as its digits.
pub const fn printed_trees_are_read_as_they_are()
    ensures { (w : Blocks) (p : Plain) → IsWithin p → document_value (node_of w p) ≡ read_value p }
{}

/// The JSON text of a plain tree is read as that tree, where its numbers have 128 bits: a text stays a text, since all of them
/// stand in quotes, and a whole number that has more than 64 bits is kept as its digits.
pub const fn json_trees_are_read_as_they_are()
    ensures { (p : Plain) → IsWithin p → document_value (json_node p) ≡ read_value p }
{}
