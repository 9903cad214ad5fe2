//! Laws of JSON texts.
ghost use Rattle.std.specs.Prelude.{◌≡◌, true, false};
ghost use Rattle.std.specs.List.{list_any};
ghost use Rattle.snap_content.specs.Plain.{content_of};
ghost use Rattle.snap_print.specs.Readable.{IsWithin};
ghost use Rattle.snap_content.specs.Tree.{Tree};
ghost use Rattle.snap_json.specs.JsonPlain.{json_plain};
ghost use Rattle.snap_json.specs.JsonText.{json_text, json_refuses};
ghost use Rattle.snap_json.specs.OneLine.{is_low, is_one_line};
ghost use Rattle.snap_json.specs.declared.format.Format.{Format};

/// What JSON keeps of a tree has the text of the tree, in each layout.
pub const fn what_json_keeps_has_the_same_text()
    ensures { (layout : Format) (t : Tree)
        → json_refuses t ≡ false
        → json_text layout (content_of (json_plain t)) ≡ json_text layout t }
{}

/// No character below a blank stands in a text that is not pretty: it is one line, whatever the tree holds.
pub const fn texts_on_one_line_have_no_line_end()
    ensures { (layout : Format) (t : Tree)
        → is_one_line layout ≡ true
        → IsWithin (json_plain t)
        → list_any is_low (json_text layout t) ≡ false }
{}
