//! The snapshots of a literal, made before anything is compared.
ghost use Rattle.std.specs.Prelude.{◌≡◌, Ok, false, IfOk, IfErr, OnErr};
ghost use Rattle.snap_text_literals.specs.OfLiteral.{of_literal};
ghost use Rattle.snap_store.specs.Views.{meta_of, name_in, contents_in, snapshot_of};
ghost use Rattle.snap_assert_settings.specs.Settings.{settings_of};
ghost use Rattle.snap_assert_place.specs.Place.{place_of};
ghost use Rattle.snap_assert.specs.Blocks.{keep_step};
ghost use Rattle.snap_assert.specs.LiteralCourses.{CourseStops, inline_key, literal_course_of};
ghost use Rattle.snap_assert.specs.LiteralOutcomes.{AreLiterals};
ghost use Rattle.snap_assert.specs.Literals.{literal_assertion_of, inline_of};
ghost use Rattle.snap_assert.specs.Names.{RefusedAs};
ghost use Rattle.snap_assert.specs.Session.{session_of};

use crate::error::AssertError;
use crate::kept::keep_literal;
use crate::literal_names::take_literal_name;
use crate::session::Session;
use snap_assert_place::metadata::new_metadata;
use snap_assert_place::paths::{module_text, records_path};
use snap_assert_place::place::Place;
use snap_assert_settings::settings::Settings;
use snap_content::{OutOfMemory, Text};
use snap_store::{MetaData, Snapshot, SnapshotContents};
use snap_text::{TextSnapshotContents, TextSnapshotKind};
use std::alloc::Global;

/// The path of the records of a literal, and its snapshots: the one in the source, and the one that is made.
#[derive(Drop)]
pub struct Literals {
    pub path: Text,
    pub old: Snapshot,
    pub new: Snapshot,
}

/// The contents of a literal that reads as this text.
fn old_contents(alloc: Global, reference: &Text) -> Result<SnapshotContents, OutOfMemory>
    ensures { IfOk result (λ contents. contents
        ≡ SnapshotContents.Text (inline_of (of_literal reference.now))) }
{
    let contents = TextSnapshotContents::from_inline_literal(alloc, reference.as_str())?;
    Ok(SnapshotContents::from_text(contents))
}

/// The contents of a text that a literal is to stand for.
fn new_contents(content: Text) -> SnapshotContents
    ensures { result ≡ SnapshotContents.Text (inline_of content) }
{
    SnapshotContents::from_text(TextSnapshotContents::new(content, TextSnapshotKind::Inline))
}

/// The snapshot of these parts.
fn snapshot_made(
    module_name: Text,
    name: Option<Text>,
    metadata: MetaData,
    contents: SnapshotContents,
) -> Snapshot
    ensures { snapshot_of result
        ≡ record {
          module_name = module_name;
          snapshot_name = name;
          meta = meta_of metadata;
          contents = contents;
          was_legacy = false;
          number_as_text = false;
        } }
{
    Snapshot::from_components(module_name, name, metadata, contents)
}

/// The snapshots of a literal, under the name that is taken or without one.
fn literals_of(
    alloc: Global,
    settings: &Settings,
    place: &Place,
    name: Option<Text>,
    reference: &Text,
    content: Text,
) -> Result<Literals, OutOfMemory>
    ensures { IfOk result (λ literals. AreLiterals
        (literal_assertion_of (settings_of settings.now) (place_of place.now) reference.now content)
        (place_of place.now) reference.now name literals) }
{
    let path = records_path(alloc, place)?;
    let old_module = module_text(alloc, place)?;
    let new_module = old_module.try_clone(alloc)?;
    let old_contents = old_contents(alloc, reference)?;
    let metadata = new_metadata(alloc, settings, place)?;
    Ok(Literals {
        path,
        old: snapshot_made(old_module, None, MetaData::empty(), old_contents),
        new: snapshot_made(new_module, name, metadata, new_contents(content)),
    })
}

/// Asks the innermost block of duplicates for the new snapshot, and gives both back.
fn keep_new(
    alloc: Global,
    session: &mut Session,
    place: &Place,
    literals: Literals,
) -> Result<Literals, AssertError>
    ensures ok { IfOk result (λ made. (made ≡ literals)
        × (keep_step (inline_key (place_of place.now)) (contents_in literals.new)
        (session_of session.old) ≡ Ok (session_of session.new))) }
    ensures err { IfErr result (λ e. RefusedAs e (keep_step (inline_key (place_of place.now))
        (contents_in literals.new) (session_of session.old))) }
    ensures same { OnErr result (session_of session.new ≡ session_of session.old) }
{
    match keep_literal(alloc, session, place, literals.new.contents()) {
        Ok(()) => Ok(literals),
        Err(error) => {
            drop(literals);
            Err(error)
        }
    }
}

/// Makes the snapshots of a literal under the name that is taken, and asks the innermost block of duplicates.
fn literals_named(
    alloc: Global,
    session: &mut Session,
    settings: &Settings,
    place: &Place,
    name: Option<Text>,
    reference: &Text,
    content: Text,
) -> Result<Literals, AssertError>
    ensures made { IfOk result (λ literals. AreLiterals
        (literal_assertion_of (settings_of settings.now) (place_of place.now) reference.now content)
        (place_of place.now) reference.now name literals) }
    ensures ok { IfOk result (λ _. keep_step (inline_key (place_of place.now))
        (SnapshotContents.Text (inline_of content)) (session_of session.old)
        ≡ Ok (session_of session.new)) }
    ensures err { IfErr result (λ e. RefusedAs e (keep_step (inline_key (place_of place.now))
        (SnapshotContents.Text (inline_of content)) (session_of session.old))) }
    ensures same { OnErr result (session_of session.new ≡ session_of session.old) }
{
    let literals = literals_of(alloc, settings, place, name, reference, content)?;
    keep_new(alloc, session, place, literals)
}

/// Takes the name of a literal, makes its snapshots, and asks the innermost block of duplicates. No store is asked.
pub fn begin_literal(
    alloc: Global,
    session: &mut Session,
    settings: &Settings,
    place: &Place,
    reference: &Text,
    content: Text,
) -> Result<Literals, AssertError>
    ensures made { IfOk result (λ literals. AreLiterals
        (literal_assertion_of (settings_of settings.now) (place_of place.now) reference.now content)
        (place_of place.now) reference.now (name_in literals.new) literals) }
    ensures course { IfOk result (λ literals. literal_course_of
        (literal_assertion_of (settings_of settings.now) (place_of place.now) reference.now content)
        (session_of session.old)
        ≡ Ok (record { name = name_in literals.new; session = session_of session.new })) }
    ensures stopped { IfErr result (λ e. CourseStops
        (literal_assertion_of (settings_of settings.now) (place_of place.now) reference.now content)
        e (session_of session.old) (session_of session.new)) }
{
    match take_literal_name(alloc, session, settings, place) {
        Ok(name) => literals_named(alloc, session, settings, place, name, reference, content),
        Err(error) => {
            drop(content);
            Err(error)
        }
    }
}
