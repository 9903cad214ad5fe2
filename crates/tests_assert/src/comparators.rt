//! Assertions by a comparator of the caller's own.
use snap_assert::{
    Comparator, Config, Place, Session, Settings, SnapshotValue, Update, Verdict,
    assert_content_by, assert_snapshot,
};
use snap_content::{Content, OutOfMemory, Text};
use snap_io::SteadyStore;
use snap_store::Snapshot;
use std::alloc::Global;
use std::test::Fail;

/// Every snapshot matches, and none does so fully.
#[derive(Clone, Copy, Debug)]
struct Lenient;

impl Comparator for Lenient {
    ghost agrees = { λ _ _ _. Unit {0} };

    ghost agrees_fully = { λ _ _ _. ⊥ };

    fn matches(
        &self,
        _alloc: Global,
        _reference: &Snapshot,
        _test: &Snapshot,
    ) -> Result<bool, OutOfMemory> {
        Ok(true)
    }

    fn matches_fully(
        &self,
        _alloc: Global,
        _reference: &Snapshot,
        _test: &Snapshot,
    ) -> Result<bool, OutOfMemory> {
        Ok(false)
    }
}

/// A store that holds the snapshot `one` of another value than is asserted.
fn store_with_another(alloc: Global) -> Result<SteadyStore, OutOfMemory> {
    let path = Text::from_ascii(alloc, "w/snapshots/m__one.snap")?;
    let mut store = SteadyStore::new(alloc);
    store.put(&path, b"---\nsource: a.rs\nexpression: x\n---\n2\n")?;
    Ok(store)
}

/// A configuration that writes nothing.
fn config_of(fully: bool) -> Config {
    Config {
        update: Update::NoUpdate,
        force_update: false,
        require_full_match: fully,
        force_pass: false,
        literal: false,
        run_id: Text::empty(),
    }
}

/// What comes of the assertion of 1 by that comparator, which writes nothing; none where it comes to no answer.
fn verdict_at(
    alloc: Global,
    store: &mut SteadyStore,
    fully: bool,
    place: &Place,
) -> Result<Option<Verdict>, OutOfMemory> {
    let config = config_of(fully);
    let name = Text::from_ascii(alloc, "one")?;
    let settings = Settings::new(alloc)?;
    let mut session = Session::new(alloc);
    let outcome = assert_content_by(
        alloc,
        &mut session,
        store,
        &config,
        &Lenient,
        &settings,
        place,
        Some(&name),
        Content::U8(1),
    );
    match outcome {
        Ok(outcome) => Ok(Some(outcome.verdict)),
        Err(_) => Ok(None),
    }
}

/// The same of the text `1`.
fn text_verdict_at(
    alloc: Global,
    store: &mut SteadyStore,
    fully: bool,
    place: &Place,
) -> Result<Option<Verdict>, OutOfMemory> {
    let config = config_of(fully);
    let name = Text::from_ascii(alloc, "one")?;
    let value = SnapshotValue::named(Some(name), Text::from_ascii(alloc, "1")?);
    let settings = Settings::new(alloc)?;
    let mut session = Session::new(alloc);
    let outcome = assert_snapshot(
        alloc,
        &mut session,
        store,
        &config,
        &settings,
        &Lenient,
        place,
        value,
    );
    match outcome {
        Ok(outcome) => Ok(Some(outcome.verdict)),
        Err(_) => Ok(None),
    }
}

fn place_of_test(alloc: Global) -> Result<Option<Place>, OutOfMemory> {
    let place = Place::new(
        Text::from_ascii(alloc, "w")?,
        Text::empty(),
        Text::from_ascii(alloc, "m")?,
        Text::from_ascii(alloc, "a.rs")?,
        1,
        Text::from_ascii(alloc, "x")?,
    );
    Ok(place.ok())
}

fn verdict_of(alloc: Global, fully: bool) -> Result<Option<Verdict>, OutOfMemory> {
    let mut store = store_with_another(alloc)?;
    match place_of_test(alloc)? {
        Some(place) => verdict_at(alloc, &mut store, fully, &place),
        None => Ok(None),
    }
}

fn text_verdict_of(alloc: Global, fully: bool) -> Result<Option<Verdict>, OutOfMemory> {
    let mut store = store_with_another(alloc)?;
    match place_of_test(alloc)? {
        Some(place) => text_verdict_at(alloc, &mut store, fully, &place),
        None => Ok(None),
    }
}

#[test]
fn a_comparator_of_the_callers_own_is_asked(rt: HostRuntime) -> Result<(), Fail> {
    let alloc = rt.alloc();
    assert_eq!(rt; verdict_of(alloc, false)?, Some(Verdict::Passed));
    Ok(())
}

#[test]
fn its_second_relation_is_asked_where_a_full_match_is_required(
    rt: HostRuntime,
) -> Result<(), Fail> {
    let alloc = rt.alloc();
    assert_eq!(rt; verdict_of(alloc, true)?, Some(Verdict::Rejected));
    Ok(())
}

#[test]
fn a_text_passes_by_the_same_relations(rt: HostRuntime) -> Result<(), Fail> {
    let alloc = rt.alloc();
    assert_eq!(rt; text_verdict_of(alloc, false)?, Some(Verdict::Passed));
    assert_eq!(rt; text_verdict_of(alloc, true)?, Some(Verdict::Rejected));
    Ok(())
}
