//! Which documents of a stream came first: under a name, in a block of duplicates, at a path.
ghost use Rattle.std.specs.Prelude.{◌≡◌, length, IfOk, OnOk, true};
ghost use Rattle.snap_assert_place.specs.Place.{names_file};
ghost use Rattle.snap_explain.specs.Asked.{deeper, first_asker, nothing_seen, seen_of, shallower, told_first, with_asker, with_path};

use snap_assert::preview::Preview;
use snap_assert_place::names::name_key;
use snap_assert_place::place::Place;
use snap_assert_settings::settings::Settings;
use snap_content::{OutOfMemory, Text};
use snap_run_requests::request::Assertion;
use std::alloc::Global;
use std::collections::BTreeMap;

/// What an assertion takes, as its request alone tells it.
#[derive(Debug, Drop)]
pub(crate) struct Taking {
    module_name: Text,
    /// The module and the name that its uses are counted under, where the name comes from the function.
    key: Option<(Text, Text)>,
}

/// Under what the uses of the name are counted that comes from the function of an assertion.
fn key_of(alloc: Global, assertion: &Assertion) -> Result<(Text, Text), OutOfMemory>
    requires { names_file assertion.now.file ≡ true }
{
    let function = assertion.function.try_clone(alloc)?;
    let module_name = assertion.module_name.try_clone(alloc)?;
    let file = assertion.file.try_clone(alloc)?;
    let suffix = assertion.suffix.try_clone(alloc)?;
    let place = Place::of_file(
        Text::empty(),
        function,
        module_name,
        file,
        assertion.line,
        Text::empty(),
    );
    key_in(alloc, place, suffix)
}

/// The same at a place, with a suffix.
fn key_in(alloc: Global, place: Place, suffix: Text) -> Result<(Text, Text), OutOfMemory> {
    match Settings::new(alloc) {
        Ok(mut settings) => {
            settings.set_snapshot_suffix(suffix);
            let key = name_key(alloc, &settings, &place);
            drop(settings);
            drop(place);
            key
        }
        Err(error) => {
            drop(place);
            Err(error)
        }
    }
}

impl Taking {
    /// What the assertion takes.
    pub(crate) fn of(alloc: Global, assertion: &Assertion) -> Result<Taking, OutOfMemory>
        requires { names_file assertion.now.file ≡ true }
    {
        let module_name = assertion.module_name.try_clone(alloc)?;
        let key = match &assertion.name {
            Some(_) => None,
            None => Some(key_of(alloc, assertion)?),
        };
        Ok(Taking { module_name, key })
    }
}

/// The block keeps what the document puts under the key, where it has none.
fn keep_key(
    block: &mut BTreeMap<(Text, Text), u64>,
    number: u64,
    key: (Text, Text),
) -> Result<(), OutOfMemory> {
    if !block.contains_key(&key) {
        block.insert(key, number)?;
    }
    Ok(())
}

/// The same of the innermost block, where one is open.
fn keep_in(
    blocks: &mut Vec<BTreeMap<(Text, Text), u64>>,
    number: u64,
    key: (Text, Text),
) -> Result<(), OutOfMemory>
    ensures { length blocks.new.items ≡ length blocks.old.items }
{
    match blocks.last_mut() {
        Some(block) => keep_key(block, number, key),
        None => {
            drop(key);
            Ok(())
        }
    }
}

/// The documents of a stream, by their numbers, that came first under a name, in a block, and at a path. A refused one takes nothing.
#[derive(Drop)]
pub(crate) struct Earlier {
    alloc: Global,
    /// By module and name, of names that come from functions.
    names: BTreeMap<(Text, Text), u64>,
    /// By module and name, of each open block, the innermost last.
    blocks: Vec<BTreeMap<(Text, Text), u64>>,
    paths: BTreeMap<Text, u64>,
}

impl Earlier {
    /// Before the first document.
    pub(crate) fn new(alloc: Global) -> Earlier
        ensures { seen_of result ≡ nothing_seen }
    {
        Earlier {
            alloc,
            names: BTreeMap::new(alloc),
            blocks: Vec::new(alloc),
            paths: BTreeMap::new(alloc),
        }
    }

    /// A block opens.
    pub(crate) fn begin(&mut self) -> Result<(), OutOfMemory>
        ensures { OnOk result (seen_of self.new ≡ deeper (seen_of self.old)) }
    {
        let block = BTreeMap::new(self.alloc);
        self.blocks.push(block)?;
        Ok(())
    }

    /// The innermost block closes.
    pub(crate) fn end(&mut self)
        ensures { seen_of self.new ≡ shallower (seen_of self.old) }
    {
        let _ = self.blocks.pop();
    }

    /// The document that took the name first which this assertion takes.
    pub(crate) fn taker(&self, taking: &Taking) -> Option<u64> {
        match &taking.key {
            Some(key) => self.names.get(key).copied(),
            None => None,
        }
    }

    /// The document that put what the innermost block keeps.
    pub(crate) fn keeper(&self, key: &(Text, Text)) -> Option<u64> {
        match self.blocks.last() {
            Some(block) => block.get(key).copied(),
            None => None,
        }
    }

    /// The document with this number takes its name.
    pub(crate) fn take(&mut self, number: u64, taking: Taking) -> Result<Text, OutOfMemory>
        ensures { seen_of self.new ≡ seen_of self.old }
    {
        let Taking { module_name, key } = taking;
        if let Some(key) = key {
            if !self.names.contains_key(&key) {
                self.names.insert(key, number)?;
            }
        }
        Ok(module_name)
    }

    /// The innermost block keeps what this document puts, where it has none.
    fn keep(&mut self, number: u64, module_name: Text, name: &str) -> Result<(), OutOfMemory>
        ensures { OnOk result (seen_of self.new ≡ seen_of self.old) }
    {
        match Text::from_str(self.alloc, name) {
            Ok(name) => keep_in(&mut self.blocks, number, (module_name, name)),
            Err(error) => Err(error),
        }
    }

    /// The same where it puts something.
    fn keep_named(
        &mut self,
        number: u64,
        module_name: Text,
        name: Option<&str>,
    ) -> Result<(), OutOfMemory>
        ensures { OnOk result (seen_of self.new ≡ seen_of self.old) }
    {
        match name {
            Some(name) => self.keep(number, module_name, name),
            None => {
                drop(module_name);
                Ok(())
            }
        }
    }

    /// The document that asked for the path first.
    fn first_asker(&self, path: &Text) -> Option<u64>
        ensures { result ≡ first_asker path.now (seen_of self.now) }
    {
        self.paths.get(path).copied()
    }

    /// This document asked for the path first.
    fn remember(&mut self, number: u64, path: &Text) -> Result<(), OutOfMemory>
        ensures seen { OnOk result (seen_of self.new
            ≡ with_path number path.now (seen_of self.old)) }
        ensures depth { OnOk result ((seen_of self.new).depth ≡ (seen_of self.old).depth) }
    {
        let path = path.try_clone(self.alloc)?;
        self.paths.insert(path, number)?;
        Ok(())
    }

    /// The earlier document that asked for the path first. Where there is none, this is the first.
    fn ask(&mut self, number: u64, path: &Text) -> Result<Option<u64>, OutOfMemory>
        ensures first { IfOk result (λ first. first ≡ first_asker path.now (seen_of self.old)) }
        ensures seen { OnOk result (seen_of self.new
            ≡ with_asker number path.now (seen_of self.old)) }
        ensures depth { OnOk result ((seen_of self.new).depth ≡ (seen_of self.old).depth) }
    {
        match self.first_asker(path) {
            Some(first) => Ok(Some(first)),
            None => {
                self.remember(number, path)?;
                Ok(None)
            }
        }
    }

    /// The document with this number goes on, as it is foreseen. Which earlier one asked for the same path first.
    pub(crate) fn go_on(
        &mut self,
        number: u64,
        taking: Taking,
        preview: &Preview,
    ) -> Result<Option<u64>, OutOfMemory>
        ensures first { IfOk result (λ first. first
            ≡ first_asker preview.now.path (seen_of self.old)) }
        ensures seen { OnOk result (seen_of self.new
            ≡ with_asker number preview.now.path (seen_of self.old)) }
        ensures depth { OnOk result ((seen_of self.new).depth ≡ (seen_of self.old).depth) }
    {
        let module_name = self.take(number, taking)?;
        self.keep_named(number, module_name, preview.snapshot.snapshot_name())?;
        self.ask(number, &preview.path)
    }

    /// Of the earlier document that asked for the path first, what is told of a request that passes: nothing while a block is open.
    pub(crate) fn told(&self, first: Option<u64>) -> Option<u64>
        ensures { result ≡ told_first first (seen_of self.now).depth }
    {
        if self.blocks.is_empty() { first } else { None }
    }
}
