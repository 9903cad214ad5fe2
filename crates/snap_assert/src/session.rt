//! What assertions remember from one to the next.
use snap_assert_place::names::flat_module_text;
use snap_content::{OutOfMemory, Text};
use snap_store::SnapshotContents;
use std::alloc::Global;
use std::collections::{BTreeMap, BTreeSet};

/// How an automatic name was used: whether the function that it came from began with `test_`, where one was met, and how often it was
/// counted.
#[derive(Clone, Copy, Debug, PartialEq, Eq)]
pub struct Use {
    pub prefixed: Option<bool>,
    pub count: u64,
}

/// What assertions remember from one to the next: the names that were made, what open blocks of duplicates keep, and the literals that
/// were met.
#[derive(Drop)]
pub struct Session {
    alloc: Global,
    /// By module, with `__` for each `::`, and name.
    uses: BTreeMap<(Text, Text), Use>,
    /// The contents that each open block keeps, the innermost block last.
    blocks: Vec<BTreeMap<(Text, Text, Option<u32>), SnapshotContents>>,
    /// The literals that were met while no block was open, by function, file and line.
    literals: BTreeSet<(Text, Text, u32)>,
}

impl Session {
    ghost use Rattle.std.specs.Prelude.{◌≡◌, IfOk, OnOk, OnErr, option_copied};
    ghost use Rattle.snap_assert.specs.Session.{session_of, empty_session, opened, closed, is_open, use_of, with_use, kept_for, with_kept, with_counter, with_counters, is_met, with_literal, without_literal};

    /// The empty session: no name was made, no block is open, and no literal was met.
    pub fn new(alloc: Global) -> Session
        ensures { session_of result ≡ empty_session }
    {
        Session {
            alloc,
            uses: BTreeMap::new(alloc),
            blocks: Vec::new(alloc),
            literals: BTreeSet::new(alloc),
        }
    }

    /// A session in which names were used so often: each entry is a module, a name and a number, and of equal names the last one counts.
    pub fn with_counters(
        alloc: Global,
        counters: &[(Text, Text, u64)],
    ) -> Result<Session, OutOfMemory>
        ensures { IfOk result (λ session. session_of session
            ≡ with_counters counters.now empty_session) }
    {
        let mut session = Session::new(alloc);
        for counter in counters {
            session.set_counter(counter)?;
        }
        Ok(session)
    }

    /// Has a name of a module count as used so often.
    fn set_counter(&mut self, counter: &(Text, Text, u64)) -> Result<(), OutOfMemory>
        ensures { OnOk result (session_of self.new
            ≡ with_counter (session_of self.old) counter.now) }
    {
        let (module_name, name, count) = counter;
        let module_name = flat_module_text(self.alloc, module_name.as_str())?;
        let name = name.try_clone(self.alloc)?;
        let counted = Use {
            prefixed: None,
            count: *count,
        };
        self.put_use((module_name, name), counted)
    }

    /// Opens a block of duplicates: assertions of one name must then agree. After running out of memory the session is as it was.
    pub fn begin_duplicates(&mut self) -> Result<(), OutOfMemory>
        ensures ok { OnOk result (session_of self.new ≡ opened (session_of self.old)) }
        ensures err { OnErr result (session_of self.new ≡ session_of self.old) }
    {
        let block = BTreeMap::new(self.alloc);
        self.blocks.push(block)?;
        Ok(())
    }

    /// Closes the innermost block, and tells whether one was open. Without one the session is as it was.
    pub fn end_duplicates(&mut self) -> bool
        ensures open { result ≡ is_open (session_of self.old) }
        ensures closed { session_of self.new ≡ closed (session_of self.old) }
    {
        self.blocks.pop().is_some()
    }

    /// Whether a block is open.
    pub(crate) fn is_open(&self) -> bool
        ensures { result ≡ is_open (session_of self.now) }
    {
        !self.blocks.is_empty()
    }

    /// How a name was used.
    pub(crate) fn use_of(&self, key: &(Text, Text)) -> Option<Use>
        ensures { result ≡ use_of (session_of self.now) key.now }
    {
        self.uses.get(key).copied()
    }

    /// Remembers this of the name. After running out of memory the session is as it was.
    pub(crate) fn put_use(&mut self, key: (Text, Text), value: Use) -> Result<(), OutOfMemory>
        ensures ok { OnOk result (session_of self.new ≡ with_use (session_of self.old) key value) }
        ensures err { OnErr result (session_of self.new ≡ session_of self.old) }
    {
        self.uses.insert(key, value)?;
        Ok(())
    }

    /// Whether the literal was met.
    pub(crate) fn is_met(&self, key: &(Text, Text, u32)) -> bool
        ensures { result ≡ is_met (session_of self.now) key.now }
    {
        self.literals.contains(key)
    }

    /// Remembers that the literal was met. After running out of memory the session is as it was.
    pub(crate) fn meet(&mut self, key: (Text, Text, u32)) -> Result<(), OutOfMemory>
        ensures ok { OnOk result (session_of self.new ≡ with_literal (session_of self.old) key) }
        ensures err { OnErr result (session_of self.new ≡ session_of self.old) }
    {
        self.literals.insert(key)?;
        Ok(())
    }

    /// Forgets the literal.
    pub(crate) fn forget(&mut self, key: &(Text, Text, u32))
        ensures { session_of self.new ≡ without_literal (session_of self.old) key.now }
    {
        let _ = self.literals.remove(key);
    }

    /// What the innermost block keeps for the key.
    pub(crate) fn kept_for(&self, key: &(Text, Text, Option<u32>)) -> Option<&SnapshotContents>
        ensures { option_copied result ≡ kept_for (session_of self.now) key.now }
    {
        match self.blocks.last() {
            None => None,
            Some(block) => block.get(key),
        }
    }

    /// Keeps the contents for the key in the innermost block, where one is open. After running out of memory the session is as it was.
    pub(crate) fn put_kept(
        &mut self,
        key: (Text, Text, Option<u32>),
        contents: SnapshotContents,
    ) -> Result<(), OutOfMemory>
        ensures ok { OnOk result (session_of self.new
            ≡ with_kept (session_of self.old) key contents) }
        ensures err { OnErr result (session_of self.new ≡ session_of self.old) }
    {
        let Some(block) = self.blocks.last_mut() else {
            drop(key);
            drop(contents);
            return Ok(());
        };
        block.insert(key, contents)?;
        Ok(())
    }
}
