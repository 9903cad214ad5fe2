//! The names of anchors, with their numbers.
ghost use Rattle.std.specs.Prelude.{◌≡◌, IfOk, IfErr, OnOk, MatchOption, ⊤};
ghost use Rattle.snap_scan_tokens.specs.declared.info.ScanError.TheVariants.{OutOfMemory as WantOfMemory};
ghost use Rattle.snap_parse_events.specs.Names.{no_names, forgotten, id_of, IsAnchored, IsKnown, Registers};

use snap_content::Text;
use snap_scan_tokens::ScanError;
use std::alloc::Global;
use std::collections::BTreeMap;
use std::marker::Model;

/// The number that each name has now, and the next one, from 1. No number is given twice.
#[derive(Debug, Drop)]
pub struct Anchors {
    ids: BTreeMap<Text, usize>,
    next: usize,
}

impl Model for Anchors {
    ghost use Rattle.std.specs.Prelude.{◌≤◌};
    ghost use Rattle.snap_parse_events.specs.Names.{Names};

    ghost Value = { Names };

    ghost view = { λ anchors. record { known = anchors.ids.entries; next = anchors.next } };

    ghost invariant = { λ anchors. 1 ≤ anchors.next };
}

impl Anchors {
    pub(crate) fn new(alloc: Global) -> Anchors
        ensures { result ≡ no_names }
    {
        Anchors {
            ids: BTreeMap::new(alloc),
            next: 1,
        }
    }

    /// Gives a name the next number, whether it had one or not.
    pub(crate) fn register(&mut self, name: Text) -> Result<usize, ScanError>
        ensures ok { IfOk result (λ id. IsAnchored id self.old self.new) }
        ensures id { IfOk result (λ id. id ≡ self.old.next) }
        ensures named { OnOk result (Registers name self.old self.new) }
        ensures memory { IfErr result (λ e. e ≡ WantOfMemory) }
    {
        let id = self.next;
        let Some(next) = id.checked_add(1) else {
            return Err(ScanError::OutOfMemory);
        };
        self.ids.insert(name, id)?;
        self.next = next;
        Ok(id)
    }

    /// The number that a name has.
    pub(crate) fn id_of(&self, name: &Text) -> Option<usize>
        ensures id { result ≡ id_of name.now self.now }
        ensures known { MatchOption result ⊤ (λ id. IsKnown id self.now) }
    {
        self.ids.get(name).copied()
    }

    /// Forgets all names. Their numbers aren't given again.
    pub(crate) fn forget(&mut self)
        ensures { self.new ≡ forgotten self.old }
    {
        self.ids.clear();
    }
}
