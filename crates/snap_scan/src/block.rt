//! Entries, keys and values.
ghost use Rattle.std.specs.Prelude.{◌≡◌, ◌≢◌, ◌<◌, ◌≤◌, OnOk, slice_index};
ghost use Rattle.snap_scan.specs.State.{state_of, extent, spent, work, Gives};
ghost use Rattle.snap_scan.specs.Fetching.{Does, block_entry, block_key, value_of_key, value_alone, value_behind};

use crate::fetcher::{Fetcher, ScanResult};
use crate::keys::SimpleKey;
use snap_scan_tokens::{ScanError, ScanInfo, TokenType};

impl<'a> Fetcher<'a> {
    /// `-`.
    pub(crate) fn fetch_block_entry(&mut self) -> ScanResult
        requires { slice_index (state_of self.old).place.left 0 ≢ 0 }
        ensures value { Does (block_entry (state_of self.old)) result (state_of self.new) }
        ensures cost { OnOk result (spent (state_of self.new) ≤ spent (state_of self.old)) }
        ensures work { OnOk result (work (state_of self.new) < work (state_of self.old)) }
        ensures extent { extent (state_of self.new) ≡ extent (state_of self.old) }
    {
        let mark = self.cursor.mark();
        if self.in_flow() {
            return Err(ScanError::Syntax(mark, ScanInfo::S25));
        }
        if !self.simple_key_allowed {
            return Err(ScanError::Syntax(mark, ScanInfo::S24));
        }
        self.roll_indent(mark.col(), None, mark, TokenType::BlockSequenceStart)?;
        self.remove_simple_key()?;
        self.allow_simple_key(true);
        self.skip();
        self.push_token(mark, TokenType::BlockEntry)
    }

    /// `?`.
    pub(crate) fn fetch_key(&mut self) -> ScanResult
        requires { slice_index (state_of self.old).place.left 0 ≢ 0 }
        ensures value { Does (block_key (state_of self.old)) result (state_of self.new) }
        ensures cost { OnOk result (spent (state_of self.new) ≤ spent (state_of self.old)) }
        ensures work { OnOk result (work (state_of self.new) < work (state_of self.old)) }
        ensures extent { extent (state_of self.new) ≡ extent (state_of self.old) }
    {
        let mark = self.cursor.mark();
        let in_flow = self.in_flow();
        if !in_flow && !self.simple_key_allowed {
            return Err(ScanError::Syntax(mark, ScanInfo::S35));
        }
        self.roll_indent(mark.col(), None, mark, TokenType::BlockMappingStart)?;
        self.remove_simple_key()?;
        self.allow_simple_key(!in_flow);
        self.skip();
        self.push_token(mark, TokenType::Key)
    }

    /// `:`.
    pub(crate) fn fetch_value(&mut self) -> ScanResult
        requires { slice_index (state_of self.old).place.left 0 ≢ 0 }
        ensures value { Does (value_behind (state_of self.old).keys.key (state_of self.old)) result
            (state_of self.new) }
        ensures cost { OnOk result (spent (state_of self.new) ≤ spent (state_of self.old)) }
        ensures work { OnOk result (work (state_of self.new) < work (state_of self.old)) }
        ensures extent { extent (state_of self.new) ≡ extent (state_of self.old) }
    {
        match self.keys.innermost() {
            Some(key) => self.fetch_value_of_key(key),
            None => self.fetch_value_alone(),
        }
    }

    /// The `:` after a simple key, whose Key and, where it begins a block, BlockMappingStart are put before its token.
    fn fetch_value_of_key(&mut self, key: SimpleKey) -> ScanResult
        requires { slice_index (state_of self.old).place.left 0 ≢ 0 }
        ensures value { Gives result (state_of self.new) (value_of_key key (state_of self.old)) }
        ensures cost { OnOk result (spent (state_of self.new) ≤ spent (state_of self.old)) }
        ensures work { OnOk result (work (state_of self.new) < work (state_of self.old)) }
        ensures extent { extent (state_of self.new) ≡ extent (state_of self.old) }
    {
        let mark = self.cursor.mark();
        self.insert_token(key.place, key.mark, TokenType::Key)?;
        self.roll_indent(
            key.mark.col(),
            Some(key.place),
            mark,
            TokenType::BlockMappingStart,
        )?;
        self.keys.remove();
        self.allow_simple_key(false);
        self.skip();
        self.push_token(mark, TokenType::Value)
    }

    /// A `:` that no simple key stands before.
    fn fetch_value_alone(&mut self) -> ScanResult
        requires { slice_index (state_of self.old).place.left 0 ≢ 0 }
        ensures value { Does (value_alone (state_of self.old)) result (state_of self.new) }
        ensures cost { OnOk result (spent (state_of self.new) ≤ spent (state_of self.old)) }
        ensures work { OnOk result (work (state_of self.new) < work (state_of self.old)) }
        ensures extent { extent (state_of self.new) ≡ extent (state_of self.old) }
    {
        let mark = self.cursor.mark();
        let in_flow = self.in_flow();
        if !in_flow && !self.simple_key_allowed {
            return Err(ScanError::Syntax(mark, ScanInfo::S36));
        }
        self.roll_indent(mark.col(), None, mark, TokenType::BlockMappingStart)?;
        self.allow_simple_key(!in_flow);
        self.skip();
        self.push_token(mark, TokenType::Value)
    }
}
