//! Flow collections.
ghost use Rattle.std.specs.Prelude.{◌≡◌, ◌≢◌, ◌<◌, ◌≤◌, OnOk, slice_index};
ghost use Rattle.snap_scan.specs.State.{state_of, extent, spent, work};
ghost use Rattle.snap_scan.specs.Fetching.{Does, flow_start, flow_end, flow_entry};

use crate::fetcher::{Fetcher, ScanResult};
use snap_scan_tokens::{ScanError, ScanInfo, TokenType};

/// How many flow collections may be open at once.
const MOST_LEVELS: usize = 1023;

impl<'a> Fetcher<'a> {
    /// An opening bracket.
    pub(crate) fn fetch_flow_collection_start(&mut self, kind: TokenType<'a>) -> ScanResult
        requires { slice_index (state_of self.old).place.left 0 ≢ 0 }
        ensures value { Does (flow_start kind.entry (state_of self.old)) result
            (state_of self.new) }
        ensures cost { OnOk result (spent (state_of self.new) ≤ spent (state_of self.old)) }
        ensures work { OnOk result (work (state_of self.new) < work (state_of self.old)) }
        ensures extent { extent (state_of self.new) ≡ extent (state_of self.old) }
    {
        let mark = self.cursor.mark();
        self.save_simple_key()?;
        if self.keys.depth() >= MOST_LEVELS {
            return Err(ScanError::Syntax(mark, ScanInfo::S23));
        }
        self.keys.deepen()?;
        self.allow_simple_key(true);
        self.skip();
        self.push_token(mark, kind)
    }

    /// A closing bracket. Outside all flow collections it gives its token and closes none.
    pub(crate) fn fetch_flow_collection_end(&mut self, kind: TokenType<'a>) -> ScanResult
        requires { slice_index (state_of self.old).place.left 0 ≢ 0 }
        ensures value { Does (flow_end kind.entry (state_of self.old)) result (state_of self.new) }
        ensures cost { OnOk result (spent (state_of self.new) ≤ spent (state_of self.old)) }
        ensures work { OnOk result (work (state_of self.new) < work (state_of self.old)) }
        ensures extent { extent (state_of self.new) ≡ extent (state_of self.old) }
    {
        let mark = self.cursor.mark();
        self.remove_simple_key()?;
        self.keys.leave();
        self.allow_simple_key(false);
        self.skip();
        self.push_token(mark, kind)
    }

    pub(crate) fn fetch_flow_entry(&mut self) -> ScanResult
        requires { slice_index (state_of self.old).place.left 0 ≢ 0 }
        ensures value { Does (flow_entry (state_of self.old)) result (state_of self.new) }
        ensures cost { OnOk result (spent (state_of self.new) ≤ spent (state_of self.old)) }
        ensures work { OnOk result (work (state_of self.new) < work (state_of self.old)) }
        ensures extent { extent (state_of self.new) ≡ extent (state_of self.old) }
    {
        let mark = self.cursor.mark();
        self.remove_simple_key()?;
        self.allow_simple_key(true);
        self.skip(); // The comma.
        self.push_token(mark, TokenType::FlowEntry)
    }
}
