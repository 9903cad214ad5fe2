//! What is counted of answers.
ghost use Rattle.std.specs.Prelude.{◌≡◌, ◌+◌, ◌<◌, ◌≤◌, ◌^◌};
ghost use Rattle.snap_run.specs.Answers.{added, no_tally, passes_in};

use snap_assert::outcome::{Outcome, Verdict};

/// Whether some answer fails, and how many assertions passed.
#[derive(Clone, Copy, Debug, PartialEq, Eq)]
pub struct Tally {
    pub fails: bool,
    pub passed: u64,
}

impl Tally {
    /// No answer, or one that opens or closes a block.
    pub const fn none() -> Tally
        ensures { result ≡ no_tally }
    {
        Tally {
            fails: false,
            passed: 0,
        }
    }

    /// The answer of one assertion.
    pub fn of_outcome(outcome: &Outcome) -> Tally
        ensures fails { result.fails ≡ outcome.now.fails }
        ensures passed { result.passed ≡ passes_in outcome.now.verdict }
        ensures one { result.passed ≤ 1 }
    {
        let passed = match outcome.verdict {
            Verdict::Passed => 1,
            Verdict::Updated | Verdict::Pending | Verdict::Rejected => 0,
        };
        Tally {
            fails: outcome.fails,
            passed,
        }
    }

    /// These answers and those after them.
    pub const fn with(self, later: Tally) -> Tally
        requires { self.passed + later.passed < 2 ^ 64 }
        ensures { result ≡ added self later }
    {
        Tally {
            fails: self.fails | later.fails,
            passed: self.passed + later.passed,
        }
    }
}
