//! Which calls of an object fail, and how many did.
ghost use Rattle.std.specs.Prelude.{◌≡◌, IsTrue};
ghost use Rattle.std.specs.Bool.{OnTrue, OnFalse};
ghost use Rattle.snap_io.specs.Causes.{Rose, one_more};
ghost use Rattle.snap_io.specs.Schedules.{listed_calls, calls_so_far, faults_so_far, fails_next, Counts, IsFresh, ListsCalls};

/// The calls that fail by their numbers, from 1 on, and the counts of calls and of faults so far.
#[derive(Drop)]
pub struct Schedule {
    calls: u64,
    listed: Option<Vec<u64>>,
    faults: u64,
}

impl Schedule {
    /// No call fails.
    pub fn new() -> Schedule
        ensures { IsFresh result }
    {
        Schedule {
            calls: 0,
            listed: None,
            faults: 0,
        }
    }

    /// The calls with these numbers fail.
    pub fn fail_at(&mut self, calls: Vec<u64>)
        ensures { ListsCalls calls.items self.old self.new }
    {
        self.listed = Some(calls);
    }

    /// Counts a call. Whether it fails, and then the count of faults rose.
    pub fn call_fails(&mut self) -> bool
        ensures listed { result ≡ fails_next self.old }
        ensures counts { Counts self.old self.new }
        ensures fails { OnTrue result (Rose (faults_so_far self.old) (faults_so_far self.new)) }
        ensures one { OnTrue result (faults_so_far self.new ≡ one_more (faults_so_far self.old)) }
        ensures goes_on { OnFalse result (faults_so_far self.new ≡ faults_so_far self.old) }
    {
        self.calls = self.calls.saturating_add(1);
        let fails = match &self.listed {
            Some(listed) => listed.contains(&self.calls),
            None => false,
        };
        if fails {
            self.fault();
        }
        fails
    }

    /// How many calls failed so far, up to the largest number.
    pub const fn faults(&self) -> u64
        ensures { result ≡ faults_so_far self.now }
    {
        self.faults
    }

    /// Raises the count of faults.
    pub fn fault(&mut self)
        ensures rose { Rose (faults_so_far self.old) (faults_so_far self.new) }
        ensures one { faults_so_far self.new ≡ one_more (faults_so_far self.old) }
        ensures calls { calls_so_far self.new ≡ calls_so_far self.old }
        ensures listed { listed_calls self.new ≡ listed_calls self.old }
    {
        self.faults = self.faults.saturating_add(1);
    }
}
