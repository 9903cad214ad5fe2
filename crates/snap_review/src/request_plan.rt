//! The plan of a request, by what waits.
ghost use Rattle.std.specs.Prelude.{◌≡◌};
ghost use Rattle.snap_io.specs.Causes.{Counted};
ghost use Rattle.snap_review.specs.Ends.{says_file_fault};
ghost use Rattle.snap_review.specs.Plans.{IsPlanOf};

use crate::file_plan::plan_file;
use crate::plan::{Plan, plan_literals};
use crate::status::ReviewStatus;
use crate::words::{Request, Target};
use snap_io::Store;
use std::alloc::Global;

/// The plan of the request. The store is not changed.
pub fn plan_of<S: Store>(
    alloc: Global,
    store: &mut S,
    request: &Request,
) -> Result<Plan, ReviewStatus>
    ensures end { IsPlanOf request.now (S.files store.old) result }
    ensures same { S.files store.new ≡ S.files store.old }
    ensures cause { Counted says_file_fault (S.faults store.old) (S.faults store.new) result }
{
    match request.target {
        Target::Literals => plan_literals(alloc, store, request),
        Target::File => plan_file(alloc, store, request),
    }
}
