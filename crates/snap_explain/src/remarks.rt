//! What is seen in a request that passes, and may not be what was meant.
ghost use Rattle.std.specs.Prelude.{◌≡◌, IfOk, MatchOption};
ghost use Rattle.snap_explain.specs.Remarks.{AreSeen, AreSeenIn, IsElsewhere, no_remarks};
ghost use Rattle.snap_explain_scalars.specs.Elsewhere.{read_elsewhere};
ghost use Rattle.snap_run_requests.specs.RequestOf.{assertion_of, request_of};

use crate::position::{Place, place_behind};
use snap_content::{OutOfMemory, Text};
use snap_explain_scalars::{Found, Otherwise, first_otherwise};
use snap_explain_values::{first_missed, has_key_twice};
use snap_run_requests::request::{Assertion, Request};
use std::alloc::Global;

/// A plain scalar that other readers of YAML take otherwise, with its place in the stream.
#[derive(Debug, Drop)]
pub struct Scalar {
    pub place: Place,
    pub text: Text,
    pub otherwise: Otherwise,
}

/// What is seen in a request that passes.
#[derive(Debug, Drop)]
pub struct Remarks {
    /// The place, from 0, of the first redaction that hits nothing in the value.
    pub missed: Option<usize>,
    /// A map in the value has a key twice.
    pub twice: bool,
    /// The first plain scalar that other readers take otherwise.
    pub scalar: Option<Scalar>,
}

/// The scalar with its place. The text begins in this line of the stream.
fn scalar_at(text: &str, first: u64, found: Found) -> Scalar
    ensures { read_elsewhere found.text ≡ Some found.otherwise → IsElsewhere (Some result) }
{
    Scalar {
        place: place_behind(text, first, found.before),
        text: found.text,
        otherwise: found.otherwise,
    }
}

/// The first plain scalar of a text that other readers take otherwise.
fn scalar_in(alloc: Global, text: &str, first: u64) -> Result<Option<Scalar>, OutOfMemory>
    ensures { IfOk result (λ scalar. IsElsewhere scalar) }
{
    match first_otherwise(alloc, text)? {
        None => Ok(None),
        Some(found) => Ok(Some(scalar_at(text, first, found))),
    }
}

/// The same of a document; one that is no text has none.
fn scalar_of(alloc: Global, document: &[u8], first: u64) -> Result<Option<Scalar>, OutOfMemory>
    ensures { IfOk result (λ scalar. IsElsewhere scalar) }
{
    match str::from_utf8(document) {
        Ok(text) => scalar_in(alloc, text, first),
        Err(_) => Ok(None),
    }
}

/// What is seen in an assertion.
fn remarks_in(
    alloc: Global,
    document: &[u8],
    first: u64,
    assertion: &Assertion,
) -> Result<Remarks, OutOfMemory>
    ensures { IfOk result (λ remarks. AreSeenIn (assertion_of assertion.now) remarks) }
{
    let missed = first_missed(alloc, assertion.redactions.as_slice(), &assertion.value)?;
    let twice = has_key_twice(alloc, &assertion.value)?;
    let scalar = scalar_of(alloc, document, first)?;
    Ok(Remarks {
        missed,
        twice,
        scalar,
    })
}

/// What is seen in the request of a document, whose first line is this one of the stream. How its scalars are read elsewhere is seen in the
/// document, all else in the request.
pub(crate) fn remarks_on(
    alloc: Global,
    document: &[u8],
    first: u64,
    request: &Request,
) -> Result<Remarks, OutOfMemory>
    ensures { IfOk result (λ remarks. AreSeen (request_of request.now) remarks) }
{
    match request {
        Request::Assertion(assertion) => remarks_in(alloc, document, first, assertion),
        Request::Begin | Request::End => Ok(Remarks {
            missed: None,
            twice: false,
            scalar: None,
        }),
    }
}
