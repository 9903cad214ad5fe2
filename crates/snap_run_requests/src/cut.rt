//! Cutting an input into documents.
ghost use Rattle.std.specs.Prelude.{◌≡◌, ◌==◌, ◌&&◌, ◌<◌, ◌≤◌, List, ℕ, ◌∷◌, false, length, take, drop, MatchOption};
ghost use Rattle.snap_run_requests.specs.Cut.{documents, begins_document, ends_line, ends_returned};

use memchr::memchr;

/// What follows the byte, where the bytes begin with it.
fn after_byte(bytes: &[u8], byte: u8) -> Option<&[u8]>
    ensures { MatchOption result ((rest : List ℕ) → bytes.now ≡ byte ∷ rest → ⊥)
        (λ rest. bytes.now ≡ byte ∷ rest.now) }
{
    match bytes.split_first() {
        Some((first, rest)) if *first == byte => Some(rest),
        _ => None,
    }
}

fn is_line_end(bytes: &[u8]) -> bool
    ensures { result ≡ ends_line bytes.now }
{
    match bytes.split_first() {
        None => true,
        Some((first, _)) => *first == b'\n',
    }
}

fn is_returned_end(bytes: &[u8]) -> bool
    ensures { result ≡ ends_returned bytes.now }
{
    match bytes.split_first() {
        None => false,
        Some((first, rest)) => *first == b'\r' && is_line_end(rest),
    }
}

/// What follows three dashes.
fn after_dashes(bytes: &[u8]) -> Option<&[u8]>
    ensures { MatchOption result (begins_document bytes.now ≡ false)
        (λ rest. bytes.now ≡ 45 ∷ 45 ∷ 45 ∷ rest.now) }
{
    let bytes = after_byte(bytes, b'-')?;
    let bytes = after_byte(bytes, b'-')?;
    after_byte(bytes, b'-')
}

/// Whether the first line is `---`, alone or with a return.
fn is_document_ahead(bytes: &[u8]) -> bool
    ensures { result ≡ begins_document bytes.now }
{
    match after_dashes(bytes) {
        None => false,
        Some(rest) => is_line_end(rest) || is_returned_end(rest),
    }
}

/// Where the first document ends.
pub fn first_document_end(bytes: &[u8]) -> usize
    requires { 0 < length bytes.now }
    ensures positive { 0 < result }
    ensures within { result ≤ length bytes.now }
    ensures cut { documents bytes.now ≡ take result bytes.now ∷ documents (drop result bytes.now) }
{
    let mut end = 0;
    let mut rest = bytes;
    while let Some(at) = memchr(b'\n', rest) {
        let (_, behind) = rest.split_at(at + 1);
        end += at + 1;
        if is_document_ahead(behind) {
            return end;
        }
        rest = behind;
    }
    bytes.len()
}
