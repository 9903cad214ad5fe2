//! Counting tokens.
use snap_scan::Scanner;
use std::alloc::Global;

/// How many tokens a text has, up to the one that is refused.
pub(crate) fn count(alloc: Global, text: &str) -> usize {
    let mut scanner = Scanner::new(alloc, text);
    let mut tokens: usize = 0;
    'tokens: while let Some(_) = scanner.next() {
        tokens = tokens.saturating_add(1);
    }
    tokens
}
