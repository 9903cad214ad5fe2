//! Block scalars: lines after `|` or `>`.
ghost use Rattle.std.specs.Prelude.{◌≡◌, ◌+◌, ◌≤◌, true, codes, OnOk, IfOk, IfErr, length, slice_index};
ghost use Rattle.snap_scan_tokens.specs.Causes.{IsExplained, IsFault, is_among};
ghost use Rattle.snap_scan_tokens.specs.Place.{Travels};
ghost use Rattle.snap_scan_blocks.specs.Block.{block_from, block_fault, ReadsBlock};

use crate::header::scan_header;
use crate::indentation::scan_opening;
use crate::lines::Lines;
use snap_content::Lent;
use snap_scan_tokens::cursor::Cursor;
use snap_scan_tokens::info::ScanError;
use snap_scan_tokens::marker::Marker;
use std::alloc::Global;

/// A block scalar, and the place where its content begins.
#[derive(Debug, Drop)]
pub struct BlockScalar<'a> {
    pub mark: Marker,
    pub text: Lent<'a>,
}

/// Reads a block scalar. `indent` is the column of the innermost block, from which a given indentation counts.
pub fn scan_block_scalar<'a>(
    alloc: Global,
    cursor: &mut Cursor<'a>,
    indent: Option<usize>,
    literal: bool,
) -> Result<BlockScalar<'a>, ScanError>
    requires { is_among (codes "|>") (slice_index cursor.old.left 0) ≡ true }
    ensures value { ReadsBlock (block_from indent literal cursor.old) result cursor.new }
    ensures travels { Travels cursor.old cursor.new }
    ensures falls { OnOk result (length cursor.new.left + 1 ≤ length cursor.old.left) }
    ensures mark { IfOk result (λ s. (cursor.old.index ≤ s.mark.index)
        × (s.mark.index ≤ cursor.new.index)) }
    ensures cause { IfErr result (λ e. IsExplained cursor.old e) }
    ensures info { IfErr result (IsFault (block_fault cursor.old)) }
{
    let start = cursor.mark();
    let header = scan_header(cursor, start)?;
    let mut lines = Lines::new();
    let indentation = scan_opening(alloc, cursor, header, indent, &mut lines.breaks)?;
    let mark = cursor.mark();
    lines.scan(alloc, cursor, indentation, literal)?;
    let text = lines.finish(alloc, header.chomping)?;
    Ok(BlockScalar {
        mark,
        text: Lent::owned(text),
    })
}
