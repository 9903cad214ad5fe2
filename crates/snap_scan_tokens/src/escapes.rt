//! What a backslash and the characters after it stand for.
ghost use Rattle.std.specs.Prelude.{ℕ, ◌≡◌, ◌<◌, ◌≤◌, ⊤, true, false, [], ◌∷◌, ◌++◌, List, None, IfErr, MatchResult, MatchOption};
ghost use Rattle.snap_scan_tokens.specs.Folding.{no_gap, escaped_gap};
ghost use Rattle.snap_scan_tokens.specs.Place.{Travels};
ghost use Rattle.snap_scan_tokens.specs.Quoted.{hexadecimal, escaped, further_digits, is_code, double, escape, digits, code_fault, escape_fault, IsBadEscape};

use crate::characters::is_break;
use crate::cursor::Cursor;
use crate::info::ScanInfo;

/// The value of a hexadecimal digit.
pub fn hexadecimal(c: char) -> Option<u32>
    ensures value { result ≡ hexadecimal c }
    ensures small { MatchOption result ⊤ (λ digit. digit < 16) }
{
    let code = c as u32;
    if code >= 48 && code <= 57 {
        return Some(code - 48);
    }
    if code >= 65 && code <= 70 {
        return Some(code - 55);
    }
    if code >= 97 && code <= 102 {
        return Some(code - 87);
    }
    None
}

/// The character that a letter after a backslash stands for.
fn escaped(c: char) -> Option<char>
    ensures { result ≡ escaped c }
{
    match c {
        '0' => Some('\0'),
        'a' => Some('\u{7}'),
        'b' => Some('\u{8}'),
        't' | '\t' => Some('\t'),
        'n' => Some('\n'),
        'v' => Some('\u{b}'),
        'f' => Some('\u{c}'),
        'r' => Some('\r'),
        'e' => Some('\u{1b}'),
        ' ' | '"' | '\'' | '\\' => Some(c),
        'N' => Some('\u{85}'),
        '_' => Some('\u{a0}'),
        'L' => Some('\u{2028}'),
        'P' => Some('\u{2029}'),
        _ => None,
    }
}

/// How many hexadecimal digits follow a letter after a backslash, besides the first.
fn further_digits(c: char) -> Option<usize>
    ensures { result ≡ further_digits c }
{
    match c {
        'x' => Some(1),
        'u' => Some(3),
        'U' => Some(7),
        _ => None,
    }
}

/// The character of a code.
fn character(code: u32) -> Option<char>
    ensures { MatchOption result (is_code code ≡ false) (λ c. (is_code code ≡ true) × (c ≡ code)) }
{
    char::from_u32(code)
}

/// The character whose code stands here in hexadecimal digits: one, and so many further ones.
fn scan_code(cursor: &mut Cursor, further: usize) -> Result<char, ScanInfo>
    requires { further ≤ 7 }
    ensures value { MatchResult result (λ c. (text : List ℕ)
        → digits further 0 text cursor.old.left cursor.old
        ≡ double no_gap (text ++ c ∷ []) cursor.new.left cursor.new)
        (λ _. (text : List ℕ) → digits further 0 text cursor.old.left cursor.old ≡ None) }
    ensures travels { Travels cursor.old cursor.new }
    ensures cause { IfErr result IsBadEscape }
    ensures info { IfErr result (λ info. info ≡ code_fault further cursor.old.left) }
{
    let mut value = 0;
    let mut left = further;
    'digits: loop {
        let Some(digit) = hexadecimal(cursor.ch()) else {
            return Err(ScanInfo::S32);
        };
        value = value * 16 + digit;
        if left == 0 {
            let Some(found) = character(value) else {
                return Err(ScanInfo::S33);
            };
            cursor.skip();
            return Ok(found);
        }
        cursor.skip();
        left -= 1;
    }
}

/// Reads what stands after a backslash: the character that it stands for, or none at the end of a line.
pub fn scan_escape(cursor: &mut Cursor) -> Result<Option<char>, ScanInfo>
    ensures value { MatchResult result (λ found. MatchOption found ((text : List ℕ)
        → escape text cursor.old.left cursor.old
        ≡ double escaped_gap text cursor.new.left cursor.new)
        (λ c. (text : List ℕ) → escape text cursor.old.left cursor.old
        ≡ double no_gap (text ++ c ∷ []) cursor.new.left cursor.new))
        (λ _. (text : List ℕ) → escape text cursor.old.left cursor.old ≡ None) }
    ensures travels { Travels cursor.old cursor.new }
    ensures cause { IfErr result IsBadEscape }
    ensures info { IfErr result (λ info. info ≡ escape_fault cursor.old) }
{
    let c = cursor.ch();
    if is_break(c) {
        cursor.skip_break();
        return Ok(None);
    }
    if let Some(character) = escaped(c) {
        cursor.skip();
        return Ok(Some(character));
    }
    match further_digits(c) {
        None => Err(ScanInfo::S31),
        Some(further) => {
            cursor.skip();
            match scan_code(cursor, further) {
                Ok(character) => Ok(Some(character)),
                Err(info) => Err(info),
            }
        }
    }
}
