//! Characters that a tag spells by the octets of their UTF-8, as `%c3%a9`.
ghost use Rattle.std.specs.Prelude.{◌≡◌, ◌+◌, ◌*◌, ◌≤◌, ◌<◌, true, false, [], ◌∷◌, OnOk, IfOk, MatchOption, MatchResult, ⊤, length, slice_index};
ghost use Rattle.std.specs.Char.{IsScalar, encode_utf8};
ghost use Rattle.std.specs.Str.{continuation_len, lead_bits};
ghost use Rattle.snap_scan_tokens.specs.Place.{Travels};
ghost use Rattle.snap_scan_properties.specs.Characters.{Spells, SpellsNone, Continues, BreaksOff, SpellsNoCharacter, IsBadOctet, is_first, least_code};

use snap_scan_tokens::cursor::Cursor;
use snap_scan_tokens::escapes::hexadecimal;
use snap_scan_tokens::info::ScanInfo;

/// The octet that `%` and two hexadecimal digits spell here.
fn octet(cursor: &mut Cursor) -> Option<u32>
    ensures value { MatchOption result (SpellsNone cursor.old)
        (λ octet. Spells cursor.old (octet ∷ []) cursor.new) }
    ensures small { MatchOption result ⊤ (λ octet. octet < 256) }
    ensures travels { Travels cursor.old cursor.new }
    ensures falls { MatchOption result ⊤
        (λ _. length cursor.new.left + 1 ≤ length cursor.old.left) }
{
    if cursor.ch() != '%' {
        return None;
    }
    let Some(high) = hexadecimal(cursor.peek(1)) else {
        return None;
    };
    let Some(low) = hexadecimal(cursor.peek(2)) else {
        return None;
    };
    cursor.skip();
    cursor.skip();
    cursor.skip();
    Some(high * 16 + low)
}

/// How many octets follow the first one of a character, and the bits that the first one gives.
fn first_octet(octet: u32) -> Option<(usize, u32)>
    requires { octet < 256 }
    ensures value { MatchOption result (is_first octet ≡ false)
        (λ found. (is_first octet ≡ true) × (found.0 ≡ continuation_len octet)
        × (found.1 ≡ lead_bits octet)) }
    ensures small { MatchOption result ⊤ (λ found. (found.0 ≤ 3) × (found.1 < 128)) }
{
    if octet < 0x80 {
        return Some((0, octet));
    }
    if octet >= 0xc0 && octet < 0xe0 {
        return Some((1, octet - 0xc0));
    }
    if octet >= 0xe0 && octet < 0xf0 {
        return Some((2, octet - 0xe0));
    }
    if octet >= 0xf0 && octet < 0xf8 {
        return Some((3, octet - 0xf0));
    }
    None
}

/// Adds the bits of a further octet, which must stand here, to those before it.
fn one_further(cursor: &mut Cursor, bits: u32) -> Result<u32, ScanInfo>
    requires { bits < 67108864 }
    ensures value { MatchResult result (λ code. Continues cursor.old 1 bits code cursor.new)
        (λ info. IsBadOctet info × BreaksOff cursor.old 1) }
    ensures small { IfOk result (λ code. code ≤ bits * 64 + 63) }
    ensures travels { Travels cursor.old cursor.new }
{
    match octet(cursor) {
        None => Err(ScanInfo::S18),
        Some(octet) if octet >= 0x80 && octet < 0xc0 => Ok(bits * 64 + (octet - 0x80)),
        Some(_) => Err(ScanInfo::S20),
    }
}

/// The same for two further octets.
fn two_further(cursor: &mut Cursor, bits: u32) -> Result<u32, ScanInfo>
    requires { bits < 1048576 }
    ensures value { MatchResult result (λ code. Continues cursor.old 2 bits code cursor.new)
        (λ info. IsBadOctet info × BreaksOff cursor.old 2) }
    ensures travels { Travels cursor.old cursor.new }
{
    match one_further(cursor, bits) {
        Err(info) => Err(info),
        Ok(longer) => one_further(cursor, longer),
    }
}

/// The same for three further octets.
fn three_further(cursor: &mut Cursor, bits: u32) -> Result<u32, ScanInfo>
    requires { bits < 16384 }
    ensures value { MatchResult result (λ code. Continues cursor.old 3 bits code cursor.new)
        (λ info. IsBadOctet info × BreaksOff cursor.old 3) }
    ensures travels { Travels cursor.old cursor.new }
{
    match one_further(cursor, bits) {
        Err(info) => Err(info),
        Ok(longer) => two_further(cursor, longer),
    }
}

/// The code whose first bits stand before so many octets.
fn further_octets(cursor: &mut Cursor, count: usize, bits: u32) -> Result<u32, ScanInfo>
    requires count { count ≤ 3 }
    requires bits { bits < 128 }
    ensures value { MatchResult result (λ code. Continues cursor.old count bits code cursor.new)
        (λ info. IsBadOctet info × BreaksOff cursor.old count) }
    ensures travels { Travels cursor.old cursor.new }
{
    if count == 0 {
        return Ok(bits);
    }
    if count == 1 {
        return one_further(cursor, bits);
    }
    if count == 2 {
        return two_further(cursor, bits);
    }
    three_further(cursor, bits)
}

/// The least code that needs so many octets after its first one.
fn least_code(count: usize) -> u32
    ensures { result ≡ least_code count }
{
    match count {
        0 => 0,
        1 => 0x80,
        2 => 0x800,
        _ => 0x1_0000,
    }
}

/// The character of a code that took so many octets after the first one.
fn character(code: u32, count: usize) -> Option<char>
    ensures { MatchOption result (least_code count ≤ code → IsScalar code → ⊥)
        (λ c. (c ≡ code) × (least_code count ≤ code) × IsScalar code) }
{
    if code < least_code(count) {
        return None;
    }
    char::from_u32(code)
}

/// Reads the octets of one character. Each is spelled `%hh`; together they are its shortest UTF-8.
pub fn scan_uri_escapes(cursor: &mut Cursor) -> Result<char, ScanInfo>
    requires { slice_index cursor.old.left 0 ≡ 37 }
    ensures value { MatchResult result (λ c. IsScalar c
        × Spells cursor.old (encode_utf8 c) cursor.new)
        (λ info. IsBadOctet info × SpellsNoCharacter cursor.old) }
    ensures travels { Travels cursor.old cursor.new }
    ensures falls { OnOk result (length cursor.new.left + 1 ≤ length cursor.old.left) }
{
    let Some(first) = octet(cursor) else {
        return Err(ScanInfo::S18);
    };
    let Some((count, bits)) = first_octet(first) else {
        return Err(ScanInfo::S19);
    };
    match further_octets(cursor, count, bits) {
        Err(info) => Err(info),
        Ok(code) => match character(code, count) {
            None => Err(ScanInfo::S21),
            Some(found) => Ok(found),
        },
    }
}
