//! Values on one line: words with a tab between each two, a collection after what it holds.
//!
//! `s` and a text, `r` and the text of a number, `i` and a whole number, `t`, `f`, `n` for null, `b` for a bad value; `a` and how
//! many of the values before it are the items; `h` and how many pairs of the values before it are the entries.
//! A text stands there as `lines` writes it.
use crate::lines::text_of;
use snap_content::OutOfMemory;
use snap_yaml::{Array, Hash, Yaml};
use std::alloc::Global;

/// The value that a line stands for, if it stands for one.
pub fn value_of_line(alloc: Global, line: &str) -> Result<Option<Yaml>, OutOfMemory> {
    let mut held = Vec::new(alloc);
    for word in line.split('\t') {
        if !add_word(alloc, &mut held, word)? {
            return Ok(None);
        }
    }
    Ok(held.pop())
}

/// Takes a word to the values before it, and tells whether it is one.
fn add_word(alloc: Global, held: &mut Vec<Yaml>, word: &str) -> Result<bool, OutOfMemory> {
    let mut characters = word.chars();
    let Some(kind) = characters.next() else {
        return Ok(false);
    };
    let made = value_of_word(alloc, held, kind, characters.as_str())?;
    match made {
        None => Ok(false),
        Some(value) => {
            held.push(value)?;
            Ok(true)
        }
    }
}

fn value_of_word(
    alloc: Global,
    held: &mut Vec<Yaml>,
    kind: char,
    rest: &str,
) -> Result<Option<Yaml>, OutOfMemory> {
    match kind {
        's' => Ok(Some(Yaml::String(text_of(alloc, rest)?))),
        'r' => Ok(Some(Yaml::Real(text_of(alloc, rest)?))),
        'i' => Ok(whole_number(rest)),
        't' => Ok(Some(Yaml::Boolean(true))),
        'f' => Ok(Some(Yaml::Boolean(false))),
        'n' => Ok(Some(Yaml::Null)),
        'b' => Ok(Some(Yaml::BadValue)),
        'a' => array_of(alloc, held, rest),
        'h' => hash_of(alloc, held, rest),
        _ => Ok(None),
    }
}

fn whole_number(digits: &str) -> Option<Yaml> {
    match digits.parse::<i64>() {
        Ok(number) => Some(Yaml::Integer(number)),
        Err(_) => None,
    }
}

/// The last values, as many as the number says, as an array.
fn array_of(alloc: Global, held: &mut Vec<Yaml>, rest: &str) -> Result<Option<Yaml>, OutOfMemory> {
    let Ok(count) = rest.parse::<u32>() else {
        return Ok(None);
    };
    let mut items = Vec::new(alloc);
    for _item in 0..count {
        let Some(item) = held.pop() else {
            return Ok(None);
        };
        items.push(item)?;
    }
    items.reverse();
    Ok(Some(Yaml::Array(Array::from_vec(items))))
}

/// The last values, as many pairs as the number says, as a hash.
fn hash_of(alloc: Global, held: &mut Vec<Yaml>, rest: &str) -> Result<Option<Yaml>, OutOfMemory> {
    let Ok(count) = rest.parse::<u32>() else {
        return Ok(None);
    };
    let mut pairs = Vec::new(alloc);
    for _pair in 0..count {
        let Some(value) = held.pop() else {
            return Ok(None);
        };
        let Some(key) = held.pop() else {
            return Ok(None);
        };
        pairs.push((key, value))?;
    }
    pairs.reverse();
    Ok(Some(Yaml::Hash(Hash::from_vec(pairs))))
}
