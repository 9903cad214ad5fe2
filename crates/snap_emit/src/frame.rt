//! A list or a mapping that is open, with what it holds as trees.
ghost use Rattle.std.specs.Prelude.{◌≡◌, OnOk, option_map, if◌then◌else◌, None, Some};
ghost use Rattle.snap_emit.specs.Built.{behind, both, closed_read, items_seen, open_seen, pairs_seen, put_open, seen};

use crate::made::Made;
use snap_content::{Items, OutOfMemory, Pairs};

/// A list or a mapping that is open.
#[derive(Drop)]
pub(crate) enum Frame {
    /// The items so far, unless one of them was no tree, and whether a number comes first in them that is kept as its text.
    List(Option<Items>, bool),
    /// The same of pairs, with the key whose value is due.
    Dict(Option<Pairs>, bool, Option<Made>),
}

/// Puts a tree after others. Where it is none, there are none.
fn put_item(items: &mut Option<Items>, item: Made) -> Result<(), OutOfMemory>
    ensures { OnOk result (items_seen items.new
        ≡ behind (items_seen items.old) (seen item).tree) }
{
    match items {
        Some(items) if item.is_tree() => items.push(item.into_tree()),
        _ => {
            drop(item);
            drop(items.take());
            Ok(())
        }
    }
}

/// The same of a pair, which is made where it is put.
fn put_pair(pairs: &mut Option<Pairs>, key: Made, value: Made) -> Result<(), OutOfMemory>
    ensures { OnOk result (pairs_seen pairs.new
        ≡ behind (pairs_seen pairs.old) (both (seen key).tree (seen value).tree)) }
{
    match pairs {
        Some(pairs) if key.is_tree() && value.is_tree() => {
            pairs.push((key.into_tree(), value.into_tree()))
        }
        _ => {
            drop(key);
            drop(value);
            drop(pairs.take());
            Ok(())
        }
    }
}

/// Puts an item after others.
fn put_in_list(
    items: &mut Option<Items>,
    has_number: &mut bool,
    made: Made,
) -> Result<(), OutOfMemory>
    ensures { OnOk result (open_seen (Frame.List items.new has_number.new)
        ≡ put_open (seen made) (open_seen (Frame.List items.old has_number.old))) }
{
    *has_number = *has_number || (items.is_some() && made.has_number());
    put_item(items, made)
}

/// Puts a value after its key. Nothing counts after what is no tree.
fn put_behind(
    pairs: &mut Option<Pairs>,
    has_number: &mut bool,
    key: Made,
    value: Made,
) -> Result<(), OutOfMemory>
    ensures { OnOk result (open_seen (Frame.Dict pairs.new has_number.new None)
        ≡ put_open (seen value) (open_seen (Frame.Dict pairs.old has_number.old (Some key)))) }
{
    let found = key.has_number() || (key.is_tree() && value.has_number());
    *has_number = *has_number || (pairs.is_some() && found);
    put_pair(pairs, key, value)
}

/// Lets a key wait for its value. A bad one is dropped.
fn key_of(made: Made) -> Option<Made>
    ensures { option_map seen result ≡ (if (seen made).bad then None else Some (seen made)) }
{
    if made.is_bad() {
        drop(made);
        None
    } else {
        Some(made)
    }
}

/// Puts a node into a mapping: a key, or the value that its key is waiting for.
fn put_in_dict(
    pairs: &mut Option<Pairs>,
    has_number: &mut bool,
    due: &mut Option<Made>,
    made: Made,
) -> Result<(), OutOfMemory>
    ensures { OnOk result (open_seen (Frame.Dict pairs.new has_number.new due.new)
        ≡ put_open (seen made) (open_seen (Frame.Dict pairs.old has_number.old due.old))) }
{
    match due.take() {
        Some(key) => put_behind(pairs, has_number, key, made),
        None => {
            *due = key_of(made);
            Ok(())
        }
    }
}

impl Frame {
    /// Puts a node where it belongs.
    pub(crate) fn put(&mut self, made: Made) -> Result<(), OutOfMemory>
        ensures { OnOk result (open_seen self.new ≡ put_open (seen made) (open_seen self.old)) }
    {
        match self {
            Frame::List(items, has_number) => put_in_list(items, has_number, made),
            Frame::Dict(pairs, has_number, due) => put_in_dict(pairs, has_number, due, made),
        }
    }

    /// The node, which is whole. A key without a value is dropped.
    pub(crate) fn into_made(self) -> Made
        ensures { seen result ≡ closed_read (open_seen self) }
    {
        match self {
            Frame::List(items, has_number) => Made::List(items, has_number),
            Frame::Dict(pairs, has_number, due) => {
                drop(due);
                Made::Dict(pairs, has_number)
            }
        }
    }
}
