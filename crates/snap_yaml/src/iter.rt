//! The items of a value, one after the other.
use crate::yaml::Yaml;
use std::alloc::Global;
use std::vec::IntoIter;

/// The items of an array, in order.
#[derive(Drop)]
pub struct YamlIter {
    items: Option<IntoIter<Yaml, Global>>,
}

impl Iterator for YamlIter {
    type Item = Yaml;

    ghost use Rattle.std.specs.Iterator.{YieldsFirst, item_count};
    ghost use Rattle.snap_yaml.specs.Iter.{items_left};

    ghost next_gives = { YieldsFirst items_left };

    ghost remaining = { item_count items_left };

    fn next(&mut self) -> Option<Yaml> {
        match &mut self.items {
            None => None,
            Some(items) => items.next(),
        }
    }
}

/// The items of an array. Another value has none.
impl IntoIterator for Yaml {
    type Item = Yaml;

    type IntoIter = YamlIter;

    ghost use Rattle.std.specs.Prelude.{◌≡◌, map};
    ghost use Rattle.snap_yaml.specs.View.{value_of};
    ghost use Rattle.snap_yaml.specs.Readers.{items_in};
    ghost use Rattle.snap_yaml.specs.Iter.{items_left};

    ghost into_iter_gives = { λ whole it. map value_of (items_left it) ≡ items_in (value_of whole) };

    fn into_iter(self) -> YamlIter {
        match self.into_vec() {
            None => YamlIter { items: None },
            Some(items) => YamlIter {
                items: Some(items.into_vec().into_iter()),
            },
        }
    }
}
