//! Copies of values.
ghost use Rattle.std.specs.Prelude.{◌≡◌, IfOk};
ghost use Rattle.snap_yaml.specs.View.{value_of, array_list, array_values, hash_list, hash_values};

use crate::lists::{Array, Hash};
use crate::yaml::Yaml;
use snap_content::OutOfMemory;
use std::alloc::Global;

impl Yaml {
    /// An equal value.
    #[cycle(clone)]
    pub fn try_clone(&self, alloc: Global) -> Result<Yaml, OutOfMemory>
        ensures { IfOk result (λ copy. value_of copy ≡ value_of self.now) }
    {
        match self {
            Yaml::Real(text) => Ok(Yaml::Real(text.try_clone(alloc)?)),
            Yaml::Integer(number) => Ok(Yaml::Integer(*number)),
            Yaml::String(text) => Ok(Yaml::String(text.try_clone(alloc)?)),
            Yaml::Boolean(truth) => Ok(Yaml::Boolean(*truth)),
            Yaml::Array(items) => Ok(Yaml::Array(clone_array(items, alloc)?)),
            Yaml::Hash(pairs) => Ok(Yaml::Hash(clone_hash(pairs, alloc)?)),
            Yaml::Null => Ok(Yaml::Null),
            Yaml::BadValue => Ok(Yaml::BadValue),
        }
    }
}

/// An equal list.
#[cycle(clone)]
fn clone_array(array: &Array, alloc: Global) -> Result<Array, OutOfMemory>
    ensures { IfOk result (λ copy. array_values (array_list copy)
        ≡ array_values (array_list array.now)) }
{
    let mut copy = Array::new(alloc);
    for item in array.as_slice() {
        copy.push(item.try_clone(alloc)?)?;
    }
    Ok(copy)
}

/// An equal list.
#[cycle(clone)]
fn clone_hash(hash: &Hash, alloc: Global) -> Result<Hash, OutOfMemory>
    ensures { IfOk result (λ copy. hash_values (hash_list copy)
        ≡ hash_values (hash_list hash.now)) }
{
    let mut copy = Hash::new(alloc);
    for (key, found) in hash.as_slice() {
        let key = key.try_clone(alloc)?;
        let found = found.try_clone(alloc)?;
        copy.push((key, found))?;
    }
    Ok(copy)
}
