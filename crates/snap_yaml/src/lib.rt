//! Values of YAML documents.
//! Its `specs/` say what a value means without memory, how values compare, and what a plain scalar is typed as.
//!
//! In the order in which data flows: `yaml` and `lists` (values), `numbers` and `typing` (scalars as values), `readers`,
//! `lookup` and `iter` (looking into them), `clone`, `order` and `comparisons` (copies and comparisons), `laws`.
#![tactic(auto)]

pub mod clone;
pub mod comparisons;
pub mod iter;
pub mod laws;
pub mod lists;
pub mod lookup;
pub mod numbers;
pub mod order;
pub mod readers;
pub mod typing;
pub mod yaml;

pub use iter::YamlIter;
pub use lists::{Array, Hash};
pub use yaml::Yaml;
