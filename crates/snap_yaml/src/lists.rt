//! The lists that a value holds.
use crate::yaml::Yaml;
use snap_content::List;

/// A list of values.
pub type Array = List<Yaml>;

/// A list of pairs of a key and a value. A key may come more than once.
pub type Hash = List<(Yaml, Yaml)>;
