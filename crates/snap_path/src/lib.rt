//! Paths as texts: what they are made of, how they are joined, and how one is seen from another.
//! Nothing here looks at a file: a path is its components and whether it begins at the root,
//! and the paths that are made have one slash between each two.
//!
//! In the order in which data flows: `components` (a path taken apart), `paths` (joining, parents, one seen from another),
//! `names` (the last component, and the module and the name of a snapshot).
#![tactic(auto)]

mod components;
pub mod names;
pub mod paths;

pub use components::{is_component, next_component};
pub use names::{names_of_path, path_name};
pub use paths::{path_front, path_join, path_parent, path_relative_from};
