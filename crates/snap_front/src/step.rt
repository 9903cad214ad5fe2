//! One step of a path.
use snap_content::Text;

/// One step from a tree to a part of it.
#[derive(Debug, Drop)]
pub enum Step {
    /// To the value of a map's first entry with this text as its key.
    Key(Text),
    /// To the item of a sequence at this place, counted from 0.
    Index(u64),
}
