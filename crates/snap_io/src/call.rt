//! The words of a record of calls: what was asked of the system, and what it answered.

/// What was asked.
#[derive(Clone, Copy)]
pub enum Asked {
    /// What stands at a path, after the links there.
    Look,
    /// What stands at a path itself, which may be a link.
    LookAtLink,
    /// To open a file, so that it can be read.
    Open,
    /// For the next bytes of the file that was opened.
    Read,
    /// To make a folder and those above it.
    MakeFolders,
    /// To make a file where nothing is, not even a link, with no permission bits but these.
    CreateNew(Option<u32>),
    /// To give the file that was made these permission bits.
    SetBits(u32),
    /// To open a file, so that bytes are added at its end.
    OpenToAppend,
    /// To write the bytes to the file that was opened.
    Write,
    /// To hand on what the writer holds back.
    Flush,
    /// To move a file to another's place.
    Rename,
    /// To take a file away.
    Remove,
    /// To open a folder, so that its names can be read.
    List,
    /// For the next names of the folder that was opened.
    Next,
}

/// What was answered.
#[derive(Clone, Copy)]
pub enum Answer {
    Done,
    /// A regular file is there, with these permission bits.
    File(u32),
    /// Nothing was there.
    Missing,
    /// Something was there already.
    Taken,
    /// Something was there that is no regular file.
    Other,
    Failed,
}
