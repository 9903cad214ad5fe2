//! Commands on documents.
use crate::path::Path;
use snap_content::{Content, Text};

/// A command on a document, which is known by its name.
#[derive(Debug, Drop)]
pub enum Command {
    /// Takes the text as the document of that name: its header and its body.
    Put {
        name: Text,
        text: Text,
    },
    /// Gives what stands in the header at the end of the path.
    Get {
        name: Text,
        path: Path,
    },
    /// Puts the plain form of the value there.
    Set {
        name: Text,
        path: Path,
        value: Content,
    },
    /// Takes what stands there out of the header, and gives it.
    Remove {
        name: Text,
        path: Path,
    },
    /// Gives the text of the document, its header printed anew and its body as it was put.
    Print {
        name: Text,
    },
}
