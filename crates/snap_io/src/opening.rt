//! How files are opened to be written.
ghost use Rattle.std.specs.Prelude.{◌≡◌, true, false};
ghost use Rattle.std.specs.Fs.{asks_append, asks_create_new};

use std::fs::OpenOptions;
use std::os::unix::fs::OpenOptionsExt;

/// For a file that is not there yet, with no permission bits but these, or with those that the system chooses.
pub(crate) fn new_file_options(bits: Option<u32>) -> OpenOptions
    ensures new { asks_create_new result ≡ true }
    ensures front { asks_append result ≡ false }
{
    let mut options = OpenOptions::new();
    if let Some(bits) = bits {
        options.mode(bits);
    }
    options.write(true).append(false).create_new(true);
    options
}

/// For a file that bytes are added to, or that is made for them.
pub(crate) fn append_options() -> OpenOptions
    ensures end { asks_append result ≡ true }
{
    let mut options = OpenOptions::new();
    options.append(true).create(true);
    options
}
