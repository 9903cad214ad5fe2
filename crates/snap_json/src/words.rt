//! The pieces that a JSON text is made of. After running out of memory the text is as it was.
ghost use Rattle.std.specs.Prelude.{◌≡◌, [], ◌∷◌, IsTrue};
ghost use Rattle.std.specs.Char.{is_ascii};
ghost use Rattle.std.specs.List.{list_all};
ghost use Rattle.std.specs.Str.{chars};
ghost use Rattle.snap_json.specs.Written.{whole, Wrote};

use crate::error::JsonError;
use snap_content::Text;
use std::alloc::Global;

/// Adds a character.
pub fn write_char(out: &mut Text, alloc: Global, value: char) -> Result<(), JsonError>
    ensures { Wrote result out.old out.new (whole (value ∷ [])) }
{
    out.push(alloc, value)?;
    Ok(())
}

/// Adds characters as they are.
pub fn write_run(out: &mut Text, alloc: Global, run: &str) -> Result<(), JsonError>
    ensures { Wrote result out.old out.new (whole (chars run.now)) }
{
    out.push_str(alloc, run)?;
    Ok(())
}

/// Adds ASCII characters, as those of a literal.
pub fn write_word(out: &mut Text, alloc: Global, word: &str) -> Result<(), JsonError>
    requires { IsTrue (list_all is_ascii word.now) }
    ensures { Wrote result out.old out.new (whole word.now) }
{
    out.push_ascii(alloc, word)?;
    Ok(())
}
