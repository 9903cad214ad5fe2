//! Texts between double quotes.
ghost use Rattle.std.specs.Prelude.{◌∷◌, []};
ghost use Rattle.std.specs.List.{flat_map};
ghost use Rattle.std.specs.Str.{chars};
ghost use Rattle.snap_print.specs.Spell.{escaped};
ghost use Rattle.snap_json.specs.Strings.{json_escaped, json_string};
ghost use Rattle.snap_json.specs.Written.{whole, Wrote};

use crate::error::JsonError;
use crate::words::{write_char, write_run};
use snap_content::Text;
use snap_content::characters::split_first;
use snap_print::escaping::{bare_run, push_escaped};
use std::alloc::Global;

/// Adds a character as it stands between double quotes: as in YAML, but that DEL stands as it is.
fn write_escaped(out: &mut Text, alloc: Global, value: char) -> Result<(), JsonError>
    ensures { Wrote result out.old out.new (whole (json_escaped value)) }
{
    if value == '\u{7f}' {
        write_char(out, alloc, value)
    } else {
        write_escaped_as_yaml(out, alloc, value)
    }
}

/// Adds a character as it stands between the double quotes of YAML.
fn write_escaped_as_yaml(out: &mut Text, alloc: Global, value: char) -> Result<(), JsonError>
    ensures { Wrote result out.old out.new (whole (escaped value)) }
{
    push_escaped(out, alloc, value)?;
    Ok(())
}

/// Adds the characters of a text as they stand between double quotes, run by run.
fn write_characters(out: &mut Text, alloc: Global, value: &str) -> Result<(), JsonError>
    ensures { Wrote result out.old out.new (whole (flat_map json_escaped (chars value.now))) }
{
    let (run, mut rest) = bare_run(value);
    write_run(out, alloc, run)?;
    while let Some((c, behind)) = split_first(rest) {
        write_escaped(out, alloc, c)?;
        let (run, later) = bare_run(behind);
        write_run(out, alloc, run)?;
        rest = later;
    }
    Ok(())
}

/// Adds the text in double quotes.
pub fn write_string(out: &mut Text, alloc: Global, value: &str) -> Result<(), JsonError>
    ensures { Wrote result out.old out.new (whole (json_string (chars value.now))) }
{
    write_char(out, alloc, '"')?;
    write_characters(out, alloc, value)?;
    write_char(out, alloc, '"')
}

/// Adds a text of one character in double quotes.
pub fn write_character(out: &mut Text, alloc: Global, value: char) -> Result<(), JsonError>
    ensures { Wrote result out.old out.new (whole (json_string (value ∷ []))) }
{
    write_char(out, alloc, '"')?;
    write_escaped(out, alloc, value)?;
    write_char(out, alloc, '"')
}
