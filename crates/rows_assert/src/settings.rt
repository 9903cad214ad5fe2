//! What is done with settings, one thing after the other: `add SELECTOR TEXT` puts the text there too, `set SELECTOR TEXT` that
//! alone, `sort SELECTOR` puts the list there in order too, and `clear` does nothing any more.
use crate::asserted::add_saved;
use crate::columns::{add_taken, word};
use crate::lists::list_of;
use snap_assert::Settings;
use snap_content::{Content, Text};
use snap_select::Redaction;
use std::alloc::Global;

/// What became of each thing, and the file that is saved then.
pub(crate) fn settings_line(alloc: Global, columns: &str) -> Result<Text, anyhow::Error> {
    let mut settings = Settings::new(alloc)?;
    let mut line = Text::empty();
    for said in columns.split('\t') {
        let (verb, rest) = word(said);
        let (selector, text) = word(rest);
        let name = Text::from_str(alloc, selector)?;
        let put = Redaction::from_content(Content::from_str(alloc, text)?);
        let taken = match verb {
            "add" => settings.add_redaction(selector, put),
            "set" => settings.set_redactions(list_of(alloc, name, put)?),
            "sort" => settings.sort_selector(selector),
            _ => {
                settings.clear_redactions();
                Ok(())
            }
        };
        add_taken(alloc, &mut line, taken)?;
    }
    add_saved(alloc, &mut line, &settings)?;
    Ok(line)
}
