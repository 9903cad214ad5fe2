//! The settings of an assertion.
ghost use Rattle.std.specs.Prelude.{◌≡◌, [], ◌∷◌, ◌++◌, None, Some, IfOk, IfErr, OnOk, OnErr, is_some, map, option_map};
ghost use Rattle.std.specs.List.{list_any};
ghost use Rattle.std.specs.Str.{chars};
ghost use Rattle.snap_content.specs.Tree.{Tree};
ghost use Rattle.snap_content.specs.View.{tree};
ghost use Rattle.snap_select.specs.Grammar.{IsSelector};
ghost use Rattle.snap_select.specs.Parts.{Parts};
ghost use Rattle.snap_assert_settings.specs.Copies.{CloneEnd, calls, shown_redactions};
ghost use Rattle.snap_assert_settings.specs.Replaced.{redaction_for};
ghost use Rattle.snap_assert_settings.specs.Settings.{sorted_where};
ghost use Rattle.snap_store.specs.Meta.{shown_text};

use crate::copies::CloneError;
use crate::redactions::{Redactions, Replacements};
use snap_content::{Content, OutOfMemory, Text, ToContent};
use snap_select::{FnRedactor, Redaction, Redactor, SelectError};
use snap_store::metadata::{clone_info, clone_text};
use std::alloc::Global;
use std::mem;

/// The settings of an assertion.
#[derive(Drop)]
pub struct Settings {
    sort_maps: bool,
    prepends_module: bool,
    omits_expression: bool,
    snapshot_path: Text,
    snapshot_suffix: Text,
    description: Option<Text>,
    input_file: Option<Text>,
    info: Option<Content>,
    redactions: Redactions,
}

impl Settings {
    ghost use Rattle.snap_select.specs.Refusal.{IsRefused};
    ghost use Rattle.snap_assert_settings.specs.Redactions.{AreRedactions, AreRefused, RedactedBy, redaction_at, redactions_of};
    ghost use Rattle.snap_assert_settings.specs.Settings.{settings_of, redactions_in, new_settings, PrintsAs};

    /// Trees as they are, snapshots in the folder `snapshots`, no suffix, the expression kept and the
    /// module in front of the name.
    pub fn new(alloc: Global) -> Result<Settings, OutOfMemory>
        ensures settings { IfOk result (λ settings. settings_of settings ≡ new_settings) }
        ensures redactions { IfOk result (λ settings. redactions_in settings ≡ []) }
    {
        Settings::of_parts(alloc, false, Redactions::new(alloc))
    }

    /// Whether the entries of maps are sorted before they are printed.
    pub fn sort_maps(&self) -> bool
        ensures { result ≡ (settings_of self.now).sort_maps }
    {
        self.sort_maps
    }

    /// Says whether the entries of maps are sorted before they are printed.
    pub fn set_sort_maps(&mut self, value: bool)
        ensures settings { settings_of self.new
            ≡ record (settings_of self.old) { sort_maps = value } }
        ensures redactions { redactions_in self.new ≡ redactions_in self.old }
    {
        self.sort_maps = value;
    }

    /// Whether the module stands before the name in the name of the snapshot's file.
    pub fn prepend_module_to_snapshot(&self) -> bool
        ensures { result ≡ (settings_of self.now).prepends_module }
    {
        self.prepends_module
    }

    /// Says whether the module stands before the name in the name of the snapshot's file.
    pub fn set_prepend_module_to_snapshot(&mut self, value: bool)
        ensures settings { settings_of self.new
            ≡ record (settings_of self.old) { prepends_module = value } }
        ensures redactions { redactions_in self.new ≡ redactions_in self.old }
    {
        self.prepends_module = value;
    }

    /// Whether the expression stays out of the metadata.
    pub fn omit_expression(&self) -> bool
        ensures { result ≡ (settings_of self.now).omits_expression }
    {
        self.omits_expression
    }

    /// Says whether the expression stays out of the metadata.
    pub fn set_omit_expression(&mut self, value: bool)
        ensures settings { settings_of self.new
            ≡ record (settings_of self.old) { omits_expression = value } }
        ensures redactions { redactions_in self.new ≡ redactions_in self.old }
    {
        self.omits_expression = value;
    }

    /// What stands after the name and an `@`; none where it is empty.
    pub fn snapshot_suffix(&self) -> Option<&str>
        ensures { option_map (λ suffix. chars suffix.now) result ≡ (settings_of self.now).suffix }
    {
        if self.snapshot_suffix.len() > 0 {
            Some(self.snapshot_suffix.as_str())
        } else {
            None
        }
    }

    /// Has this stand after the name and an `@`; nothing where it is empty.
    pub fn set_snapshot_suffix(&mut self, suffix: Text)
        ensures settings { settings_of self.new
            ≡ record (settings_of self.old) { suffix = shown_text (Some suffix) } }
        ensures redactions { redactions_in self.new ≡ redactions_in self.old }
    {
        self.snapshot_suffix = suffix;
    }

    /// Has nothing stand after the name.
    pub fn remove_snapshot_suffix(&mut self)
        ensures settings { settings_of self.new ≡ record (settings_of self.old) { suffix = None } }
        ensures redactions { redactions_in self.new ≡ redactions_in self.old }
    {
        self.snapshot_suffix = Text::empty();
    }

    /// The folder of snapshots, below the folder of the assertion's file.
    pub fn snapshot_path(&self) -> &str
        ensures { chars result.now ≡ (settings_of self.now).snapshot_path }
    {
        self.snapshot_path.as_str()
    }

    /// The same as a text.
    pub fn snapshot_folder(&self) -> &Text
        ensures { result.now ≡ (settings_of self.now).snapshot_path }
    {
        &self.snapshot_path
    }

    /// Takes this folder for snapshots.
    pub fn set_snapshot_path(&mut self, path: Text)
        ensures settings { settings_of self.new
            ≡ record (settings_of self.old) { snapshot_path = path } }
        ensures redactions { redactions_in self.new ≡ redactions_in self.old }
    {
        self.snapshot_path = path;
    }

    /// The file that the tree was made from.
    pub fn input_file(&self) -> Option<&str>
        ensures { option_map (λ path. chars path.now) result ≡ (settings_of self.now).input_file }
    {
        self.input_file.as_ref().map(|path| path.as_str())
    }

    /// The same as a text.
    pub fn input_path(&self) -> Option<&Text>
        ensures { option_map (λ path. path.now) result ≡ (settings_of self.now).input_file }
    {
        self.input_file.as_ref()
    }

    /// Says which file the tree was made from: its path below the workspace, or one that begins at the root.
    pub fn set_input_file(&mut self, path: Text)
        ensures settings { settings_of self.new
            ≡ record (settings_of self.old) { input_file = Some path } }
        ensures redactions { redactions_in self.new ≡ redactions_in self.old }
    {
        self.input_file = Some(path);
    }

    /// Says nothing of a file that the tree was made from.
    pub fn remove_input_file(&mut self)
        ensures settings { settings_of self.new
            ≡ record (settings_of self.old) { input_file = None } }
        ensures redactions { redactions_in self.new ≡ redactions_in self.old }
    {
        self.input_file = None;
    }

    /// What a reviewer is told of the snapshot.
    pub fn description(&self) -> Option<&str>
        ensures { option_map (λ text. chars text.now) result ≡ (settings_of self.now).description }
    {
        self.description.as_ref().map(|text| text.as_str())
    }

    /// Says what a reviewer is told of the snapshot.
    pub fn set_description(&mut self, value: Text)
        ensures settings { settings_of self.new
            ≡ record (settings_of self.old) { description = Some value } }
        ensures redactions { redactions_in self.new ≡ redactions_in self.old }
    {
        self.description = Some(value);
    }

    /// Tells a reviewer nothing of the snapshot.
    pub fn remove_description(&mut self)
        ensures settings { settings_of self.new
            ≡ record (settings_of self.old) { description = None } }
        ensures redactions { redactions_in self.new ≡ redactions_in self.old }
    {
        self.description = None;
    }

    /// Whether metadata get a tree of the caller's.
    pub fn has_info(&self) -> bool
        ensures { result ≡ is_some (settings_of self.now).info }
    {
        self.info.is_some()
    }

    /// The tree that metadata get.
    pub fn info(&self) -> Option<&Content>
        ensures { option_map (λ info. tree info.now) result ≡ (settings_of self.now).info }
    {
        self.info.as_ref()
    }

    /// Gives metadata the tree of the value, redacted by the redactions that are set now; its maps aren't sorted.
    /// After running out of memory the settings are as they were.
    pub fn set_info<T: ToContent>(&mut self, value: &T) -> Result<(), OutOfMemory>
        ensures ok { OnOk result ((out : Tree)
            × RedactedBy (λ v. (⟦<dyn Redactor as Redactor>⟧ v).allows)
            (redactions_in self.old) (T.meaning value.now) out
            × (settings_of self.new ≡ record (settings_of self.old) { info = Some out })) }
        ensures err { OnErr result (settings_of self.new ≡ settings_of self.old) }
        ensures redactions { redactions_in self.new ≡ redactions_in self.old }
    {
        let alloc = self.redactions.allocator();
        let content = value.to_content(alloc)?;
        let info = self.redactions.apply(alloc, content)?;
        self.put_info(info);
        Ok(())
    }

    /// Gives metadata this tree as it is. After running out of memory the settings are as they were.
    pub fn set_raw_info(&mut self, content: &Content) -> Result<(), OutOfMemory>
        ensures ok { OnOk result (settings_of self.new
            ≡ record (settings_of self.old) { info = Some (tree content.now) }) }
        ensures err { OnErr result (settings_of self.new ≡ settings_of self.old) }
        ensures redactions { redactions_in self.new ≡ redactions_in self.old }
    {
        let info = content.try_clone(self.redactions.allocator())?;
        self.put_info(info);
        Ok(())
    }

    /// Gives metadata no tree.
    pub fn remove_info(&mut self)
        ensures settings { settings_of self.new ≡ record (settings_of self.old) { info = None } }
        ensures redactions { redactions_in self.new ≡ redactions_in self.old }
    {
        drop(mem::replace(&mut self.info, None));
    }

    fn put_info(&mut self, info: Content)
        ensures settings { settings_of self.new
            ≡ record (settings_of self.old) { info = Some (tree info) } }
        ensures redactions { redactions_in self.new ≡ redactions_in self.old }
    {
        drop(mem::replace(&mut self.info, Some(info)));
    }

    /// Adds a redaction at the end. After a refusal and after running out of memory the settings are as they were.
    pub fn add_redaction(
        &mut self,
        selector: &str,
        replacement: Redaction,
    ) -> Result<(), SelectError>
        ensures ok { OnOk result ((parts : Parts) × IsSelector (chars selector.now) parts
            × (redactions_in self.new
            ≡ redactions_in self.old ++ redaction_at parts replacement ∷ [])) }
        ensures refused { IfErr result (λ e. IsRefused (chars selector.now) e) }
        ensures err { OnErr result (redactions_in self.new ≡ redactions_in self.old) }
        ensures others { settings_of self.new ≡ settings_of self.old }
    {
        let alloc = self.redactions.allocator();
        self.redactions.add(alloc, selector, replacement)
    }

    /// Adds a redaction by an object of the caller's at the end: in place of each value that the selector hits stands what the
    /// object answers. After a refusal and after running out of memory the settings are as they were.
    pub fn add_dynamic_redaction(
        &mut self,
        selector: &str,
        func: Box<dyn Redactor>,
    ) -> Result<(), SelectError>
        ensures ok { OnOk result ((parts : Parts) × IsSelector (chars selector.now) parts
            × (redactions_in self.new
            ≡ redactions_in self.old ++ redaction_at parts (Redaction.Dynamic func) ∷ [])) }
        ensures refused { IfErr result (λ e. IsRefused (chars selector.now) e) }
        ensures err { OnErr result (redactions_in self.new ≡ redactions_in self.old) }
        ensures others { settings_of self.new ≡ settings_of self.old }
    {
        self.add_redaction(selector, Redaction::Dynamic(func))
    }

    /// Adds a redaction by a stored function at the end: in place of each value that the selector hits stands what the
    /// function answers. After a refusal and after running out of memory the settings are as they were.
    pub fn add_fn_redaction(
        &mut self,
        selector: &str,
        function: FnRedactor,
    ) -> Result<(), SelectError>
        ensures ok { OnOk result ((parts : Parts) × IsSelector (chars selector.now) parts
            × (redactions_in self.new
            ≡ redactions_in self.old ++ redaction_at parts (Redaction.Function function) ∷ [])) }
        ensures refused { IfErr result (λ e. IsRefused (chars selector.now) e) }
        ensures err { OnErr result (redactions_in self.new ≡ redactions_in self.old) }
        ensures others { settings_of self.new ≡ settings_of self.old }
    {
        self.add_redaction(selector, Redaction::Function(function))
    }

    /// Has the lists that the selector hits put in order, after the redactions so far.
    /// After a refusal and after running out of memory the settings are as they were.
    pub fn sort_selector(&mut self, selector: &str) -> Result<(), SelectError>
        ensures ok { OnOk result ((parts : Parts) × IsSelector (chars selector.now) parts
            × (redactions_in self.new
            ≡ redactions_in self.old ++ redaction_at parts Redaction.Sorted ∷ [])) }
        ensures refused { IfErr result (λ e. IsRefused (chars selector.now) e) }
        ensures err { OnErr result (redactions_in self.new ≡ redactions_in self.old) }
        ensures others { settings_of self.new ≡ settings_of self.old }
    {
        self.add_redaction(selector, Redaction::Sorted)
    }

    /// Takes these redactions in place of all. The first text that is no selector is refused.
    /// After a refusal and after running out of memory the settings are as they were.
    pub fn set_redactions(&mut self, redactions: Vec<(Text, Redaction)>) -> Result<(), SelectError>
        ensures ok { OnOk result (AreRedactions redactions.items (redactions_in self.new)) }
        ensures refused { IfErr result (λ e. AreRefused redactions.items e) }
        ensures err { OnErr result (redactions_in self.new ≡ redactions_in self.old) }
        ensures others { settings_of self.new ≡ settings_of self.old }
    {
        let alloc = self.redactions.allocator();
        self.redactions = Redactions::from_list(alloc, redactions)?;
        Ok(())
    }

    /// Takes all redactions away.
    pub fn clear_redactions(&mut self)
        ensures cleared { redactions_in self.new ≡ [] }
        ensures others { settings_of self.new ≡ settings_of self.old }
    {
        self.redactions = Redactions::new(self.redactions.allocator());
    }

    /// What is replaced before a tree is printed.
    pub fn redactions(&self) -> &Redactions
        ensures { redactions_of result.now ≡ redactions_in self.now }
    {
        &self.redactions
    }

    /// The tree that is printed: its maps sorted where that is set, and then each redaction in turn. The one error is
    /// out of memory.
    pub fn printed_tree(&self, alloc: Global, content: Content) -> Result<Content, OutOfMemory>
        ensures printed { IfOk result (λ made. PrintsAs (λ v. (⟦<dyn Redactor as Redactor>⟧ v).allows)
            self.now (tree content) (tree made)) }
    {
        let content = sorted_where(self.sort_maps, alloc, content)?;
        self.redactions.apply(alloc, content)
    }

    /// New settings but for sorting and the redactions.
    pub fn of_parts(
        alloc: Global,
        sort_maps: bool,
        redactions: Redactions,
    ) -> Result<Settings, OutOfMemory>
        ensures settings { IfOk result (λ settings. settings_of settings
            ≡ record new_settings { sort_maps = sort_maps }) }
        ensures redactions { IfOk result (λ settings.
            redactions_in settings ≡ redactions_of redactions) }
    {
        let snapshot_path = Text::from_ascii(alloc, "snapshots")?;
        Ok(Settings {
            sort_maps,
            prepends_module: true,
            omits_expression: false,
            snapshot_path,
            snapshot_suffix: Text::empty(),
            description: None,
            input_file: None,
            info: None,
            redactions,
        })
    }

    /// New settings but for sorting, with the redactions that a document asks for.
    pub fn from_replacements(
        alloc: Global,
        sort_maps: bool,
        replacements: Replacements,
    ) -> Result<Settings, OutOfMemory>
        ensures settings { IfOk result (λ settings. settings_of settings
            ≡ record new_settings { sort_maps = sort_maps }) }
        ensures redactions { IfOk result (λ settings. redactions_in settings
            ≡ map redaction_for replacements.entry.items) }
    {
        let redactions = Redactions::from_replacements(alloc, replacements)?;
        Settings::of_parts(alloc, sort_maps, redactions)
    }

    /// Settings that say the same, with the same redactions. They are refused exactly where a redaction calls an object or a
    /// function, neither of which can be copied.
    pub fn try_clone(&self) -> Result<Settings, CloneError>
        ensures settings { IfOk result (λ copy. settings_of copy ≡ settings_of self.now) }
        ensures redactions { IfOk result (λ copy.
            shown_redactions (redactions_in copy) ≡ shown_redactions (redactions_in self.now)) }
        ensures end { CloneEnd (list_any calls (redactions_in self.now)) result }
    {
        let redactions = self.redactions.try_clone()?;
        Ok(self.with_redactions(redactions)?)
    }

    /// Settings that say the same, with these redactions.
    fn with_redactions(&self, redactions: Redactions) -> Result<Settings, OutOfMemory>
        ensures settings { IfOk result (λ copy. settings_of copy ≡ settings_of self.now) }
        ensures redactions { IfOk result (λ copy.
            redactions_in copy ≡ redactions_of redactions) }
    {
        let alloc = redactions.allocator();
        Ok(Settings {
            sort_maps: self.sort_maps,
            prepends_module: self.prepends_module,
            omits_expression: self.omits_expression,
            snapshot_path: self.snapshot_path.try_clone(alloc)?,
            snapshot_suffix: self.snapshot_suffix.try_clone(alloc)?,
            description: clone_text(alloc, &self.description)?,
            input_file: clone_text(alloc, &self.input_file)?,
            info: clone_info(alloc, &self.info)?,
            redactions,
        })
    }
}

/// The tree with its maps sorted, where that is set.
fn sorted_where(is_set: bool, alloc: Global, content: Content) -> Result<Content, OutOfMemory>
    ensures { IfOk result (λ made. tree made ≡ sorted_where is_set (tree content)) }
{
    if !is_set {
        return Ok(content);
    }
    let mut sorted = content;
    match sorted.sort_maps(alloc) {
        Ok(()) => Ok(sorted),
        Err(error) => {
            drop(sorted);
            Err(error)
        }
    }
}
