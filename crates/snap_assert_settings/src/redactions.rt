//! Redactions, one after another.
ghost use Rattle.std.specs.Prelude.{◌≡◌, [], ◌∷◌, ◌++◌, IfOk, IfErr, OnOk, OnErr, map};
ghost use Rattle.std.specs.Str.{chars};
ghost use Rattle.snap_content.specs.View.{tree};
ghost use Rattle.snap_select.specs.Grammar.{IsSelector};
ghost use Rattle.snap_select.specs.Parts.{Parts};
ghost use Rattle.snap_select.specs.Refusal.{IsRefused};
ghost use Rattle.snap_select.specs.Selectors.{parts_of};
ghost use Rattle.snap_assert_settings.specs.Redactions.{AreRedactions, AreRefused, RedactedBy, redaction_at, redaction_of};
ghost use Rattle.snap_assert_settings.specs.Replaced.{redaction_for};

use snap_content::{Content, OutOfMemory, Text};
use snap_select::{Redaction, Redactor, Replacement, SelectError, Selector};
use std::alloc::Global;

/// What a document asks for: selectors, each with what stands in place of what it hits.
pub type Replacements = Vec<(Selector<'static>, Replacement)>;

/// Redactions, each with the selector of what it replaces. They are applied in turn.
#[derive(Drop)]
pub struct Redactions {
    items: Vec<(Selector<'static>, Redaction)>,
}

impl Redactions {
    ghost use Rattle.snap_assert_settings.specs.Redactions.{redactions_of};

    /// No redactions.
    pub fn new(alloc: Global) -> Redactions
        ensures { redactions_of result ≡ [] }
    {
        Redactions {
            items: Vec::new(alloc),
        }
    }

    /// The redactions of these texts, in their order. The first text that is no selector is refused.
    pub fn from_list(alloc: Global, list: Vec<(Text, Redaction)>) -> Result<Redactions, SelectError>
        ensures ok { IfOk result (λ made. AreRedactions list.items (redactions_of made)) }
        ensures refused { IfErr result (λ e. AreRefused list.items e) }
    {
        let mut made = Redactions::new(alloc);
        for (selector, redaction) in list {
            made.add(alloc, selector.as_str(), redaction)?;
        }
        Ok(made)
    }

    /// The redactions that a document asks for, in their order.
    pub fn from_replacements(
        alloc: Global,
        replacements: Replacements,
    ) -> Result<Redactions, OutOfMemory>
        ensures { IfOk result (λ made.
            redactions_of made ≡ map redaction_for replacements.entry.items) }
    {
        let mut made = Redactions::new(alloc);
        for (selector, replacement) in replacements {
            let redaction = match replacement {
                Replacement::Static(content) => Redaction::Static(content),
                Replacement::Sorted => Redaction::Sorted,
            };
            made.push(selector, redaction)?;
        }
        Ok(made)
    }

    /// Adds a redaction at the end. After a refusal and after running out of memory the redactions are as they were.
    pub fn add(
        &mut self,
        alloc: Global,
        selector: &str,
        redaction: Redaction,
    ) -> Result<(), SelectError>
        ensures ok { OnOk result ((parts : Parts) × IsSelector (chars selector.now) parts
            × (redactions_of self.new
            ≡ redactions_of self.old ++ redaction_at parts redaction ∷ [])) }
        ensures refused { IfErr result (λ e. IsRefused (chars selector.now) e) }
        ensures err { OnErr result (redactions_of self.new ≡ redactions_of self.old) }
    {
        match owned_selector(alloc, selector) {
            Ok(selector) => Ok(self.push(selector, redaction)?),
            Err(error) => {
                drop(redaction);
                Err(error)
            }
        }
    }

    /// Adds a redaction at the end. After running out of memory the redactions are as they were.
    pub fn push(
        &mut self,
        selector: Selector<'static>,
        redaction: Redaction,
    ) -> Result<(), OutOfMemory>
        ensures ok { OnOk result (redactions_of self.new
            ≡ redactions_of self.old ++ redaction_of (selector.entry, redaction) ∷ []) }
        ensures err { OnErr result (redactions_of self.new ≡ redactions_of self.old) }
    {
        self.items.push((selector, redaction))?;
        Ok(())
    }

    /// The tree with each redaction applied to it in turn. The one error is out of memory.
    pub fn apply(&self, alloc: Global, content: Content) -> Result<Content, OutOfMemory>
        ensures { IfOk result (λ made. RedactedBy (λ v. (⟦<dyn Redactor as Redactor>⟧ v).allows)
            (redactions_of self.now) (tree content) (tree made)) }
    {
        let mut made = content;
        for (selector, redaction) in self.items.as_slice() {
            made = selector.redact(alloc, made, redaction)?;
        }
        Ok(made)
    }

    /// The selectors, each with its redaction.
    pub(crate) fn as_slice(&self) -> &[(Selector<'static>, Redaction)]
        ensures { map redaction_of result.now ≡ redactions_of self.now }
    {
        self.items.as_slice()
    }

    /// Where the redactions are kept.
    pub(crate) fn allocator(&self) -> Global {
        *self.items.allocator()
    }
}

/// The selector of this text, with names of its own.
fn owned_selector(alloc: Global, selector: &str) -> Result<Selector<'static>, SelectError>
    ensures ok { IfOk result (λ made. IsSelector (chars selector.now) (parts_of made)) }
    ensures refused { IfErr result (λ e. IsRefused (chars selector.now) e) }
{
    let selector = Selector::parse(alloc, selector)?;
    Ok(selector.make_static(alloc)?)
}
