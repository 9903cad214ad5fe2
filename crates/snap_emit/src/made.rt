//! What a node is as a tree.
ghost use Rattle.std.specs.Prelude.{◌≡◌, true, IfOk, is_some, option_map, Some};
ghost use Rattle.snap_content.specs.Plain.{content_of};
ghost use Rattle.snap_content.specs.View.{tree};
ghost use Rattle.snap_yaml.specs.View.{value_of};
ghost use Rattle.snap_parse.specs.Documents.{scalar_value};
ghost use Rattle.snap_emit.specs.Built.{reading, seen, is_word_value};
ghost use Rattle.snap_emit.specs.PlainRead.{number_read};

use crate::whole::{is_whole, signed_content, whole_number};
use snap_content::{Content, Items, Lent, OutOfMemory, Pairs, Text};
use snap_parse::{TScalarStyle, Tag, Yaml, plain_value};
use std::alloc::Global;

/// What a node is, before a tree is made of it where it is put: a tree is large, and this goes through several hands.
#[derive(Drop)]
pub(crate) enum Made {
    /// What a tag asks for and the text is not, and a document without a value.
    Bad,
    Null,
    Truth(bool),
    Integer(i64),
    Text(Text),
    /// A number that was kept as its text, since it has more than 64 bits or isn't whole.
    Number(Text),
    /// The items of a list, unless one of them is no tree, and whether a number comes first in them that is kept as its text.
    List(Option<Items>, bool),
    /// The same of the pairs of a mapping.
    Dict(Option<Pairs>, bool),
}

impl Made {
    /// What a scalar's value is.
    fn of_word(value: Yaml) -> Made
        requires { is_word_value (value_of value) ≡ true }
        ensures { seen result ≡ reading (value_of value) }
    {
        match value {
            Yaml::Null => Made::Null,
            Yaml::Boolean(truth) => Made::Truth(truth),
            Yaml::Integer(number) => Made::Integer(number),
            Yaml::String(text) => Made::Text(text),
            Yaml::Real(text) => Made::Number(text),
            Yaml::BadValue => Made::Bad,
            Yaml::Array(_) | Yaml::Hash(_) => unreachable!(),
        }
    }

    /// Whether it is a bad value itself.
    pub(crate) fn is_bad(&self) -> bool
        ensures { result ≡ (seen self.now).bad }
    {
        matches!(self, Made::Bad)
    }

    /// Whether a number stands in it as its text, since it is no whole number of 128 bits. Where there is no tree, whether such a
    /// number stands before what is none.
    pub(crate) fn has_number(&self) -> bool
        ensures { result ≡ (seen self.now).number }
    {
        match self {
            Made::Number(text) => !is_whole(text.as_str()),
            Made::List(_, has_number) | Made::Dict(_, has_number) => *has_number,
            Made::Bad | Made::Null | Made::Truth(_) | Made::Integer(_) | Made::Text(_) => false,
        }
    }

    /// Whether it is a tree. A bad value is none, nor is what one stands in.
    pub(crate) fn is_tree(&self) -> bool
        ensures { result ≡ is_some (seen self.now).tree }
    {
        match self {
            Made::Bad => false,
            Made::List(items, _) => items.is_some(),
            Made::Dict(pairs, _) => pairs.is_some(),
            Made::Null | Made::Truth(_) | Made::Integer(_) | Made::Text(_) | Made::Number(_) => {
                true
            }
        }
    }

    /// The tree that it is.
    pub(crate) fn into_tree(self) -> Content
        requires { is_some (seen self).tree ≡ true }
        ensures { Some (tree result) ≡ (seen self).tree }
    {
        match self {
            Made::Null => Content::None,
            Made::Truth(truth) => Content::Bool(truth),
            Made::Integer(number) => signed_content(i128::from(number)),
            Made::Text(text) => Content::String(text),
            Made::Number(text) => number_content(text),
            Made::List(Some(items), _) => Content::Seq(items),
            Made::Dict(Some(pairs), _) => Content::Map(pairs),
            Made::Bad | Made::List(None, _) | Made::Dict(None, _) => unreachable!(),
        }
    }

    /// The tree, if it is one.
    pub(crate) fn into_content(self) -> Option<Content>
        ensures { option_map tree result ≡ (seen self).tree }
    {
        if self.is_tree() {
            Some(self.into_tree())
        } else {
            drop(self);
            None
        }
    }
}

/// The tree of a number that was kept as its text: the whole number of 128 bits that it is, and else the text.
fn number_content(text: Text) -> Content
    ensures { tree result ≡ content_of (number_read text) }
{
    match whole_number(text.as_str()) {
        Some(number) => {
            drop(text);
            number
        }
        None => Content::String(text),
    }
}

/// What a scalar is. A text that is held already becomes its text, and a borrowed one is copied once.
pub(crate) fn scalar(
    alloc: Global,
    text: Lent<'_>,
    style: TScalarStyle,
    tag: Option<Tag>,
) -> Result<Made, OutOfMemory>
    ensures { IfOk result (λ made. seen made ≡ reading (scalar_value text.entry style tag)) }
{
    match style {
        TScalarStyle::Plain => Ok(Made::of_word(plain_value(alloc, text.as_str(), tag)?)),
        _ => Ok(Made::Text(text.into_text(alloc)?)),
    }
}
