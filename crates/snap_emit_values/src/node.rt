//! What the emitter sees of a `Yaml` or of a tree: one level, lent.
ghost use Rattle.std.specs.Prelude.{◌≡◌, ◌<◌, length, get_or, pos};
ghost use Rattle.snap_emit_values.specs.FromContent.{content_shape};
ghost use Rattle.snap_emit_values.specs.Nodes.{item_shapes, entry_shapes, node_shape, node_pair};
ghost use Rattle.snap_emit_values.specs.Shape.{number, shape_of};

use snap_content::{Content, Text};
use snap_yaml::Yaml;

/// One level of a value: a scalar, or what is after a list or a dict.
#[derive(Clone, Copy)]
pub enum Node<'a> {
    Null,
    Bool(bool),
    Integer(i64),
    /// A whole number without a sign, of more than 63 bits.
    Natural(u128),
    /// A whole number of more than 64 bits with its sign.
    Wide(i128),
    /// A number that is written as it was kept.
    Real(&'a str),
    Char(char),
    Text(&'a str),
    List(Items<'a>),
    Dict(Entries<'a>),
}

/// The items of a list.
#[derive(Clone, Copy)]
pub enum Items<'a> {
    Values(&'a [Yaml]),
    Trees(&'a [Content]),
    Bytes(&'a [u8]),
}

/// The pairs of a dict.
#[derive(Clone, Copy)]
pub enum Entries<'a> {
    Values(&'a [(Yaml, Yaml)]),
    Trees(&'a [(Content, Content)]),
    Fields(&'a [(Text, Content)]),
    /// A variant's name, and its value.
    Newtype(&'a Text, &'a Content),
    /// A variant's name, and its items.
    Tuple(&'a Text, &'a [Content]),
    /// A variant's name, and its fields.
    Struct(&'a Text, &'a [(Text, Content)]),
}

/// The node of a number without a sign.
fn natural<'a>(value: u128) -> Node<'a>
    ensures { node_shape result ≡ number (pos value) }
{
    match i64::try_from(value) {
        Ok(small) => Node::Integer(small),
        Err(_) => Node::Natural(value),
    }
}

/// The node of a number with a sign.
fn integer<'a>(value: i128) -> Node<'a>
    ensures { node_shape result ≡ number value }
{
    match i64::try_from(value) {
        Ok(small) => Node::Integer(small),
        Err(_) => Node::Wide(value),
    }
}

impl<'a> Node<'a> {
    pub fn of_value(value: &'a Yaml) -> Node<'a>
        ensures { node_shape result ≡ shape_of value.now }
    {
        match value {
            Yaml::Real(text) => Node::Real(text.as_str()),
            Yaml::Integer(number) => Node::Integer(*number),
            Yaml::String(text) => Node::Text(text.as_str()),
            Yaml::Boolean(truth) => Node::Bool(*truth),
            Yaml::Array(items) => Node::List(Items::Values(items.as_slice())),
            Yaml::Hash(pairs) => Node::Dict(Entries::Values(pairs.as_slice())),
            Yaml::Null | Yaml::BadValue => Node::Null,
        }
    }

    /// The node of a tree's plain form: what is in a wrapper, without struct names and widths.
    pub fn of_tree(content: &'a Content) -> Node<'a>
        ensures { node_shape result ≡ content_shape content.now }
    {
        match content {
            Content::Bool(truth) => Node::Bool(*truth),
            Content::U8(value) => Node::Integer(i64::from(*value)),
            Content::U16(value) => Node::Integer(i64::from(*value)),
            Content::U32(value) => Node::Integer(i64::from(*value)),
            Content::U64(value) => natural(u128::from(*value)),
            Content::U128(value) => natural(*value),
            Content::I8(value) => Node::Integer(i64::from(*value)),
            Content::I16(value) => Node::Integer(i64::from(*value)),
            Content::I32(value) => Node::Integer(i64::from(*value)),
            Content::I64(value) => Node::Integer(*value),
            Content::I128(value) => integer(*value),
            Content::Char(value) => Node::Char(*value),
            Content::String(text) | Content::UnitVariant(_, _, text) => Node::Text(text.as_str()),
            Content::None | Content::Unit | Content::UnitStruct(_) => Node::Null,
            Content::Some(inner) | Content::NewtypeStruct(_, inner) => Node::of_tree(inner),
            Content::Bytes(bytes) => Node::List(Items::Bytes(bytes.as_slice())),
            Content::Seq(items) => Node::List(Items::Trees(items.as_slice())),
            Content::Tuple(items) => Node::List(Items::Trees(items.as_slice())),
            Content::TupleStruct(_, items) => Node::List(Items::Trees(items.as_slice())),
            Content::Map(pairs) => Node::Dict(Entries::Trees(pairs.as_slice())),
            Content::Struct(_, fields) => Node::Dict(Entries::Fields(fields.as_slice())),
            Content::NewtypeVariant(_, _, name, inner) => {
                Node::Dict(Entries::Newtype(name, inner))
            }
            Content::TupleVariant(_, _, name, items) => {
                Node::Dict(Entries::Tuple(name, items.as_slice()))
            }
            Content::StructVariant(_, _, name, fields) => {
                Node::Dict(Entries::Struct(name, fields.as_slice()))
            }
        }
    }
}

impl<'a> Items<'a> {
    pub fn len(self) -> usize
        ensures { result ≡ length (item_shapes self.entry) }
    {
        match self {
            Items::Values(items) => items.len(),
            Items::Trees(items) => items.len(),
            Items::Bytes(bytes) => bytes.len(),
        }
    }

    pub fn at(self, index: usize) -> Node<'a>
        requires { index < length (item_shapes self) }
        ensures { node_shape result ≡ get_or (item_shapes self.entry) index (node_shape result) }
    {
        match self {
            Items::Values(items) => Node::of_value(&items[index]),
            Items::Trees(items) => Node::of_tree(&items[index]),
            Items::Bytes(bytes) => Node::Integer(i64::from(bytes[index])),
        }
    }
}

impl<'a> Entries<'a> {
    pub fn len(self) -> usize
        ensures { result ≡ length (entry_shapes self.entry) }
    {
        match self {
            Entries::Values(pairs) => pairs.len(),
            Entries::Trees(pairs) => pairs.len(),
            Entries::Fields(fields) => fields.len(),
            Entries::Newtype(_, _) | Entries::Tuple(_, _) | Entries::Struct(_, _) => 1,
        }
    }

    /// The key and the value of a pair.
    pub fn at(self, index: usize) -> (Node<'a>, Node<'a>)
        requires { index < length (entry_shapes self) }
        ensures { node_pair result ≡ get_or (entry_shapes self.entry) index (node_pair result) }
    {
        match self {
            Entries::Values(pairs) => {
                let pair = &pairs[index];
                (Node::of_value(&pair.0), Node::of_value(&pair.1))
            }
            Entries::Trees(pairs) => {
                let pair = &pairs[index];
                (Node::of_tree(&pair.0), Node::of_tree(&pair.1))
            }
            Entries::Fields(fields) => {
                let field = &fields[index];
                (Node::Text(field.0.as_str()), Node::of_tree(&field.1))
            }
            Entries::Newtype(name, inner) => (Node::Text(name.as_str()), Node::of_tree(inner)),
            Entries::Tuple(name, items) => {
                (Node::Text(name.as_str()), Node::List(Items::Trees(items)))
            }
            Entries::Struct(name, fields) => {
                (
                    Node::Text(name.as_str()),
                    Node::Dict(Entries::Fields(fields)),
                )
            }
        }
    }
}
