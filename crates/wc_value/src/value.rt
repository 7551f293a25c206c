//! The values that ports, keys and data nodes hold.

ghost use Rattle.std.specs.Prelude.{◌≡◌};
ghost use Rattle.wc_value.specs.Kinds.{kind_of};

use crate::keyed::Keyed;
use crate::list::{Bytes, List};
use crate::text::Text;

/// A list of texts, in any order and with repeats.
pub type Words = List<Text>;

/// A list of values.
pub type Values = List<Value>;

/// Values by name, strictly ascending by the bytes of the names.
pub type Fields = Keyed<Value>;

/// Contents by file name, strictly ascending by the bytes of the names.
pub type Files = Keyed<Bytes>;

/// A value that a port, a key of a context or a data node holds.
#[derive(Drop)]
pub enum Value {
    /// A whole number of 64 bits.
    Int(i64),
    /// True or false.
    Bool(bool),
    /// UTF-8 text.
    Text(Text),
    /// Values in order.
    List(Values),
    /// Values by key.
    Dict(Fields),
    /// Files by name.
    Folder(Files),
}

/// The kind of a value, as a port declares it.
#[derive(Clone, Copy, Debug, PartialEq, Eq)]
pub enum Kind {
    /// Of `Value::Int`.
    Int,
    /// Of `Value::Bool`.
    Bool,
    /// Of `Value::Text`.
    Text,
    /// Of `Value::List`.
    List,
    /// Of `Value::Dict`.
    Dict,
    /// Of `Value::Folder`.
    Folder,
}

impl Value {
    /// The kind of this value.
    pub fn kind(&self) -> Kind
        ensures { result ≡ kind_of self.now }
    {
        match self {
            Value::Int(_) => Kind::Int,
            Value::Bool(_) => Kind::Bool,
            Value::Text(_) => Kind::Text,
            Value::List(_) => Kind::List,
            Value::Dict(_) => Kind::Dict,
            Value::Folder(_) => Kind::Folder,
        }
    }
}
