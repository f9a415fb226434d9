//! What a message says.
use bs_outside::{Items, Text};

/// Which kind of data file a value was read from.
#[derive(Clone, Copy, PartialEq, Eq, Debug)]
pub enum DataKind {
    Yaml,
    Json,
}

/// A value of a message. The bytes of texts and symbols may be any bytes.
#[derive(Drop)]
pub enum Value {
    Nil,
    Bool(bool),
    /// An integer of 64 bits with a sign.
    Int(i64),
    /// A text, in bytes.
    Str(Text),
    /// A symbol, by its name in bytes.
    Sym(Text),
    List(Items<Value>),
    /// Keys with their values, in order.
    Map(Items<(Value, Value)>),
}
