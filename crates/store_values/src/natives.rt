//! The natives, and the names under which they stand.
ghost use Rattle.std.specs.Prelude.{◌≡◌, map};
ghost use Rattle.ruby_meaning.specs.Natives.{native_rows};
ghost use Rattle.store_values.specs.Natives.{row_of};

use crate::NativeRow;

/// Natives of Object.
#[derive(Clone, Copy, Drop)]
pub enum ObjectNative {
    /// `==`.
    Equal,
    /// `!`.
    Not,
    /// `class`.
    Class,
    /// `is_a?`, `kind_of?`.
    IsA,
    /// `nil?`.
    IsNil,
    /// `respond_to?`.
    Responds,
    /// `to_s`.
    ToText,
    /// `inspect`.
    Inspect,
    /// `freeze`.
    Freeze,
    /// `frozen?`.
    IsFrozen,
    /// `dup`.
    Copy,
    /// `__hash`.
    NewTable,
}

/// Natives of nil.
#[derive(Clone, Copy, Drop)]
pub enum NilNative {
    /// `to_s`.
    ToText,
    /// `inspect`.
    Inspect,
    /// `to_a`.
    ToArray,
    /// `to_i`.
    ToInteger,
}

/// Natives of Integer.
#[derive(Clone, Copy, Drop)]
pub enum IntegerNative {
    /// `+`.
    Add,
    /// `-`.
    Subtract,
    /// `*`.
    Multiply,
    /// `/`.
    Divide,
    /// `%`.
    Modulo,
    /// `**`.
    Power,
    /// `&`.
    And,
    /// `|`.
    Or,
    /// `^`.
    Xor,
    /// `<<`.
    ShiftLeft,
    /// `>>`.
    ShiftRight,
    /// `-@`.
    Minus,
    /// `+@`.
    Plus,
    /// `~`.
    Complement,
    /// `<`.
    Less,
    /// `<=`.
    AtMost,
    /// `>`.
    More,
    /// `>=`.
    AtLeast,
    /// `<=>`.
    Compare,
    /// `to_s`.
    ToText,
    /// `inspect`.
    Inspect,
    /// `to_i`.
    ToInteger,
    /// `abs`.
    Absolute,
    /// `even?`.
    IsEven,
    /// `odd?`.
    IsOdd,
    /// `zero?`.
    IsZero,
    /// `succ`.
    Successor,
}

/// Natives of String.
#[derive(Clone, Copy, Drop)]
pub enum StringNative {
    /// `+`.
    Add,
    /// `*`.
    Repeat,
    /// `==`.
    Equal,
    /// `<=>`.
    Compare,
    /// `<`.
    Less,
    /// `<=`.
    AtMost,
    /// `>`.
    More,
    /// `>=`.
    AtLeast,
    /// `[]`.
    Index,
    /// `size`, `length`.
    Size,
    /// `bytesize`.
    ByteSize,
    /// `empty?`.
    IsEmpty,
    /// `upcase`.
    Upcase,
    /// `downcase`.
    Downcase,
    /// `capitalize`.
    Capitalize,
    /// `strip`.
    Strip,
    /// `chomp`.
    Chomp,
    /// `start_with?`.
    StartsWith,
    /// `end_with?`.
    EndsWith,
    /// `include?`.
    Includes,
    /// `index`.
    PlaceOf,
    /// `sub`.
    ReplaceFirst,
    /// `gsub`.
    ReplaceAll,
    /// `split`.
    Split,
    /// `chars`.
    Characters,
    /// `lines`.
    Lines,
    /// `ljust`.
    LeftJustify,
    /// `rjust`.
    RightJustify,
    /// `to_i`.
    ToInteger,
    /// `to_s`.
    ToText,
    /// `to_sym`.
    ToSymbol,
    /// `inspect`.
    Inspect,
    /// `<<`.
    Append,
}

/// Natives of Symbol.
#[derive(Clone, Copy, Drop)]
pub enum SymbolNative {
    /// `to_s`, `name`.
    ToText,
    /// `to_sym`.
    ToSymbol,
    /// `size`.
    Size,
    /// `inspect`.
    Inspect,
}

/// Natives of Array.
#[derive(Clone, Copy, Drop)]
pub enum ArrayNative {
    /// `size`, `length`.
    Size,
    /// `empty?`.
    IsEmpty,
    /// `[]`.
    Index,
    /// `[]=`.
    SetIndex,
    /// `<<`.
    Append,
    /// `push`.
    Push,
    /// `unshift`.
    Unshift,
    /// `pop`.
    Pop,
    /// `shift`.
    Shift,
    /// `concat`.
    Concat,
    /// `+`.
    Add,
    /// `-`.
    Subtract,
    /// `uniq`.
    Unique,
    /// `delete`.
    Delete,
    /// `delete_at`.
    DeleteAt,
    /// `clear`.
    Clear,
    /// `reverse`.
    Reverse,
    /// `first`.
    First,
    /// `last`.
    Last,
    /// `sort`.
    Sort,
    /// `__join`.
    Join,
    /// `__sort_pairs`.
    SortPairs,
}

/// Natives of Hash.
#[derive(Clone, Copy, Drop)]
pub enum HashNative {
    /// `[]`.
    Index,
    /// `[]=`.
    SetIndex,
    /// `key?`.
    HasKey,
    /// `delete`.
    Delete,
    /// `keys`.
    Keys,
    /// `values`.
    Values,
    /// `size`.
    Size,
    /// `empty?`.
    IsEmpty,
    /// `merge`.
    Merge,
    /// `clear`.
    Clear,
}

/// Natives of Range.
#[derive(Clone, Copy, Drop)]
pub enum RangeNative {
    /// `first`.
    First,
    /// `last`.
    Last,
    /// `exclude_end?`.
    ExcludesEnd,
}

/// Natives of Module.
#[derive(Clone, Copy, Drop)]
pub enum ModuleNative {
    /// `name`, `to_s`, `inspect`.
    Name,
    /// `===`.
    CaseEqual,
    /// `superclass`.
    Superclass,
    /// `include`.
    Include,
    /// `attr_reader`.
    AttributeReader,
    /// `attr_writer`.
    AttributeWriter,
    /// `attr_accessor`.
    AttributeAccessor,
}

/// Natives that need more than the store.
#[derive(Clone, Copy, Drop)]
pub enum ControlNative {
    /// `require`.
    Require,
    /// `require_relative`.
    RequireRelative,
    /// `load`.
    Load,
    /// `gets`.
    Gets,
    /// `block_given?`.
    BlockGiven,
    /// `__emit`.
    Emit,
    /// `__throw`.
    Throw,
    /// `Proc#call`.
    Call,
    /// `YAML.load_file`.
    LoadYaml,
    /// `JSON.load_file`.
    LoadJson,
}

/// A native.
#[derive(Clone, Copy, Drop)]
pub enum Native {
    /// One of Object.
    Object(ObjectNative),
    /// One of nil.
    Nil(NilNative),
    /// `to_s` of true and false.
    BoolToText,
    /// `inspect` of true and false.
    BoolInspect,
    /// One of Integer.
    Integer(IntegerNative),
    /// One of String.
    String(StringNative),
    /// One of Symbol.
    Symbol(SymbolNative),
    /// One of Array.
    Array(ArrayNative),
    /// One of Hash.
    Hash(HashNative),
    /// One of Range.
    Range(RangeNative),
    /// One of Module.
    Module(ModuleNative),
    /// `__allocate` of Class.
    Allocate,
    /// One that needs more than the store.
    Control(ControlNative),
}

static NATIVE_ROWS: [NativeRow; 143] = [
    NativeRow {
        class: 0,
        on_class: false,
        name: "==",
        native: Native::Object(ObjectNative::Equal),
    },
    NativeRow {
        class: 0,
        on_class: false,
        name: "!",
        native: Native::Object(ObjectNative::Not),
    },
    NativeRow {
        class: 0,
        on_class: false,
        name: "class",
        native: Native::Object(ObjectNative::Class),
    },
    NativeRow {
        class: 0,
        on_class: false,
        name: "is_a?",
        native: Native::Object(ObjectNative::IsA),
    },
    NativeRow {
        class: 0,
        on_class: false,
        name: "kind_of?",
        native: Native::Object(ObjectNative::IsA),
    },
    NativeRow {
        class: 0,
        on_class: false,
        name: "nil?",
        native: Native::Object(ObjectNative::IsNil),
    },
    NativeRow {
        class: 0,
        on_class: false,
        name: "respond_to?",
        native: Native::Object(ObjectNative::Responds),
    },
    NativeRow {
        class: 0,
        on_class: false,
        name: "to_s",
        native: Native::Object(ObjectNative::ToText),
    },
    NativeRow {
        class: 0,
        on_class: false,
        name: "inspect",
        native: Native::Object(ObjectNative::Inspect),
    },
    NativeRow {
        class: 0,
        on_class: false,
        name: "freeze",
        native: Native::Object(ObjectNative::Freeze),
    },
    NativeRow {
        class: 0,
        on_class: false,
        name: "frozen?",
        native: Native::Object(ObjectNative::IsFrozen),
    },
    NativeRow {
        class: 0,
        on_class: false,
        name: "dup",
        native: Native::Object(ObjectNative::Copy),
    },
    NativeRow {
        class: 0,
        on_class: false,
        name: "__hash",
        native: Native::Object(ObjectNative::NewTable),
    },
    NativeRow {
        class: 0,
        on_class: false,
        name: "require",
        native: Native::Control(ControlNative::Require),
    },
    NativeRow {
        class: 0,
        on_class: false,
        name: "require_relative",
        native: Native::Control(ControlNative::RequireRelative),
    },
    NativeRow {
        class: 0,
        on_class: false,
        name: "load",
        native: Native::Control(ControlNative::Load),
    },
    NativeRow {
        class: 0,
        on_class: false,
        name: "gets",
        native: Native::Control(ControlNative::Gets),
    },
    NativeRow {
        class: 0,
        on_class: false,
        name: "block_given?",
        native: Native::Control(ControlNative::BlockGiven),
    },
    NativeRow {
        class: 0,
        on_class: false,
        name: "__emit",
        native: Native::Control(ControlNative::Emit),
    },
    NativeRow {
        class: 0,
        on_class: false,
        name: "__throw",
        native: Native::Control(ControlNative::Throw),
    },
    NativeRow {
        class: 3,
        on_class: false,
        name: "to_s",
        native: Native::Nil(NilNative::ToText),
    },
    NativeRow {
        class: 3,
        on_class: false,
        name: "inspect",
        native: Native::Nil(NilNative::Inspect),
    },
    NativeRow {
        class: 3,
        on_class: false,
        name: "to_a",
        native: Native::Nil(NilNative::ToArray),
    },
    NativeRow {
        class: 3,
        on_class: false,
        name: "to_i",
        native: Native::Nil(NilNative::ToInteger),
    },
    NativeRow {
        class: 4,
        on_class: false,
        name: "to_s",
        native: Native::BoolToText,
    },
    NativeRow {
        class: 4,
        on_class: false,
        name: "inspect",
        native: Native::BoolInspect,
    },
    NativeRow {
        class: 5,
        on_class: false,
        name: "to_s",
        native: Native::BoolToText,
    },
    NativeRow {
        class: 5,
        on_class: false,
        name: "inspect",
        native: Native::BoolInspect,
    },
    NativeRow {
        class: 6,
        on_class: false,
        name: "+",
        native: Native::Integer(IntegerNative::Add),
    },
    NativeRow {
        class: 6,
        on_class: false,
        name: "-",
        native: Native::Integer(IntegerNative::Subtract),
    },
    NativeRow {
        class: 6,
        on_class: false,
        name: "*",
        native: Native::Integer(IntegerNative::Multiply),
    },
    NativeRow {
        class: 6,
        on_class: false,
        name: "/",
        native: Native::Integer(IntegerNative::Divide),
    },
    NativeRow {
        class: 6,
        on_class: false,
        name: "%",
        native: Native::Integer(IntegerNative::Modulo),
    },
    NativeRow {
        class: 6,
        on_class: false,
        name: "**",
        native: Native::Integer(IntegerNative::Power),
    },
    NativeRow {
        class: 6,
        on_class: false,
        name: "&",
        native: Native::Integer(IntegerNative::And),
    },
    NativeRow {
        class: 6,
        on_class: false,
        name: "|",
        native: Native::Integer(IntegerNative::Or),
    },
    NativeRow {
        class: 6,
        on_class: false,
        name: "^",
        native: Native::Integer(IntegerNative::Xor),
    },
    NativeRow {
        class: 6,
        on_class: false,
        name: "<<",
        native: Native::Integer(IntegerNative::ShiftLeft),
    },
    NativeRow {
        class: 6,
        on_class: false,
        name: ">>",
        native: Native::Integer(IntegerNative::ShiftRight),
    },
    NativeRow {
        class: 6,
        on_class: false,
        name: "-@",
        native: Native::Integer(IntegerNative::Minus),
    },
    NativeRow {
        class: 6,
        on_class: false,
        name: "+@",
        native: Native::Integer(IntegerNative::Plus),
    },
    NativeRow {
        class: 6,
        on_class: false,
        name: "~",
        native: Native::Integer(IntegerNative::Complement),
    },
    NativeRow {
        class: 6,
        on_class: false,
        name: "<",
        native: Native::Integer(IntegerNative::Less),
    },
    NativeRow {
        class: 6,
        on_class: false,
        name: "<=",
        native: Native::Integer(IntegerNative::AtMost),
    },
    NativeRow {
        class: 6,
        on_class: false,
        name: ">",
        native: Native::Integer(IntegerNative::More),
    },
    NativeRow {
        class: 6,
        on_class: false,
        name: ">=",
        native: Native::Integer(IntegerNative::AtLeast),
    },
    NativeRow {
        class: 6,
        on_class: false,
        name: "<=>",
        native: Native::Integer(IntegerNative::Compare),
    },
    NativeRow {
        class: 6,
        on_class: false,
        name: "to_s",
        native: Native::Integer(IntegerNative::ToText),
    },
    NativeRow {
        class: 6,
        on_class: false,
        name: "inspect",
        native: Native::Integer(IntegerNative::Inspect),
    },
    NativeRow {
        class: 6,
        on_class: false,
        name: "to_i",
        native: Native::Integer(IntegerNative::ToInteger),
    },
    NativeRow {
        class: 6,
        on_class: false,
        name: "abs",
        native: Native::Integer(IntegerNative::Absolute),
    },
    NativeRow {
        class: 6,
        on_class: false,
        name: "even?",
        native: Native::Integer(IntegerNative::IsEven),
    },
    NativeRow {
        class: 6,
        on_class: false,
        name: "odd?",
        native: Native::Integer(IntegerNative::IsOdd),
    },
    NativeRow {
        class: 6,
        on_class: false,
        name: "zero?",
        native: Native::Integer(IntegerNative::IsZero),
    },
    NativeRow {
        class: 6,
        on_class: false,
        name: "succ",
        native: Native::Integer(IntegerNative::Successor),
    },
    NativeRow {
        class: 7,
        on_class: false,
        name: "+",
        native: Native::String(StringNative::Add),
    },
    NativeRow {
        class: 7,
        on_class: false,
        name: "*",
        native: Native::String(StringNative::Repeat),
    },
    NativeRow {
        class: 7,
        on_class: false,
        name: "==",
        native: Native::String(StringNative::Equal),
    },
    NativeRow {
        class: 7,
        on_class: false,
        name: "<=>",
        native: Native::String(StringNative::Compare),
    },
    NativeRow {
        class: 7,
        on_class: false,
        name: "<",
        native: Native::String(StringNative::Less),
    },
    NativeRow {
        class: 7,
        on_class: false,
        name: "<=",
        native: Native::String(StringNative::AtMost),
    },
    NativeRow {
        class: 7,
        on_class: false,
        name: ">",
        native: Native::String(StringNative::More),
    },
    NativeRow {
        class: 7,
        on_class: false,
        name: ">=",
        native: Native::String(StringNative::AtLeast),
    },
    NativeRow {
        class: 7,
        on_class: false,
        name: "[]",
        native: Native::String(StringNative::Index),
    },
    NativeRow {
        class: 7,
        on_class: false,
        name: "size",
        native: Native::String(StringNative::Size),
    },
    NativeRow {
        class: 7,
        on_class: false,
        name: "length",
        native: Native::String(StringNative::Size),
    },
    NativeRow {
        class: 7,
        on_class: false,
        name: "bytesize",
        native: Native::String(StringNative::ByteSize),
    },
    NativeRow {
        class: 7,
        on_class: false,
        name: "empty?",
        native: Native::String(StringNative::IsEmpty),
    },
    NativeRow {
        class: 7,
        on_class: false,
        name: "upcase",
        native: Native::String(StringNative::Upcase),
    },
    NativeRow {
        class: 7,
        on_class: false,
        name: "downcase",
        native: Native::String(StringNative::Downcase),
    },
    NativeRow {
        class: 7,
        on_class: false,
        name: "capitalize",
        native: Native::String(StringNative::Capitalize),
    },
    NativeRow {
        class: 7,
        on_class: false,
        name: "strip",
        native: Native::String(StringNative::Strip),
    },
    NativeRow {
        class: 7,
        on_class: false,
        name: "chomp",
        native: Native::String(StringNative::Chomp),
    },
    NativeRow {
        class: 7,
        on_class: false,
        name: "start_with?",
        native: Native::String(StringNative::StartsWith),
    },
    NativeRow {
        class: 7,
        on_class: false,
        name: "end_with?",
        native: Native::String(StringNative::EndsWith),
    },
    NativeRow {
        class: 7,
        on_class: false,
        name: "include?",
        native: Native::String(StringNative::Includes),
    },
    NativeRow {
        class: 7,
        on_class: false,
        name: "index",
        native: Native::String(StringNative::PlaceOf),
    },
    NativeRow {
        class: 7,
        on_class: false,
        name: "sub",
        native: Native::String(StringNative::ReplaceFirst),
    },
    NativeRow {
        class: 7,
        on_class: false,
        name: "gsub",
        native: Native::String(StringNative::ReplaceAll),
    },
    NativeRow {
        class: 7,
        on_class: false,
        name: "split",
        native: Native::String(StringNative::Split),
    },
    NativeRow {
        class: 7,
        on_class: false,
        name: "chars",
        native: Native::String(StringNative::Characters),
    },
    NativeRow {
        class: 7,
        on_class: false,
        name: "lines",
        native: Native::String(StringNative::Lines),
    },
    NativeRow {
        class: 7,
        on_class: false,
        name: "ljust",
        native: Native::String(StringNative::LeftJustify),
    },
    NativeRow {
        class: 7,
        on_class: false,
        name: "rjust",
        native: Native::String(StringNative::RightJustify),
    },
    NativeRow {
        class: 7,
        on_class: false,
        name: "to_i",
        native: Native::String(StringNative::ToInteger),
    },
    NativeRow {
        class: 7,
        on_class: false,
        name: "to_s",
        native: Native::String(StringNative::ToText),
    },
    NativeRow {
        class: 7,
        on_class: false,
        name: "to_sym",
        native: Native::String(StringNative::ToSymbol),
    },
    NativeRow {
        class: 7,
        on_class: false,
        name: "inspect",
        native: Native::String(StringNative::Inspect),
    },
    NativeRow {
        class: 7,
        on_class: false,
        name: "<<",
        native: Native::String(StringNative::Append),
    },
    NativeRow {
        class: 8,
        on_class: false,
        name: "to_s",
        native: Native::Symbol(SymbolNative::ToText),
    },
    NativeRow {
        class: 8,
        on_class: false,
        name: "name",
        native: Native::Symbol(SymbolNative::ToText),
    },
    NativeRow {
        class: 8,
        on_class: false,
        name: "to_sym",
        native: Native::Symbol(SymbolNative::ToSymbol),
    },
    NativeRow {
        class: 8,
        on_class: false,
        name: "size",
        native: Native::Symbol(SymbolNative::Size),
    },
    NativeRow {
        class: 8,
        on_class: false,
        name: "inspect",
        native: Native::Symbol(SymbolNative::Inspect),
    },
    NativeRow {
        class: 9,
        on_class: false,
        name: "size",
        native: Native::Array(ArrayNative::Size),
    },
    NativeRow {
        class: 9,
        on_class: false,
        name: "length",
        native: Native::Array(ArrayNative::Size),
    },
    NativeRow {
        class: 9,
        on_class: false,
        name: "empty?",
        native: Native::Array(ArrayNative::IsEmpty),
    },
    NativeRow {
        class: 9,
        on_class: false,
        name: "[]",
        native: Native::Array(ArrayNative::Index),
    },
    NativeRow {
        class: 9,
        on_class: false,
        name: "[]=",
        native: Native::Array(ArrayNative::SetIndex),
    },
    NativeRow {
        class: 9,
        on_class: false,
        name: "<<",
        native: Native::Array(ArrayNative::Append),
    },
    NativeRow {
        class: 9,
        on_class: false,
        name: "push",
        native: Native::Array(ArrayNative::Push),
    },
    NativeRow {
        class: 9,
        on_class: false,
        name: "unshift",
        native: Native::Array(ArrayNative::Unshift),
    },
    NativeRow {
        class: 9,
        on_class: false,
        name: "pop",
        native: Native::Array(ArrayNative::Pop),
    },
    NativeRow {
        class: 9,
        on_class: false,
        name: "shift",
        native: Native::Array(ArrayNative::Shift),
    },
    NativeRow {
        class: 9,
        on_class: false,
        name: "concat",
        native: Native::Array(ArrayNative::Concat),
    },
    NativeRow {
        class: 9,
        on_class: false,
        name: "+",
        native: Native::Array(ArrayNative::Add),
    },
    NativeRow {
        class: 9,
        on_class: false,
        name: "-",
        native: Native::Array(ArrayNative::Subtract),
    },
    NativeRow {
        class: 9,
        on_class: false,
        name: "uniq",
        native: Native::Array(ArrayNative::Unique),
    },
    NativeRow {
        class: 9,
        on_class: false,
        name: "delete",
        native: Native::Array(ArrayNative::Delete),
    },
    NativeRow {
        class: 9,
        on_class: false,
        name: "delete_at",
        native: Native::Array(ArrayNative::DeleteAt),
    },
    NativeRow {
        class: 9,
        on_class: false,
        name: "clear",
        native: Native::Array(ArrayNative::Clear),
    },
    NativeRow {
        class: 9,
        on_class: false,
        name: "reverse",
        native: Native::Array(ArrayNative::Reverse),
    },
    NativeRow {
        class: 9,
        on_class: false,
        name: "first",
        native: Native::Array(ArrayNative::First),
    },
    NativeRow {
        class: 9,
        on_class: false,
        name: "last",
        native: Native::Array(ArrayNative::Last),
    },
    NativeRow {
        class: 9,
        on_class: false,
        name: "sort",
        native: Native::Array(ArrayNative::Sort),
    },
    NativeRow {
        class: 9,
        on_class: false,
        name: "__join",
        native: Native::Array(ArrayNative::Join),
    },
    NativeRow {
        class: 9,
        on_class: false,
        name: "__sort_pairs",
        native: Native::Array(ArrayNative::SortPairs),
    },
    NativeRow {
        class: 10,
        on_class: false,
        name: "[]",
        native: Native::Hash(HashNative::Index),
    },
    NativeRow {
        class: 10,
        on_class: false,
        name: "[]=",
        native: Native::Hash(HashNative::SetIndex),
    },
    NativeRow {
        class: 10,
        on_class: false,
        name: "key?",
        native: Native::Hash(HashNative::HasKey),
    },
    NativeRow {
        class: 10,
        on_class: false,
        name: "delete",
        native: Native::Hash(HashNative::Delete),
    },
    NativeRow {
        class: 10,
        on_class: false,
        name: "keys",
        native: Native::Hash(HashNative::Keys),
    },
    NativeRow {
        class: 10,
        on_class: false,
        name: "values",
        native: Native::Hash(HashNative::Values),
    },
    NativeRow {
        class: 10,
        on_class: false,
        name: "size",
        native: Native::Hash(HashNative::Size),
    },
    NativeRow {
        class: 10,
        on_class: false,
        name: "empty?",
        native: Native::Hash(HashNative::IsEmpty),
    },
    NativeRow {
        class: 10,
        on_class: false,
        name: "merge",
        native: Native::Hash(HashNative::Merge),
    },
    NativeRow {
        class: 10,
        on_class: false,
        name: "clear",
        native: Native::Hash(HashNative::Clear),
    },
    NativeRow {
        class: 11,
        on_class: false,
        name: "first",
        native: Native::Range(RangeNative::First),
    },
    NativeRow {
        class: 11,
        on_class: false,
        name: "last",
        native: Native::Range(RangeNative::Last),
    },
    NativeRow {
        class: 11,
        on_class: false,
        name: "exclude_end?",
        native: Native::Range(RangeNative::ExcludesEnd),
    },
    NativeRow {
        class: 1,
        on_class: false,
        name: "name",
        native: Native::Module(ModuleNative::Name),
    },
    NativeRow {
        class: 1,
        on_class: false,
        name: "to_s",
        native: Native::Module(ModuleNative::Name),
    },
    NativeRow {
        class: 1,
        on_class: false,
        name: "inspect",
        native: Native::Module(ModuleNative::Name),
    },
    NativeRow {
        class: 1,
        on_class: false,
        name: "===",
        native: Native::Module(ModuleNative::CaseEqual),
    },
    NativeRow {
        class: 1,
        on_class: false,
        name: "superclass",
        native: Native::Module(ModuleNative::Superclass),
    },
    NativeRow {
        class: 1,
        on_class: false,
        name: "include",
        native: Native::Module(ModuleNative::Include),
    },
    NativeRow {
        class: 1,
        on_class: false,
        name: "attr_reader",
        native: Native::Module(ModuleNative::AttributeReader),
    },
    NativeRow {
        class: 1,
        on_class: false,
        name: "attr_writer",
        native: Native::Module(ModuleNative::AttributeWriter),
    },
    NativeRow {
        class: 1,
        on_class: false,
        name: "attr_accessor",
        native: Native::Module(ModuleNative::AttributeAccessor),
    },
    NativeRow {
        class: 2,
        on_class: false,
        name: "__allocate",
        native: Native::Allocate,
    },
    NativeRow {
        class: 12,
        on_class: false,
        name: "call",
        native: Native::Control(ControlNative::Call),
    },
    NativeRow {
        class: 31,
        on_class: true,
        name: "load_file",
        native: Native::Control(ControlNative::LoadYaml),
    },
    NativeRow {
        class: 32,
        on_class: true,
        name: "load_file",
        native: Native::Control(ControlNative::LoadJson),
    },
];

/// The rows of the natives, in order.
pub fn native_rows() -> &'static [NativeRow]
    ensures { map row_of result.now ≡ native_rows }
{
    &NATIVE_ROWS
}
