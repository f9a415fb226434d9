//! The first bytes of a spelling, which tell what kind of value it is.
ghost use Rattle.std.specs.Prelude.{◌≡◌, ◌≢◌, ◌^◌, ◌<◌, ◌≤◌, ◌++◌, MatchResult, OnOk};
ghost use Rattle.msgpack_codec.specs.Message.{counted, natural, negative, str_head, sym_head, list_head, map_head};
ghost use Rattle.msgpack_codec.specs.Reading.{Found, Stopped};
ghost use Rattle.msgpack_codec.specs.Heads as heads;

use crate::number::read_number;
use crate::stop::Stop;
use std::alloc::AllocError;

/// What the first bytes of a spelling tell: a value, or how many bytes, items or pairs follow.
#[derive(Clone, Copy)]
pub(crate) enum Head {
    Nil,
    Bool(bool),
    Int(i64),
    Str(u32),
    Sym(u32),
    List(u32),
    Map(u32),
}

/// What a number behind the first byte stands for.
#[derive(Clone, Copy)]
pub(crate) enum Kind {
    /// The integer itself.
    Natural,
    /// A negative integer in two's complement, by the greatest number of so many bytes.
    Negative(u64),
    Str,
    Sym,
    List,
    Map,
}

/// What has to follow a first byte.
#[derive(Clone, Copy)]
pub(crate) enum Form {
    /// No spelling begins with it.
    Refused,
    /// Nothing: it is the head.
    Whole(Head),
    /// A number of so many bytes, which is at least and at most so large.
    Counted(Kind, u32, u64, u64),
    /// The length of a symbol for whose length there is no first byte.
    ShortSymbol,
}

/// The form of the heads that begin with this byte.
#[tactic(auto, using(std::proofs::lemmas::Bool::Decides::nat_tests), unfolding(crate::specs::Heads::form_of, crate::specs::Heads::middle_form))]
fn form_of(first: u8) -> Form
    ensures { result ≡ heads.form_of first }
{
    match first {
        0x00..=0x7f => Form::Whole(Head::Int(first as i64)),
        0x80..=0x8f => Form::Whole(Head::Map(first as u32 - 0x80)),
        0x90..=0x9f => Form::Whole(Head::List(first as u32 - 0x90)),
        0xa0..=0xbf => Form::Whole(Head::Str(first as u32 - 0xa0)),
        0xc0 => Form::Whole(Head::Nil),
        0xc2 => Form::Whole(Head::Bool(false)),
        0xc3 => Form::Whole(Head::Bool(true)),
        0xc7 => Form::ShortSymbol,
        0xc8 => Form::Counted(Kind::Sym, 2, 0x100, 0xffff),
        0xc9 => Form::Counted(Kind::Sym, 4, 0x1_0000, 0xffff_ffff),
        0xcc => Form::Counted(Kind::Natural, 1, 0x80, 0xff),
        0xcd => Form::Counted(Kind::Natural, 2, 0x100, 0xffff),
        0xce => Form::Counted(Kind::Natural, 4, 0x1_0000, 0xffff_ffff),
        0xcf => Form::Counted(Kind::Natural, 8, 0x1_0000_0000, 0x7fff_ffff_ffff_ffff),
        0xd0 => Form::Counted(Kind::Negative(0xff), 1, 0x80, 0xdf),
        0xd1 => Form::Counted(Kind::Negative(0xffff), 2, 0x8000, 0xff7f),
        0xd2 => Form::Counted(Kind::Negative(0xffff_ffff), 4, 0x8000_0000, 0xffff_7fff),
        0xd3 => Form::Counted(
            Kind::Negative(0xffff_ffff_ffff_ffff),
            8,
            0x8000_0000_0000_0000,
            0xffff_ffff_7fff_ffff,
        ),
        0xd4 => Form::Whole(Head::Sym(1)),
        0xd5 => Form::Whole(Head::Sym(2)),
        0xd6 => Form::Whole(Head::Sym(4)),
        0xd7 => Form::Whole(Head::Sym(8)),
        0xd8 => Form::Whole(Head::Sym(16)),
        0xd9 => Form::Counted(Kind::Str, 1, 0x20, 0xff),
        0xda => Form::Counted(Kind::Str, 2, 0x100, 0xffff),
        0xdb => Form::Counted(Kind::Str, 4, 0x1_0000, 0xffff_ffff),
        0xdc => Form::Counted(Kind::List, 2, 0x10, 0xffff),
        0xdd => Form::Counted(Kind::List, 4, 0x1_0000, 0xffff_ffff),
        0xde => Form::Counted(Kind::Map, 2, 0x10, 0xffff),
        0xdf => Form::Counted(Kind::Map, 4, 0x1_0000, 0xffff_ffff),
        0xe0..=0xff => Form::Whole(Head::Int(first as i64 - 0x100)),
        0xc1 | 0xc4..=0xc6 | 0xca..=0xcb => Form::Refused,
    }
}

/// Whether a head of this form can stand here, where lists and maps may or may not.
fn can_stand(form: Form, nests: bool) -> bool
    ensures { result ≡ heads.can_stand form nests }
{
    match form {
        Form::Refused => false,
        Form::Whole(Head::List(_)) | Form::Whole(Head::Map(_)) => nests,
        Form::Counted(Kind::List, _, _, _) | Form::Counted(Kind::Map, _, _, _) => nests,
        _ => true,
    }
}

/// The head of this kind with this number.
fn head_with(kind: Kind, number: u64) -> Head
    requires { heads.IsNumberOf kind number }
    ensures { result ≡ heads.head_with kind number }
{
    match kind {
        Kind::Natural => Head::Int(number as i64),
        Kind::Negative(top) => Head::Int(-1 - (top - number) as i64),
        Kind::Str => Head::Str(number as u32),
        Kind::Sym => Head::Sym(number as u32),
        Kind::List => Head::List(number as u32),
        Kind::Map => Head::Map(number as u32),
    }
}

/// Reads the head at the front; lists and maps only where they may stand there.
pub(crate) fn read_head(bytes: &[u8], nests: bool) -> Result<(Head, &[u8]), Stop>
    ensures { MatchResult result
        (λ found. Found (heads.HeadAt nests) found.0 bytes.now found.1.now)
        (λ e. Stopped (heads.HeadAt nests) bytes.now e) }
{
    let Some((first, rest)) = bytes.split_first() else {
        return Err(Stop::Short);
    };
    let form = form_of(*first);
    if !can_stand(form, nests) {
        return Err(Stop::Bad(bytes.len()));
    }
    read_rest(form, rest)
}

/// Reads what follows the first byte of a head.
fn read_rest(form: Form, bytes: &[u8]) -> Result<(Head, &[u8]), Stop>
    requires sound { heads.IsSoundForm form }
    requires used { form ≢ Form.Refused }
    ensures { MatchResult result
        (λ found. Found (heads.Follows form) found.0 bytes.now found.1.now)
        (λ e. Stopped (heads.Follows form) bytes.now e) }
{
    match form {
        Form::Refused => unreachable!(),
        Form::Whole(head) => Ok((head, bytes)),
        Form::Counted(kind, size, low, high) => {
            let (number, rest) = read_number(bytes, size, 0, low, high)?;
            Ok((head_with(kind, number), rest))
        }
        Form::ShortSymbol => short_symbol(bytes),
    }
}

/// Reads the length of a symbol of 0, 3, 5 to 7, 9 to 15, or 17 to 255 bytes.
fn short_symbol(bytes: &[u8]) -> Result<(Head, &[u8]), Stop>
    ensures { MatchResult result
        (λ found. Found (heads.Follows Form.ShortSymbol) found.0 bytes.now found.1.now)
        (λ e. Stopped (heads.Follows Form.ShortSymbol) bytes.now e) }
{
    let Some((first, rest)) = bytes.split_first() else {
        return Err(Stop::Short);
    };
    if is_fixed(*first) {
        return Err(Stop::Bad(bytes.len()));
    }
    Ok((Head::Sym(*first as u32), rest))
}

/// Whether there is a first byte for symbols of this length.
fn is_fixed(length: u8) -> bool
    ensures { result ≡ heads.is_fixed length }
{
    length == 1 || length == 2 || length == 4 || length == 8 || length == 16
}

/// Writes a first byte and the lowest `size` bytes of a number behind it.
fn push_counted(out: &mut Vec<u8>, first: u8, size: usize, number: u64) -> Result<(), AllocError>
    requires { size ≤ 8 }
    ensures { OnOk result (out.new.items ≡ out.old.items ++ counted first size number) }
{
    out.push(first)?;
    let digits = number.to_be_bytes();
    out.extend_from_slice(&digits[8 - size..])?;
    Ok(())
}

/// Writes the shortest spelling of an integer from 0 on.
#[tactic(auto, using(std::proofs::lemmas::Bool::Decides::nat_tests), unfolding(crate::specs::Message::natural))]
fn push_natural(out: &mut Vec<u8>, number: u64) -> Result<(), AllocError>
    ensures { OnOk result (out.new.items ≡ out.old.items ++ natural number) }
{
    match number {
        0..0x80 => Ok(out.push(number as u8)?),
        0x80..0x100 => push_counted(out, 0xcc, 1, number),
        0x100..0x1_0000 => push_counted(out, 0xcd, 2, number),
        0x1_0000..0x1_0000_0000 => push_counted(out, 0xce, 4, number),
        _ => push_counted(out, 0xcf, 8, number),
    }
}

/// Writes the shortest spelling of the integer -1 - `below`.
#[tactic(auto, using(std::proofs::lemmas::Bool::Decides::nat_tests), unfolding(crate::specs::Message::negative))]
fn push_negative(out: &mut Vec<u8>, below: u64) -> Result<(), AllocError>
    ensures { OnOk result (out.new.items ≡ out.old.items ++ negative below) }
{
    match below {
        0..0x20 => Ok(out.push(0xff - below as u8)?),
        0x20..0x80 => push_counted(out, 0xd0, 1, 0xff - below),
        0x80..0x8000 => push_counted(out, 0xd1, 2, 0xffff - below),
        0x8000..0x8000_0000 => push_counted(out, 0xd2, 4, 0xffff_ffff - below),
        _ => push_counted(out, 0xd3, 8, 0xffff_ffff_ffff_ffff - below),
    }
}

/// Writes what stands before a text of so many bytes.
#[tactic(auto, using(std::proofs::lemmas::Bool::Decides::nat_tests), unfolding(crate::specs::Message::str_head))]
fn push_str(out: &mut Vec<u8>, length: u64) -> Result<(), AllocError>
    ensures { OnOk result (out.new.items ≡ out.old.items ++ str_head length) }
{
    match length {
        0..0x20 => Ok(out.push(0xa0 + length as u8)?),
        0x20..0x100 => push_counted(out, 0xd9, 1, length),
        0x100..0x1_0000 => push_counted(out, 0xda, 2, length),
        _ => push_counted(out, 0xdb, 4, length),
    }
}

/// Writes what stands before the type and the name of a symbol of so many bytes.
#[tactic(auto, using(std::proofs::lemmas::Bool::Decides::nat_tests), unfolding(crate::specs::Message::sym_head))]
fn push_sym(out: &mut Vec<u8>, length: u64) -> Result<(), AllocError>
    ensures { OnOk result (out.new.items ≡ out.old.items ++ sym_head length) }
{
    match length {
        1 => Ok(out.push(0xd4)?),
        2 => Ok(out.push(0xd5)?),
        4 => Ok(out.push(0xd6)?),
        8 => Ok(out.push(0xd7)?),
        16 => Ok(out.push(0xd8)?),
        0..0x100 => push_counted(out, 0xc7, 1, length),
        0x100..0x1_0000 => push_counted(out, 0xc8, 2, length),
        _ => push_counted(out, 0xc9, 4, length),
    }
}

/// Writes what stands before so many items of a list.
#[tactic(auto, using(std::proofs::lemmas::Bool::Decides::nat_tests), unfolding(crate::specs::Message::list_head))]
fn push_list(out: &mut Vec<u8>, count: u64) -> Result<(), AllocError>
    ensures { OnOk result (out.new.items ≡ out.old.items ++ list_head count) }
{
    match count {
        0..0x10 => Ok(out.push(0x90 + count as u8)?),
        0x10..0x1_0000 => push_counted(out, 0xdc, 2, count),
        _ => push_counted(out, 0xdd, 4, count),
    }
}

/// Writes what stands before so many pairs of a map.
#[tactic(auto, using(std::proofs::lemmas::Bool::Decides::nat_tests), unfolding(crate::specs::Message::map_head))]
fn push_map(out: &mut Vec<u8>, count: u64) -> Result<(), AllocError>
    ensures { OnOk result (out.new.items ≡ out.old.items ++ map_head count) }
{
    match count {
        0..0x10 => Ok(out.push(0x80 + count as u8)?),
        0x10..0x1_0000 => push_counted(out, 0xde, 2, count),
        _ => push_counted(out, 0xdf, 4, count),
    }
}

/// Writes the shortest spelling of a head.
pub(crate) fn push_head(out: &mut Vec<u8>, head: Head) -> Result<(), AllocError>
    ensures { OnOk result (out.new.items ≡ out.old.items ++ heads.head_bytes head) }
{
    match head {
        Head::Nil => Ok(out.push(0xc0)?),
        Head::Bool(false) => Ok(out.push(0xc2)?),
        Head::Bool(true) => Ok(out.push(0xc3)?),
        Head::Int(number) if number < 0 => push_negative(out, (-1 - number) as u64),
        Head::Int(number) => push_natural(out, number as u64),
        Head::Str(length) => push_str(out, length as u64),
        Head::Sym(length) => push_sym(out, length as u64),
        Head::List(count) => push_list(out, count as u64),
        Head::Map(count) => push_map(out, count as u64),
    }
}
