//! Error texts.
ghost use Rattle.std.specs.Prelude.{◌≡◌, ◌≤◌, ◌++◌, IfOk, OnOk, OnErr, IsErrOf};
ghost use Rattle.std.specs.String.{string_bytes};
ghost use Rattle.bs_outside.specs.Told.{added, AddsPrefix, Rose};
ghost use Rattle.std.specs.Fmt.{decimal};
ghost use Rattle.bootsnap_top.specs.Answer.{usage_text, missing_text, syntax_text};
ghost use Rattle.bootsnap_top.specs.SmallRun.{out_of_range};

use bs_outside::{NoMemory, Sink, SinkFault, Text, put_all};
use std::alloc::Global;

/// Writes that there is no such file.
#[tactic(auto, using(bs_outside::proofs::Owing::none_came))]
pub fn say_missing<O: Sink>(alloc: Global, err: &mut O, path: &Text) -> Result<(), SinkFault>
    ensures ok { OnOk result (O.taken err.new ≡ added (O.taken err.old) (missing_text path.now)) }
    ensures err { OnErr result (AddsPrefix (O.taken err.old) (O.taken err.new) (missing_text path.now)) }
    ensures counted { O.faults err.old ≤ O.faults err.new }
    ensures failed { IsErrOf result SinkFault.Failed → Rose (O.faults err.old) (O.faults err.new) }
{
    match missing_text(alloc, path) {
        Ok(text) => put_all(alloc, err, &text),
        Err(_) => Err(SinkFault::NoMemory),
    }
}

fn missing_text(alloc: Global, path: &Text) -> Result<Vec<u8>, NoMemory>
    ensures { IfOk result (λ text. text.items ≡ missing_text path.now) }
{
    let mut text = Vec::from_slice(alloc, b"cannot load such file -- ")?;
    text.extend_from_slice(path.as_slice())?;
    text.extend_from_slice(b" (LoadError)\n")?;
    Ok(text)
}

/// Writes that the text of the file at the path has a syntax error in the line with this number.
#[tactic(auto, using(bs_outside::proofs::Owing::none_came))]
pub fn say_syntax<O: Sink>(
    alloc: Global,
    err: &mut O,
    path: &Text,
    line: u64,
) -> Result<(), SinkFault>
    ensures ok { OnOk result (O.taken err.new ≡ added (O.taken err.old) (syntax_text path.now line)) }
    ensures err { OnErr result (AddsPrefix (O.taken err.old) (O.taken err.new) (syntax_text path.now line)) }
    ensures counted { O.faults err.old ≤ O.faults err.new }
    ensures failed { IsErrOf result SinkFault.Failed → Rose (O.faults err.old) (O.faults err.new) }
{
    match syntax_text(alloc, path, line) {
        Ok(text) => put_all(alloc, err, &text),
        Err(_) => Err(SinkFault::NoMemory),
    }
}

fn syntax_text(alloc: Global, path: &Text, line: u64) -> Result<Vec<u8>, NoMemory>
    ensures { IfOk result (λ text. text.items ≡ syntax_text path.now line) }
{
    let mut text = Vec::from_slice(alloc, path.as_slice())?;
    let place = format!(in alloc; ":{line}: syntax error (SyntaxError)\n")?;
    text.extend_from_slice(place.as_bytes())?;
    Ok(text)
}

/// Writes which word is bad.
#[tactic(auto, using(bs_outside::proofs::Owing::none_came))]
pub fn say_usage<O: Sink>(alloc: Global, err: &mut O, place: u64) -> Result<(), SinkFault>
    ensures ok { OnOk result (O.taken err.new ≡ added (O.taken err.old) (usage_text place)) }
    ensures err { OnErr result (AddsPrefix (O.taken err.old) (O.taken err.new) (usage_text place)) }
    ensures counted { O.faults err.old ≤ O.faults err.new }
    ensures failed { IsErrOf result SinkFault.Failed → Rose (O.faults err.old) (O.faults err.new) }
{
    match usage_text(alloc, place) {
        Ok(text) => put_all(alloc, err, text.as_bytes()),
        Err(_) => Err(SinkFault::NoMemory),
    }
}

fn usage_text(alloc: Global, place: u64) -> Result<String, NoMemory>
    ensures { IfOk result (λ text. string_bytes text ≡ usage_text place) }
{
    format!(in alloc; "bootsnap: word {place}\n")
}

/// Writes that a sum in the line with this number is out of range.
#[tactic(auto, using(bs_outside::proofs::Owing::none_came))]
pub fn say_out_of_range<O: Sink>(
    alloc: Global,
    err: &mut O,
    path: &Text,
    number: u64,
) -> Result<(), SinkFault>
    ensures ok { OnOk result (O.taken err.new ≡ added (O.taken err.old) (out_of_range path.now number)) }
    ensures err { OnErr result (AddsPrefix (O.taken err.old) (O.taken err.new) (out_of_range path.now number)) }
    ensures counted { O.faults err.old ≤ O.faults err.new }
    ensures failed { IsErrOf result SinkFault.Failed → Rose (O.faults err.old) (O.faults err.new) }
{
    match out_of_range(alloc, path, number) {
        Ok(text) => put_all(alloc, err, &text),
        Err(_) => Err(SinkFault::NoMemory),
    }
}

fn out_of_range(alloc: Global, path: &Text, number: u64) -> Result<Vec<u8>, NoMemory>
    ensures { IfOk result (λ text. text.items ≡ out_of_range path.now number) }
{
    let mut text = Vec::from_slice(alloc, path.as_slice())?;
    let place = format!(in alloc; ":{number}: integer out of range (RangeError)\n")?;
    text.extend_from_slice(place.as_bytes())?;
    Ok(text)
}
