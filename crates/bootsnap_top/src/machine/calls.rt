//! The calls that the machine knows.
ghost use Rattle.std.specs.Prelude.{◌≡◌, ◌==◌, ◌&&◌, cond, length, codes};
ghost use Rattle.bs_outside.specs.Paths.{same_bytes};
ghost use Rattle.small_form.specs.SmallForm.{operator_of};
ghost use Rattle.bootsnap_top.specs.Machine.{call_of, operator_call};

use bs_outside::{Items, Text};
use small_form::Operator;

/// A call that the machine knows, or another.
#[derive(Clone, Copy)]
pub enum Call {
    /// An operator, sent to an Integer with another one.
    Apply(Operator),
    /// `puts` with one value, sent to self.
    Puts,
    Other,
}

/// The call of the method with this name: with so many arguments, those that are spread, flags, and a block's sequence.
pub fn call_of(name: &Text, count: u64, spread: &Items<u64>, flags: u64, block: u64) -> Call
    ensures { result ≡ call_of name.now count spread.now flags block }
{
    if count != 1 || spread.len() != 0 || block != 0 {
        return Call::Other;
    }
    if flags == 0 {
        return operator_call(name.as_slice());
    }
    if flags == 1 && name.as_slice() == b"puts".as_slice() {
        Call::Puts
    } else {
        Call::Other
    }
}

fn operator_call(name: &[u8]) -> Call
    ensures { result ≡ operator_call (operator_of name.now) }
{
    if name == b"+".as_slice() {
        Call::Apply(Operator::Plus)
    } else if name == b"-".as_slice() {
        Call::Apply(Operator::Minus)
    } else {
        Call::Other
    }
}
