//! Integers.
ghost use Rattle.std.specs.Prelude.{◌≡◌};
ghost use Rattle.bootsnap_top.specs.SmallRun.{applied, in_range};

use small_form::Operator;

/// The total with the value added to it or taken from it, where that is an Integer.
#[tactic(auto, using(crate::proofs::Integers::checked))]
pub fn applied(operator: Operator, total: i64, value: i64) -> Option<i64>
    ensures { result ≡ in_range (applied operator total value) }
{
    match operator {
        Operator::Plus => total.checked_add(value),
        Operator::Minus => total.checked_sub(value),
    }
}
