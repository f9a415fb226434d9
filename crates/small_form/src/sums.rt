//! Sums.
ghost use Rattle.std.specs.Prelude.{◌≡◌, ◌∷◌, [], ◌++◌, Some, IfOk};
ghost use Rattle.ruby_tree.specs.Read.{tree_of, text_of_name};
ghost use Rattle.ruby_tree.specs.Views.{read_all, read_other};
ghost use Rattle.small_form.specs.SmallForm.{alone, is_plain, only_operand, operand_of, operator_of, short_sum, sum_of, with_term};

use crate::operands::operator_of;
use crate::sites::Site;
use crate::{OPERAND_LIMIT, Operand, Sum, Term};
use bs_outside::{Items, NoMemory};
use ruby_tree::{Call, Kind, Name, Node};

#[tactic(auto, using(crate::proofs::Nodes::sums, std::proofs::lemmas::Grind::common_steps))]
impl<'a> Site<'a> {
    /// The sum that the node is, if it has at most a hundred operands.
    pub fn short_sum(&self, node: &Node) -> Result<Option<Sum>, NoMemory>
        ensures { IfOk result (λ sum. sum ≡ short_sum (sum_of self.now.line self.now.names.now (tree_of self.now.symbols.now node.now))) }
    {
        match self.sum(node)? {
            Some(sum) => Ok(if_short(sum)),
            None => Ok(None),
        }
    }

    /// The sum that the node is, of as many operands as it has.
    fn sum(&self, node: &Node) -> Result<Option<Sum>, NoMemory>
        ensures { IfOk result (λ sum. sum ≡ sum_of self.now.line self.now.names.now (tree_of self.now.symbols.now node.now)) }
    {
        match &node.kind {
            Kind::Call(call) => match call {
                Call::Send(receiver, arguments, spread, value, name, alone, block) => {
                    let Some(receiver) = receiver else {
                        return Ok(None);
                    };
                    if !self.has(node) {
                        return Ok(None);
                    }
                    if !self.is_plain(spread, value, *alone, block) {
                        return Ok(None);
                    }
                    match self.sum(receiver)? {
                        Some(sum) => self.with_term(sum, *name, arguments),
                        None => Ok(None),
                    }
                }
                Call::SafeSend(_, _, _, _, _, _) => Ok(None),
                Call::Yield(_, _) => Ok(None),
                Call::Super(_, _, _, _) => Ok(None),
                Call::BareSuper(_) => Ok(None),
                Call::BareRaise => Ok(None),
            },
            Kind::Literal(_) => self.alone(node),
            Kind::Variable(_) => self.alone(node),
            Kind::Collection(_) => self.alone(node),
            Kind::Assignment(_) => self.alone(node),
            Kind::Control(_) => self.alone(node),
            Kind::Exit(_) => self.alone(node),
            Kind::Handler(_) => self.alone(node),
            Kind::Definition(_) => self.alone(node),
        }
    }

    /// The sum of one operand.
    fn alone(&self, node: &Node) -> Result<Option<Sum>, NoMemory>
        ensures { IfOk result (λ sum. sum ≡ alone (operand_of self.now.line self.now.names.now (tree_of self.now.symbols.now node.now))) }
    {
        match self.operand(node)? {
            Some(first) => Ok(Some(Sum {
                first,
                rest: Items::new(self.alloc),
            })),
            None => Ok(None),
        }
    }

    /// The sum with one more term: the operator of this name, and the operand that is the only argument.
    fn with_term(&self, sum: Sum, name: Name, arguments: &[Node]) -> Result<Option<Sum>, NoMemory>
        ensures { let sent = operator_of (text_of_name self.now.symbols.now name) in
            let given = only_operand self.now.line self.now.names.now (read_all self.now.symbols.now arguments.now) in
            IfOk result (λ longer. longer ≡ with_term (Some sum) sent given) }
    {
        let Some(operator) = operator_of(self.symbols.text(name)) else {
            return Ok(None);
        };
        match self.only_operand(arguments)? {
            Some(operand) => Ok(Some(pushed(sum, Term { operator, operand })?)),
            None => Ok(None),
        }
    }
}

/// The sum with one more term.
fn pushed(mut sum: Sum, term: Term) -> Result<Sum, NoMemory>
    ensures { IfOk result (λ longer. longer ≡ record { first = sum.first; rest = sum.rest ++ term ∷ [] }) }
{
    sum.rest.push(term)?;
    Ok(sum)
}

/// The sum, if it has at most a hundred operands.
fn if_short(sum: Sum) -> Option<Sum>
    ensures { result ≡ short_sum (Some sum) }
{
    if sum.rest.len() < OPERAND_LIMIT {
        Some(sum)
    } else {
        None
    }
}
