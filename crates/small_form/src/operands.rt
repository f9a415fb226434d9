//! Operands and operators.
ghost use Rattle.std.specs.Prelude.{◌≡◌, cond, Some, None, IfOk};
ghost use Rattle.std.specs.FinMap as map;
ghost use Rattle.ruby_tree.specs.Read.{tree_of, text_of_name};
ghost use Rattle.ruby_tree.specs.Views.{read_all};
ghost use Rattle.small_form.specs.SmallForm.{number_by, operand_of, only_operand, operator_of};
ghost use Rattle.small_form.specs.declared.tree.Operand.TheVariants as operands;

use crate::sites::Site;
use crate::{Operand, Operator};
use bs_outside::{NoMemory, Text};
use ruby_tree::{Kind, Literal, Name, Node, Variable};

#[tactic(auto, using(crate::proofs::Only::only, crate::proofs::Nodes::operands, std::proofs::lemmas::Grind::common_steps))]
impl<'a> Site<'a> {
    /// The operand that the node is.
    pub fn operand(&self, node: &Node) -> Result<Option<Operand>, NoMemory>
        ensures { IfOk result (λ operand. operand ≡ operand_of self.now.line self.now.names.now (tree_of self.now.symbols.now node.now)) }
    {
        if !self.has(node) {
            return Ok(None);
        }
        match &node.kind {
            Kind::Literal(Literal::Integer(number)) => Ok(number_by(*number)),
            Kind::Variable(Variable::Local(name)) => self.known(*name),
            Kind::Literal(_) => Ok(None),
            Kind::Variable(_) => Ok(None),
            Kind::Collection(_) => Ok(None),
            Kind::Assignment(_) => Ok(None),
            Kind::Call(_) => Ok(None),
            Kind::Control(_) => Ok(None),
            Kind::Exit(_) => Ok(None),
            Kind::Handler(_) => Ok(None),
            Kind::Definition(_) => Ok(None),
        }
    }

    /// The operand that the name is, where an earlier line assigned it.
    fn known(&self, name: Name) -> Result<Option<Operand>, NoMemory>
        ensures { let text = text_of_name self.now.symbols.now name in
            IfOk result (λ operand. operand ≡ cond (map.contains_key self.now.names.now text) (Some (operands.Name text)) None) }
    {
        let text = Text::new(self.alloc, self.symbols.text(name))?;
        if self.names.get(&text).is_some() {
            Ok(Some(Operand::Name(text)))
        } else {
            Ok(None)
        }
    }

    /// The operand that is the only argument of a call.
    pub fn only_operand(&self, arguments: &[Node]) -> Result<Option<Operand>, NoMemory>
        ensures { IfOk result (λ operand. operand ≡ only_operand self.now.line self.now.names.now (read_all self.now.symbols.now arguments.now)) }
    {
        match arguments {
            [only] => self.operand(only),
            _ => Ok(None),
        }
    }
}

/// A number from 0 on.
fn number_by(number: i64) -> Option<Operand>
    ensures { result ≡ number_by number }
{
    if number >= 0 {
        Some(Operand::Number(number))
    } else {
        None
    }
}

/// The operator of this name.
pub fn operator_of(name: &[u8]) -> Option<Operator>
    ensures { result ≡ operator_of name.now }
{
    match name {
        b"+" => Some(Operator::Plus),
        b"-" => Some(Operator::Minus),
        _ => None,
    }
}
