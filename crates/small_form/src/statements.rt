//! Statements, each of which is a line.
ghost use Rattle.std.specs.Prelude.{◌≡◌, IfOk, OnOk, Some, None, codes};
ghost use Rattle.std.specs.List.{list_all};
ghost use Rattle.bs_outside.specs.Paths.{same_bytes};
ghost use Rattle.ruby_tree.specs.Read.{goal_of, tree_of};
ghost use Rattle.ruby_tree.specs.Views.{read_all};
ghost use Rattle.small_form.specs.SmallForm.{assigned, is_text_byte, line_of, names_after, only_put, put_of, short_sum, sum_of, text_line};

use crate::Line;
use crate::sites::{Names, Site};
use bs_outside::{NoMemory, Text};
use ruby_tree::{Assignment, Call, Kind, Literal, Node, Target};
use std::alloc::Global;

#[tactic(auto, using(crate::proofs::Only::only, crate::proofs::Nodes::puts, crate::proofs::Nodes::lines, std::proofs::lemmas::Grind::common_steps))]
impl<'a> Site<'a> {
    /// The line that the statement is.
    pub fn statement(&self, node: &Node) -> Result<Option<Line>, NoMemory>
        ensures { IfOk result (λ line. line ≡ line_of self.now.line self.now.names.now (tree_of self.now.symbols.now node.now)) }
    {
        if !self.has(node) {
            return Ok(None);
        }
        match &node.kind {
            Kind::Assignment(Assignment::Single(value, target)) => self.assigned(value, *target),
            Kind::Call(call) => match call {
                Call::Send(receiver, arguments, spread, value, name, alone, block) => {
                    if receiver.is_some() {
                        return Ok(None);
                    }
                    if !self.is_plain(spread, value, *alone, block) {
                        return Ok(None);
                    }
                    if !is_puts(self.symbols.text(*name)) {
                        return Ok(None);
                    }
                    self.only_put(arguments)
                }
                Call::SafeSend(_, _, _, _, _, _) => Ok(None),
                Call::Yield(_, _) => Ok(None),
                Call::Super(_, _, _, _) => Ok(None),
                Call::BareSuper(_) => Ok(None),
                Call::BareRaise => Ok(None),
            },
            Kind::Literal(_) => Ok(None),
            Kind::Variable(_) => Ok(None),
            Kind::Collection(_) => Ok(None),
            Kind::Assignment(_) => Ok(None),
            Kind::Control(_) => Ok(None),
            Kind::Exit(_) => Ok(None),
            Kind::Handler(_) => Ok(None),
            Kind::Definition(_) => Ok(None),
        }
    }

    /// `NAME = SUM`
    fn assigned(&self, value: &Node, target: Target) -> Result<Option<Line>, NoMemory>
        ensures { IfOk result (λ line. line ≡ assigned (goal_of self.now.symbols.now target) (short_sum (sum_of self.now.line self.now.names.now (tree_of self.now.symbols.now value.now)))) }
    {
        let Target::Local(name) = target else {
            return Ok(None);
        };
        match self.short_sum(value)? {
            Some(sum) => {
                let name = Text::new(self.alloc, self.symbols.text(name))?;
                Ok(Some(Line::Assign(name, sum)))
            }
            None => Ok(None),
        }
    }

    /// `puts` with these arguments.
    fn only_put(&self, arguments: &[Node]) -> Result<Option<Line>, NoMemory>
        ensures { IfOk result (λ line. line ≡ only_put self.now.line self.now.names.now (read_all self.now.symbols.now arguments.now)) }
    {
        match arguments {
            [only] => self.put(only),
            _ => Ok(None),
        }
    }

    /// `puts` with this argument: a sum or a text.
    #[tactic(auto, using(crate::proofs::Groups::put_by, std::proofs::lemmas::Grind::common_steps))]
    fn put(&self, node: &Node) -> Result<Option<Line>, NoMemory>
        ensures { IfOk result (λ line. line ≡ put_of self.now.line self.now.names.now (tree_of self.now.symbols.now node.now)) }
    {
        match self.short_sum(node)? {
            Some(sum) => Ok(Some(Line::PutsSum(sum))),
            None => self.put_text(node),
        }
    }

    /// `puts "TEXT"` with this argument.
    fn put_text(&self, node: &Node) -> Result<Option<Line>, NoMemory>
        ensures { IfOk result (λ line. line ≡ text_line self.now.line (tree_of self.now.symbols.now node.now)) }
    {
        match &node.kind {
            Kind::Literal(Literal::String(text)) => {
                if self.has(node) && all_text(text.as_slice()) {
                    Ok(Some(Line::PutsText(Text::new(self.alloc, text.as_slice())?)))
                } else {
                    Ok(None)
                }
            }
            Kind::Literal(_) => Ok(None),
            Kind::Variable(_) => Ok(None),
            Kind::Collection(_) => Ok(None),
            Kind::Assignment(_) => Ok(None),
            Kind::Call(_) => Ok(None),
            Kind::Control(_) => Ok(None),
            Kind::Exit(_) => Ok(None),
            Kind::Handler(_) => Ok(None),
            Kind::Definition(_) => Ok(None),
        }
    }
}

fn is_puts(name: &[u8]) -> bool
    ensures { result ≡ same_bytes name.now (codes "puts") }
{
    name == b"puts".as_slice()
}

fn is_text_byte(byte: u8) -> bool
    ensures { result ≡ is_text_byte byte }
{
    (byte >= b' ' && byte <= b'~') && byte != b'"' && byte != b'\\' && byte != b'#'
}

fn all_text(bytes: &[u8]) -> bool
    ensures { result ≡ list_all is_text_byte bytes.now }
{
    bytes.iter().all(|byte| is_text_byte(*byte))
}

/// Notes the name that the line assigns.
pub fn note_name(alloc: Global, names: &mut Names, line: &Line) -> Result<(), NoMemory>
    ensures { OnOk result (names.new ≡ names_after names.old (Some line.now)) }
{
    match line {
        Line::Assign(name, _) => names.insert(name.copy(alloc)?, ()),
        Line::Empty => Ok(()),
        Line::PutsSum(_) => Ok(()),
        Line::PutsText(_) => Ok(()),
    }
}
