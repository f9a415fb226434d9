//! The first fault in methods, classes and bodies.
ghost use Rattle.std.specs.Prelude.{◌≡◌, IfOk};
ghost use Rattle.ruby_tree.specs.Placement.{form_faults, method_faults, body_faults};
ghost use Rattle.ruby_tree.specs.FirstFault.{around_of, first_of};
ghost use Rattle.ruby_tree.specs.Read.{tree_of};
ghost use Rattle.ruby_tree.specs.Views.{read_kind, read_definition};

use super::Walk;
use crate::params::are_required;
use crate::surroundings::{Home, Misplaced, earlier};
use crate::{Definition, Kind, Node};
use bs_outside::NoMemory;

#[tactic(auto, using(crate::proofs::FirstFaults::walked, std::proofs::lemmas::Grind::common_steps))]
impl<'a> Walk<'a> {
    /// In the body.
    #[cycle(placement)]
    pub(super) fn definition(
        &self,
        definition: &Definition<Node>,
    ) -> Result<Option<Misplaced>, NoMemory>
        ensures { IfOk result (λ fault. fault ≡ first_of (form_faults (around_of self.now.around) (read_definition self.now.symbols.now definition.now))) }
    {
        match definition {
            Definition::Method(_, body, _) => self.method(body),
            Definition::Class(superclass, _, body) => {
                let before = self.other(superclass)?;
                Ok(earlier(before, self.at_home(Home::Class).tree(body)?))
            }
            Definition::Module(_, body) => self.at_home(Home::Class).tree(body),
            Definition::Body(params, body) => {
                Ok(earlier(self.params(params)?, self.tree(body)?))
            }
        }
    }

    /// In the body of a method.
    #[cycle(placement)]
    fn method(&self, node: &Node) -> Result<Option<Misplaced>, NoMemory>
        ensures { IfOk result (λ fault. fault ≡ first_of (method_faults (tree_of self.now.symbols.now node.now))) }
    {
        let own = self.at_home(Home::File).own(node)?;
        let inner = self.method_kind(&node.kind)?;
        Ok(earlier(own, inner))
    }

    /// In the parts of the body of a method.
    #[cycle(placement)]
    fn method_kind(&self, kind: &Kind<Node>) -> Result<Option<Misplaced>, NoMemory>
        ensures { IfOk result (λ fault. fault ≡ first_of (body_faults (read_kind self.now.symbols.now kind.now))) }
    {
        match kind {
            Kind::Definition(definition) => self.method_body(definition),
            Kind::Literal(_) => Ok(None),
            Kind::Variable(_) => Ok(None),
            Kind::Collection(_) => Ok(None),
            Kind::Assignment(_) => Ok(None),
            Kind::Call(_) => Ok(None),
            Kind::Control(_) => Ok(None),
            Kind::Exit(_) => Ok(None),
            Kind::Handler(_) => Ok(None),
        }
    }

    /// In the parameters and the statements of a method, whose home is the method.
    #[cycle(placement)]
    fn method_body(&self, definition: &Definition<Node>) -> Result<Option<Misplaced>, NoMemory>
        ensures { IfOk result (λ fault. fault ≡ first_of (body_faults (read_definition self.now.symbols.now definition.now))) }
    {
        match definition {
            Definition::Body(params, body) => {
                let inside = self.at_home(Home::Method(are_required(params)));
                Ok(earlier(inside.params(params)?, inside.tree(body)?))
            }
            Definition::Method(_, _, _) => Ok(None),
            Definition::Class(_, _, _) => Ok(None),
            Definition::Module(_, _) => Ok(None),
        }
    }
}
