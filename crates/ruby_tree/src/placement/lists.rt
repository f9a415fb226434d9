//! The first fault in the lists of a node, each of which is one loop.
ghost use Rattle.std.specs.Prelude.{◌≡◌, IfOk};
ghost use Rattle.ruby_tree.specs.Tree.{no_piece, no_param};
ghost use Rattle.ruby_tree.specs.Placement.{trees_faults, other_faults, pairs_faults, pieces_faults, whens_faults, rescues_faults, params_faults};
ghost use Rattle.ruby_tree.specs.FirstFault.{around_of, first_of};
ghost use Rattle.ruby_tree.specs.Views.{read_all, read_other, read_pairs, read_part, read_parts, read_whens, read_clauses, read_param, read_params};

use super::Walk;
use crate::surroundings::{Misplaced, earlier};
use crate::{Name, Node, Param, TextPart};
use bs_outside::NoMemory;

#[tactic(auto, using(crate::proofs::FirstFaults::walked, std::proofs::lemmas::Grind::common_steps))]
impl<'a> Walk<'a> {
    /// In several trees.
    #[cycle(placement)]
    pub(super) fn trees(&self, nodes: &[Node]) -> Result<Option<Misplaced>, NoMemory>
        ensures { IfOk result (λ fault. fault ≡ first_of (trees_faults (around_of self.now.around) (read_all self.now.symbols.now nodes.now))) }
    {
        let mut found = None;
        for node in nodes {
            found = earlier(found, self.tree(node)?);
        }
        Ok(found)
    }

    /// In a part that may be missing.
    #[cycle(placement)]
    pub(super) fn other(&self, node: &Option<Box<Node>>) -> Result<Option<Misplaced>, NoMemory>
        ensures { IfOk result (λ fault. fault ≡ first_of (other_faults (around_of self.now.around) (read_other self.now.symbols.now node.now))) }
    {
        match node {
            Some(node) => self.tree(node),
            None => Ok(None),
        }
    }

    /// In the keys and values of a hash.
    #[cycle(placement)]
    pub(super) fn pairs(&self, pairs: &[(Node, Node)]) -> Result<Option<Misplaced>, NoMemory>
        ensures { IfOk result (λ fault. fault ≡ first_of (pairs_faults (around_of self.now.around) (read_pairs self.now.symbols.now pairs.now))) }
    {
        let mut found = None;
        for pair in pairs {
            let one = earlier(self.tree(&pair.0)?, self.tree(&pair.1)?);
            found = earlier(found, one);
        }
        Ok(found)
    }

    /// In the parts of a text.
    #[cycle(placement)]
    pub(super) fn parts(&self, parts: &[TextPart<Node>]) -> Result<Option<Misplaced>, NoMemory>
        ensures { IfOk result (λ fault. fault ≡ first_of (pieces_faults (around_of self.now.around) (read_parts self.now.symbols.now parts.now))) }
    {
        let mut found = None;
        for part in parts {
            found = earlier(found, self.part(part)?);
        }
        Ok(found)
    }

    /// In a part of a text.
    #[cycle(placement)]
    pub(super) fn part(&self, part: &TextPart<Node>) -> Result<Option<Misplaced>, NoMemory>
        ensures { IfOk result (λ fault. fault ≡ first_of (pieces_faults (around_of self.now.around) (read_part self.now.symbols.now part.now no_piece))) }
    {
        match part {
            TextPart::Plain(_) => Ok(None),
            TextPart::Code(node) => self.tree(node),
        }
    }

    /// In what a case is compared with, and the bodies.
    #[cycle(placement)]
    pub(super) fn whens(&self, whens: &[(Vec<Node>, Node)]) -> Result<Option<Misplaced>, NoMemory>
        ensures { IfOk result (λ fault. fault ≡ first_of (whens_faults (around_of self.now.around) (read_whens self.now.symbols.now whens.now))) }
    {
        let mut found = None;
        for when in whens {
            let one = earlier(self.trees(&when.0)?, self.tree(&when.1)?);
            found = earlier(found, one);
        }
        Ok(found)
    }

    /// In the classes of rescue clauses, and the bodies.
    #[cycle(placement)]
    pub(super) fn clauses(
        &self,
        clauses: &[(Vec<Node>, Option<Name>, Node)],
    ) -> Result<Option<Misplaced>, NoMemory>
        ensures { IfOk result (λ fault. fault ≡ first_of (rescues_faults (around_of self.now.around) (read_clauses self.now.symbols.now clauses.now))) }
    {
        let mut found = None;
        for clause in clauses {
            let one = earlier(self.trees(&clause.0)?, self.tree(&clause.2)?);
            found = earlier(found, one);
        }
        Ok(found)
    }

    /// In what the parameters are where no argument is given.
    #[cycle(placement)]
    pub(super) fn params(&self, params: &[Param<Node>]) -> Result<Option<Misplaced>, NoMemory>
        ensures { IfOk result (λ fault. fault ≡ first_of (params_faults (around_of self.now.around) (read_params self.now.symbols.now params.now))) }
    {
        let mut found = None;
        for param in params {
            found = earlier(found, self.param(param)?);
        }
        Ok(found)
    }

    /// In a parameter.
    #[cycle(placement)]
    pub(super) fn param(&self, param: &Param<Node>) -> Result<Option<Misplaced>, NoMemory>
        ensures { IfOk result (λ fault. fault ≡ first_of (params_faults (around_of self.now.around) (read_param self.now.symbols.now param.now no_param))) }
    {
        match param {
            Param::Optional(_, node) => self.tree(node),
            Param::Required(_) => Ok(None),
            Param::Rest(_) => Ok(None),
            Param::Block(_) => Ok(None),
        }
    }
}
