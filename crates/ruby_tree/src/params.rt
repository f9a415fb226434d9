//! The names in a list of parameters, and whether all of it is required.
ghost use Rattle.std.specs.Prelude.{◌≡◌, IfOk};
ghost use Rattle.ruby_tree.specs.FirstFault.{param_name};
ghost use Rattle.ruby_tree.specs.Names.{Texts};
ghost use Rattle.ruby_tree.specs.Placement.{are_required, names_of, stands_twice};
ghost use Rattle.ruby_tree.specs.Tree.{no_param};
ghost use Rattle.ruby_tree.specs.Views.{read_param, read_params};

use crate::{Name, Node, Param, SymbolTable};
use bs_outside::NoMemory;
use indexmap::IndexSet;
use std::alloc::Global;

/// Whether two of the parameters have one name.
pub fn stands_twice(
    alloc: Global,
    symbols: &SymbolTable,
    params: &[Param<Node>],
) -> Result<bool, NoMemory>
    ensures { IfOk result (λ twice. twice ≡ stands_twice (names_of (read_params symbols.now params.now))) }
{
    let mut seen = IndexSet::new(alloc);
    for param in params {
        if !seen.insert(symbols.text(name_of(param)))? {
            return Ok(true);
        }
    }
    Ok(false)
}

/// The name of a parameter.
fn name_of(param: &Param<Node>) -> Name
    ensures { result ≡ param_name param.now }
{
    match param {
        Param::Required(name) => *name,
        Param::Optional(name, _) => *name,
        Param::Rest(name) => *name,
        Param::Block(name) => *name,
    }
}

/// Whether each parameter is a required one.
pub fn are_required(params: &[Param<Node>]) -> bool
    ensures { (texts : Texts) → result ≡ are_required (read_params texts params.now) }
{
    for param in params {
        if !is_required(param) {
            return false;
        }
    }
    true
}

fn is_required(param: &Param<Node>) -> bool
    ensures { (texts : Texts) → result ≡ are_required (read_param texts param.now no_param) }
{
    match param {
        Param::Required(_) => true,
        Param::Optional(_, _) => false,
        Param::Rest(_) => false,
        Param::Block(_) => false,
    }
}
