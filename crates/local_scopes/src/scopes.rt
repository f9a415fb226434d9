//! Where the locals in sight are.
ghost use Rattle.std.specs.Prelude.{◌≡◌, List, [], ◌∷◌, map, drop, OnOk, OnErr, IfOk};
ghost use Rattle.ruby_tree.specs.Read.{tree_of, text_of_name};
ghost use Rattle.ruby_tree.specs.Views.{read_params};
ghost use Rattle.ruby_meaning.specs.Locals.{params_of, names_of_params};
ghost use Rattle.ruby_meaning.specs.Levels.{file_sight, body_sight, block_sight, level_of, slot_of};
ghost use Rattle.local_scopes.specs.Opened.{sights, sight, innermost_names, innermost_texts};

use crate::environments::{
    Environment, Local, find_in, innermost_names, innermost_params, innermost_text, open_body,
};
use crate::kinds::BodyKind;
use bs_outside::NoMemory;
use ruby_tree::{Name, Node, Param, SymbolTable};
use std::alloc::Global;
use std::marker::Model;

/// The environments of the bodies that are open around a place. Contracts see these bodies as a list, the innermost first: `sights`
/// says what is in sight within each.
///
/// Each environment has an index of its names, and no list of names is copied for a block.
#[derive(Drop)]
pub struct LocalScopes<'a> {
    /// The innermost last.
    open: Vec<Environment<'a>>,
}

impl<'a> Model for LocalScopes<'a> {
    ghost use Rattle.std.specs.Prelude.{List};
    ghost use Rattle.local_scopes.specs.Opened.{Open};
    ghost use Rattle.ruby_tree.specs.contracts.node.Node as node;
    ghost use Rattle.std.specs.Coded.{codes};

    ghost Value = { List Open };

    ghost coded = { Prim.hlevel (codes, node.the_row.coded) };

    ghost use Rattle.local_scopes.specs.Scoped.{opened, AreScopes};

    ghost view = { opened };

    ghost invariant = { AreScopes };
}

impl<'a> LocalScopes<'a> {
    /// Within a file, whose statements these are.
    pub fn in_file(
        alloc: Global,
        symbols: &'a SymbolTable,
        root: &'a Node,
    ) -> Result<LocalScopes<'a>, NoMemory>
        ensures { IfOk result (λ scopes. sights scopes ≡ file_sight (tree_of symbols.now root.now) ∷ []) }
    {
        let mut open = Vec::new(alloc);
        let file = open_body(alloc, symbols, root, BodyKind::File, &[])?;
        open.push(file)?;
        Ok(LocalScopes { open })
    }

    /// Goes into the body of a method, a class or a module.
    pub fn enter_body(
        &mut self,
        alloc: Global,
        symbols: &'a SymbolTable,
        body: &'a Node,
    ) -> Result<(), NoMemory>
        ensures opened { OnOk result (drop 1 self.new ≡ self.old) }
        ensures sight { OnOk result (sights self.new ≡ body_sight (tree_of symbols.now body.now) ∷ sights self.old) }
        ensures err { OnErr result (self.new ≡ self.old) }
    {
        let environment = open_body(alloc, symbols, body, BodyKind::Home, &self.open)?;
        self.open.push(environment)?;
        Ok(())
    }

    /// Goes into the body of a block that stands in the innermost body.
    pub fn enter_block(
        &mut self,
        alloc: Global,
        symbols: &'a SymbolTable,
        body: &'a Node,
    ) -> Result<(), NoMemory>
        ensures opened { OnOk result (drop 1 self.new ≡ self.old) }
        ensures sight { OnOk result (sights self.new ≡ block_sight (sight self.old) (tree_of symbols.now body.now) ∷ sights self.old) }
        ensures err { OnErr result (self.new ≡ self.old) }
    {
        let environment = open_body(alloc, symbols, body, BodyKind::Block, &self.open)?;
        self.open.push(environment)?;
        Ok(())
    }

    /// Leaves the innermost body.
    pub fn leave(&mut self)
        ensures { self.new ≡ drop 1 self.old }
    {
        let _ = self.open.pop();
    }

    /// Where the name is found: in the innermost environment in sight that has it. The level of a name that none has is their number,
    /// and its slot 0.
    pub fn find(&self, name: &[u8]) -> Local
        ensures slot { result.slot ≡ slot_of name.now (sight self.now).scopes }
        ensures level { result.level ≡ level_of name.now (sight self.now).scopes }
    {
        find_in(&self.open, name)
    }

    /// The names of the innermost environment, in the order of their slots.
    pub fn locals(&self) -> &[&[u8]]
        ensures { map (λ name. name.now) result.now ≡ innermost_names (sight self.now).scopes }
    {
        innermost_names(&self.open)
    }

    /// The parameters of the innermost body.
    pub fn params(&self) -> &'a [Param<Node>]
        ensures { names_of_params (read_params (innermost_texts self.now) result.now) ≡ names_of_params (params_of (sight self.now).body) }
    {
        innermost_params(&self.open)
    }

    /// The text of a name in the innermost body, which has no bytes where that has no such name.
    pub fn text(&self, name: Name) -> &'a [u8]
        ensures { result.now ≡ text_of_name (innermost_texts self.now) name }
    {
        innermost_text(&self.open, name)
    }
}
