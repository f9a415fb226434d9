//! The parameters of the innermost body, which a bare `super` hands on.
ghost use Rattle.std.specs.Prelude.{◌≡◌, OnOk};
ghost use Rattle.ruby_tree.specs.FirstFault.{param_name};
ghost use Rattle.ruby_tree.specs.Read.{text_of_name};
ghost use Rattle.ruby_tree.specs.Views.{read_params};
ghost use Rattle.ruby_meaning.specs.Locals.{names_of_params};
ghost use Rattle.code_meaning.specs.Code.{done};
ghost use Rattle.compile_table.specs.Shapes.{gets, get_local};
ghost use Rattle.local_scopes.specs.Opened.{innermost_texts};
ghost use Rattle.code_emitter.specs.Emitting.{where_of, written, Writes};

use bs_outside::NoMemory;
use code_emitter::{Emitter, Output};
use iseq_types::Instr;
use ruby_tree::{Name, Node, Param};

/// Writes the code that reads the parameters.
#[tactic(auto, using(crate::proofs::Forms::first_name))]
pub(crate) fn get_params<'a>(
    emitter: &Emitter<'_, 'a>,
    line: u64,
    params: &[Param<Node>],
    out: &mut Output<'a>,
) -> Result<(), NoMemory>
    ensures code { OnOk result (Writes emitter.now.depth (gets (where_of emitter.now) line (names_of_params (read_params (innermost_texts emitter.now.scopes.now) params.now)) done) out.old out.new) }
    ensures children { OnOk result (out.new.children ≡ out.old.children) }
{
    for i in (0..params.len()).rev() {
        let instr = get_param(emitter, &params[i]);
        out.code.write(line, instr)?;
    }
    Ok(())
}

/// Reads a parameter.
fn get_param(emitter: &Emitter<'_, '_>, param: &Param<Node>) -> Instr
    ensures { result ≡ get_local (where_of emitter.now) (text_of_name (innermost_texts emitter.now.scopes.now) (param_name param.now)) }
{
    let text = emitter.scopes.text(name_of(param));
    let local = emitter.scopes.find(text);
    Instr::GetLocal(local.slot as u64, local.level as u64)
}

/// The name of a parameter.
fn name_of(param: &Param<Node>) -> Name
    ensures { result ≡ param_name param.now }
{
    match param {
        Param::Required(name) => *name,
        Param::Optional(name, _) => *name,
        Param::Rest(name) => *name,
        Param::Block(name) => *name,
    }
}
