//! The bodies of methods, classes, modules and blocks, and that of a file.
ghost use Rattle.std.specs.Prelude.{◌≡◌, ℕ, ◌+◌, ◌++◌, length, reverse, OnOk, IfOk};
ghost use Rattle.ruby_tree.specs.Tree.{Params, no_param, optional};
ghost use Rattle.ruby_tree.specs.Read.{tree_of, text_of_name};
ghost use Rattle.ruby_tree.specs.Views.{read_param, read_params};
ghost use Rattle.iseq_types.specs.declared.instructions.Instr.TheVariants.{Leave};
ghost use Rattle.code_meaning.specs.Code.{op, done, part, size};
ghost use Rattle.compile_table.specs.Shapes.{shape, params_shape};
ghost use Rattle.code_emitter.specs.Children.{direct, params_direct};
ghost use Rattle.code_emitter.specs.Emitting.{where_of, texts_of, written, Writes, Finds};
ghost use Rattle.emit_bodies.specs.Entries.{starts};

use bs_outside::NoMemory;
use code_emitter::{Emitter, Nodes, Output};
use iseq_types::Instr;
use ruby_tree::{Name, Node, Param};

/// Writes the code of a body with parameters, and answers where it begins: how many instructions
/// stand behind it with none of the optional ones given, with one, up to all.
#[tactic(auto, using(crate::proofs::ParamSteps::params_seam))]
pub fn definition_body<'a, N: Nodes<'a>>(
    emitter: &Emitter<'_, 'a>,
    below: &N,
    params: &'a [Param<Node>],
    tree: &'a Node,
    out: &mut Output<'a>,
) -> Result<Vec<u64>, NoMemory>
    requires { N.IsReady below.now }
    ensures code { OnOk result (Writes emitter.now.depth (params_shape (where_of emitter.now) (read_params (texts_of emitter.now) params.now) (part 0 (shape (where_of emitter.now) (tree_of (texts_of emitter.now) tree.now)) (op emitter.now.first Leave done))) out.old out.new) }
    ensures children { OnOk result (Finds (texts_of emitter.now) (direct emitter.now.in_loop (tree_of (texts_of emitter.now) tree.now) ++ params_direct emitter.now.in_loop (read_params (texts_of emitter.now) params.now)) out.old out.new) }
    ensures starts { IfOk result (λ places. places.items ≡ starts (where_of emitter.now) (length (written out.old).steps + size (shape (where_of emitter.now) (tree_of (texts_of emitter.now) tree.now)) + 1) (read_params (texts_of emitter.now) params.now)) }
{
    file_body(emitter, below, tree, out)?;
    optionals(emitter, below, params, out)
}

/// Writes the code of a body without parameters, such as that of a file.
pub fn file_body<'a, N: Nodes<'a>>(
    emitter: &Emitter<'_, 'a>,
    below: &N,
    tree: &'a Node,
    out: &mut Output<'a>,
) -> Result<(), NoMemory>
    requires { N.IsReady below.now }
    ensures code { OnOk result (Writes emitter.now.depth (part 0 (shape (where_of emitter.now) (tree_of (texts_of emitter.now) tree.now)) (op emitter.now.first Leave done)) out.old out.new) }
    ensures children { OnOk result (Finds (texts_of emitter.now) (direct emitter.now.in_loop (tree_of (texts_of emitter.now) tree.now)) out.old out.new) }
{
    out.code.write(emitter.first, Instr::Leave)?;
    below.node(emitter, 0, tree, out)
}

/// Writes the code of the parameters that may be left out, and answers where a body with them
/// begins.
fn optionals<'a, N: Nodes<'a>>(
    emitter: &Emitter<'_, 'a>,
    below: &N,
    params: &'a [Param<Node>],
    out: &mut Output<'a>,
) -> Result<Vec<u64>, NoMemory>
    requires { N.IsReady below.now }
    ensures code { OnOk result (Writes emitter.now.depth (params_shape (where_of emitter.now) (read_params (texts_of emitter.now) params.now) done) out.old out.new) }
    ensures children { OnOk result (Finds (texts_of emitter.now) (params_direct emitter.now.in_loop (read_params (texts_of emitter.now) params.now)) out.old out.new) }
    ensures starts { IfOk result (λ places. places.items ≡ starts (where_of emitter.now) (length (written out.old).steps) (read_params (texts_of emitter.now) params.now)) }
{
    let mut starts = Vec::new(emitter.alloc);
    starts.push(out.code.len())?;
    for i in (0..params.len()).rev() {
        parameter(emitter, below, &params[i], &mut starts, out)?;
    }
    starts.reverse();
    Ok(starts)
}

/// Writes the code of a parameter, where it may be left out, and notes that a body begins there.
fn parameter<'a, N: Nodes<'a>>(
    emitter: &Emitter<'_, 'a>,
    below: &N,
    param: &'a Param<Node>,
    places: &mut Vec<u64>,
    out: &mut Output<'a>,
) -> Result<(), NoMemory>
    requires { N.IsReady below.now }
    ensures code { OnOk result (Writes emitter.now.depth (params_shape (where_of emitter.now) (read_param (texts_of emitter.now) param.now no_param) done) out.old out.new) }
    ensures children { OnOk result (Finds (texts_of emitter.now) (params_direct emitter.now.in_loop (read_param (texts_of emitter.now) param.now no_param)) out.old out.new) }
    ensures places { (n : ℕ) (params : Params) → OnOk result (places.old.items ≡ reverse (starts (where_of emitter.now) n params) → length (written out.old).steps ≡ size (params_shape (where_of emitter.now) params done) + n → places.new.items ≡ reverse (starts (where_of emitter.now) n (read_param (texts_of emitter.now) param.now params))) }
{
    match param {
        Param::Required(_) => Ok(()),
        Param::Optional(name, tree) => {
            default_value(emitter, below, *name, tree, out)?;
            places.push(out.code.len())?;
            Ok(())
        }
        Param::Rest(_) => Ok(()),
        Param::Block(_) => Ok(()),
    }
}

/// Writes the code that gives a parameter what it is where no argument is given.
fn default_value<'a, N: Nodes<'a>>(
    emitter: &Emitter<'_, 'a>,
    below: &N,
    name: Name,
    tree: &'a Node,
    out: &mut Output<'a>,
) -> Result<(), NoMemory>
    requires { N.IsReady below.now }
    ensures code { OnOk result (Writes emitter.now.depth (params_shape (where_of emitter.now) (optional (text_of_name (texts_of emitter.now) name) (tree_of (texts_of emitter.now) tree.now) no_param) done) out.old out.new) }
    ensures children { OnOk result (Finds (texts_of emitter.now) (direct emitter.now.in_loop (tree_of (texts_of emitter.now) tree.now)) out.old out.new) }
{
    out.code.write(emitter.first, emitter.set_local(name))?;
    below.node(emitter, 0, tree, out)
}
