//! The environments of the bodies that are open.
ghost use Rattle.std.specs.Prelude.{◌≡◌, ◌≤◌, ◌||◌, ◌++◌, not, map, length, reverse, IfOk, OnOk};
ghost use Rattle.std.specs.List.{IsDistinct};
ghost use Rattle.ruby_lexer.specs.Bytes.{is_in, same};
ghost use Rattle.ruby_tree.specs.Names.{Texts};
ghost use Rattle.ruby_tree.specs.FirstFault.{param_name};
ghost use Rattle.ruby_tree.specs.Read.{tree_of, text_of_name};
ghost use Rattle.ruby_tree.specs.Views.{read_kind, read_params, read_definition};
ghost use Rattle.ruby_meaning.specs.Locals.{params_of, params_in, names_of_params, without_names};
ghost use Rattle.ruby_meaning.specs.Levels.{level_of, slot_of};
ghost use Rattle.local_scopes.specs.Gathering.{gathered};
ghost use Rattle.local_scopes.specs.Opened.{sight, innermost_names, innermost_texts};
ghost use Rattle.local_scopes.specs.Environments.{IsRight, AreRight, open_of, visible, seen_names, seen_at, scopes_in, params_as};

use crate::gather::tree;
use crate::kinds::BodyKind;
use crate::known::Known;
use crate::locals::Locals;
use bs_outside::NoMemory;
use ruby_tree::{Definition, Kind, Name, Node, Param, SymbolTable};
use std::alloc::Global;

/// The environment of a body that is open.
#[derive(Drop)]
pub(crate) struct Environment<'a> {
    /// The names in the body.
    pub(crate) symbols: &'a SymbolTable,
    pub(crate) body: &'a Node,
    pub(crate) kind: BodyKind,
    /// How many of the names of the body around it a block sees.
    pub(crate) mark: usize,
    /// What is gathered of the body.
    pub(crate) known: Known<'a>,
    pub(crate) locals: Locals<'a>,
}

/// Where a local is found.
#[derive(Clone, Copy, Drop)]
pub struct Local {
    /// Its place in its environment, counted from 0.
    pub slot: usize,
    /// How many environments outward that one stands.
    pub level: usize,
}

/// The environment of a body, where these are open around it, the innermost last.
pub(crate) fn open_body<'a>(
    alloc: Global,
    symbols: &'a SymbolTable,
    body: &'a Node,
    kind: BodyKind,
    around: &[Environment<'a>],
) -> Result<Environment<'a>, NoMemory>
    requires { AreRight (reverse around.now) }
    ensures open { IfOk result (λ e. open_of e ≡ record { texts = symbols.now; node = body.now; kind = kind }) }
    ensures right { IfOk result (λ e. IsRight e (reverse around.now)) }
{
    let mark = mark_in(around, body.place);
    let mut known = Known::new(alloc);
    tree(symbols, &mut known, body)?;
    let mut locals = Locals::new(alloc);
    push_params(&mut locals, symbols, params_of(&body.kind))?;
    push_names(&mut locals, known.names(), seen_within(kind, around), mark)?;
    Ok(Environment {
        symbols,
        body,
        kind,
        mark,
        known,
        locals,
    })
}

/// How many of the names of the innermost body are known at a place.
fn mark_in(around: &[Environment], place: u64) -> usize
    ensures { seen_names result (reverse around.now) ≡ seen_at place (reverse around.now) }
{
    match around.split_last() {
        Some((environment, _)) => environment.known.known_at(place),
        None => 0,
    }
}

/// The parameters of a body: a file has none.
fn params_within(kind: BodyKind, body: &Node) -> &[Param<Node>]
    ensures { (texts : Texts) → names_of_params (read_params texts result.now) ≡ params_as kind (tree_of texts body.now) }
{
    match kind {
        BodyKind::File => &[],
        BodyKind::Home => params_of(&body.kind),
        BodyKind::Block => params_of(&body.kind),
    }
}

/// The parameters of a node that is a body.
fn params_of(kind: &Kind<Node>) -> &[Param<Node>]
    ensures { (texts : Texts) → read_params texts result.now ≡ params_in (read_kind texts kind.now) }
{
    match kind {
        Kind::Definition(definition) => params_of_definition(definition),
        Kind::Literal(_) => &[],
        Kind::Variable(_) => &[],
        Kind::Collection(_) => &[],
        Kind::Assignment(_) => &[],
        Kind::Call(_) => &[],
        Kind::Control(_) => &[],
        Kind::Exit(_) => &[],
        Kind::Handler(_) => &[],
    }
}

/// The parameters of a body.
fn params_of_definition(definition: &Definition<Node>) -> &[Param<Node>]
    ensures { (texts : Texts) → read_params texts result.now ≡ params_in (read_definition texts definition.now) }
{
    match definition {
        Definition::Body(params, _) => params,
        Definition::Method(_, _, _) => &[],
        Definition::Class(_, _, _) => &[],
        Definition::Module(_, _) => &[],
    }
}

/// Those of the environments around a body of this kind that are in sight within it.
fn seen_within<'e, 'a>(kind: BodyKind, around: &'e [Environment<'a>]) -> &'e [Environment<'a>]
    ensures visible { reverse result.now ≡ visible kind (reverse around.now) }
    ensures fewer { length result.now ≤ length around.now }
{
    match kind {
        BodyKind::Block => around,
        BodyKind::File => &[],
        BodyKind::Home => &[],
    }
}

/// The parameters are the first locals.
fn push_params<'a>(
    locals: &mut Locals<'a>,
    symbols: &'a SymbolTable,
    params: &[Param<Node>],
) -> Result<(), NoMemory>
    ensures { OnOk result (locals.new ≡ locals.old ++ names_of_params (read_params symbols.now params.now)) }
{
    for param in params {
        locals.push(symbols.text(name_of(param)))?;
    }
    Ok(())
}

/// Those of the names are locals too that are no parameters, and that the body does not see around it.
fn push_names<'a>(
    locals: &mut Locals<'a>,
    names: &[&'a [u8]],
    seen: &[Environment<'a>],
    mark: usize,
) -> Result<(), NoMemory>
    requires { IsDistinct same (map (λ name. name.now) names.now) }
    ensures { OnOk result (locals.new ≡ locals.old ++ without_names (locals.old ++ seen_names mark (reverse seen.now)) (map (λ name. name.now) names.now)) }
{
    for name in names {
        if is_new(locals, seen, mark, name) {
            locals.push(*name)?;
        }
    }
    Ok(())
}

/// Whether the name is none of these locals, and not seen around.
fn is_new(locals: &Locals, seen: &[Environment], mark: usize, name: &[u8]) -> bool
    ensures { result ≡ not (is_in name.now locals.now || is_in name.now (seen_names mark (reverse seen.now))) }
{
    !locals.contains(name) && !is_seen(seen, mark, name)
}

/// The name of a parameter.
fn name_of(param: &Param<Node>) -> Name
    ensures { result ≡ param_name param.now }
{
    match param {
        Param::Required(name) => *name,
        Param::Optional(name, _) => *name,
        Param::Rest(name) => *name,
        Param::Block(name) => *name,
    }
}

/// Whether a block sees the name that stands behind so many names of the innermost of these bodies.
fn is_seen(around: &[Environment], mark: usize, name: &[u8]) -> bool
    ensures { result ≡ is_in name.now (seen_names mark (reverse around.now)) }
{
    let mut rest = around;
    let mut count = mark;
    while let Some((environment, outer)) = rest.split_last() {
        if environment.known.is_among(name, count) {
            return true;
        }
        count = environment.mark;
        rest = seen_within(environment.kind, outer);
    }
    false
}

/// Where the name is found: in the innermost environment that has it.
pub(crate) fn find_in(around: &[Environment], name: &[u8]) -> Local
    ensures slot { result.slot ≡ slot_of name.now (scopes_in (reverse around.now)) }
    ensures level { result.level ≡ level_of name.now (scopes_in (reverse around.now)) }
{
    let mut rest = around;
    let mut level = 0;
    while let Some((environment, outer)) = rest.split_last() {
        if let Some(slot) = environment.locals.slot(name) {
            return Local { slot, level };
        }
        level += 1;
        rest = seen_within(environment.kind, outer);
    }
    Local { slot: 0, level }
}

/// The names of the innermost environment.
pub(crate) fn innermost_names<'e>(around: &'e [Environment<'e>]) -> &'e [&'e [u8]]
    ensures { map (λ name. name.now) result.now ≡ innermost_names (scopes_in (reverse around.now)) }
{
    let Some((environment, _)) = around.split_last() else {
        return &[];
    };
    environment.locals.names()
}

/// The parameters of the innermost body.
pub(crate) fn innermost_params<'a>(around: &[Environment<'a>]) -> &'a [Param<Node>]
    ensures { names_of_params (read_params (innermost_texts (map open_of (reverse around.now))) result.now) ≡ names_of_params (params_of (sight (map open_of (reverse around.now))).body) }
{
    match around.split_last() {
        Some((environment, _)) => params_within(environment.kind, environment.body),
        None => &[],
    }
}

/// The text of a name in the innermost body.
pub(crate) fn innermost_text<'a>(around: &[Environment<'a>], name: Name) -> &'a [u8]
    ensures { result.now ≡ text_of_name (innermost_texts (map open_of (reverse around.now))) name }
{
    match around.split_last() {
        Some((environment, _)) => environment.symbols.text(name),
        None => b"",
    }
}
