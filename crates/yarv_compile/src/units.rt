//! The unit that is made of the sequences that are done.
ghost use Rattle.std.specs.Prelude.{◌≡◌, ◌∷◌, ◌++◌, [], length, IfOk, OnOk};
ghost use Rattle.yarv_compile.specs.Finishing.{row_of, unit_from};

use bs_outside::{Items, NoMemory, Text};
use iseq_types::{IndexRow, SeqKind, Sequence, Unit};
use std::alloc::Global;

/// A sequence that is compiled.
#[derive(Drop)]
pub(crate) struct Finished {
    /// The place of its first token.
    pub place: u64,
    pub kind: SeqKind,
    /// The number of the sequence around it.
    pub parent: usize,
    pub body: Sequence,
}

/// The unit of a file's own sequence and of those in it, which stand in their order.
pub(crate) fn unit(
    alloc: Global,
    path: &Text,
    own: Finished,
    done: Vec<Finished>,
) -> Result<Unit, NoMemory>
    ensures { IfOk result (λ unit. unit ≡ unit_from path.now (own ∷ done.items)) }
{
    let path = path.copy(alloc)?;
    let mut rows = Items::new(alloc);
    let mut bodies = Items::new(alloc);
    add(&mut rows, &mut bodies, own)?;
    for finished in done {
        add(&mut rows, &mut bodies, finished)?;
    }
    Ok(Unit { path, rows, bodies })
}

/// Adds the row and the body of a sequence.
fn add(
    rows: &mut Items<IndexRow>,
    bodies: &mut Items<Sequence>,
    finished: Finished,
) -> Result<(), NoMemory>
    ensures rows { OnOk result (rows.new ≡ rows.old ++ row_of finished ∷ []) }
    ensures bodies { OnOk result (bodies.new ≡ bodies.old ++ finished.body ∷ []) }
{
    rows.push(IndexRow {
        kind: finished.kind,
        parent: finished.parent,
        locals: finished.body.locals.len() as u64,
    })?;
    bodies.push(finished.body)
}
