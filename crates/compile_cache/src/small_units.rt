//! Units of small files.
mod coding;
mod locals;

ghost use Rattle.std.specs.Prelude.{◌≡◌, IfOk};
ghost use Rattle.cache_meaning.specs.SmallUnit.{unit_of_program, file_sequence};

use bs_outside::{Items, NoMemory, Text};
use coding::file_code;
use iseq_types::{IndexRow, SeqKind, Sequence, Unit};
use locals::locals_of;
use small_form::{Line, SmallFile};
use std::alloc::Global;

/// The unit of the small file at the path.
pub fn unit_of(alloc: Global, path: &Text, file: &SmallFile) -> Result<Unit, NoMemory>
    ensures { IfOk result (λ unit. unit ≡ unit_of_program path.now file.now) }
{
    let body = file_sequence(alloc, file.lines.as_slice())?;
    let mut rows = Items::new(alloc);
    rows.push(IndexRow {
        kind: SeqKind::File,
        parent: 0,
        locals: body.locals.len() as u64,
    })?;
    let mut bodies = Items::new(alloc);
    bodies.push(body)?;
    Ok(Unit {
        path: path.copy(alloc)?,
        rows,
        bodies,
    })
}

/// The sequence of these lines.
fn file_sequence(alloc: Global, lines: &[Line]) -> Result<Sequence, NoMemory>
    ensures { IfOk result (λ body. body ≡ file_sequence lines.now) }
{
    let locals = locals_of(alloc, lines)?;
    let code = file_code(alloc, &locals, lines)?;
    Ok(Sequence {
        name: Text::from_vec(Vec::new(alloc)),
        first_line: 1,
        locals: locals.into_names(),
        required: 0,
        entries: Items::new(alloc),
        rest: false,
        block: false,
        rows: Items::new(alloc),
        code,
    })
}
