//! The check that locals exist.
ghost use Rattle.std.specs.Prelude.{◌↔◌, ◌<◌, IsTrue, All, length};
ghost use Rattle.iseq_types.specs.Homes.{AreEnvironments};
ghost use Rattle.iseq_types.specs.Index.{AreIndexRows};
ghost use Rattle.iseq_types.specs.Sound.{FindsLocal};

use crate::{Environments, IndexRow, Instr, Line};

/// Whether the local of an instruction that has one exists.
fn local_exists(instr: &Instr, rows: &[IndexRow], environments: &Environments, id: usize) -> bool
    requires below { id < length rows.now }
    requires index { AreIndexRows rows.now }
    requires environments { AreEnvironments rows.now environments.now }
    ensures { IsTrue result ↔ FindsLocal rows.now id instr.now }
{
    match instr {
        Instr::GetLocal(slot, level) | Instr::SetLocal(slot, level) => {
            environments.has_local(rows, id, *slot, *level)
        }
        _ => true,
    }
}

/// Whether each local that the code reads or writes exists.
pub(crate) fn locals_exist(
    code: &[Line],
    rows: &[IndexRow],
    environments: &Environments,
    id: usize,
) -> bool
    requires below { id < length rows.now }
    requires index { AreIndexRows rows.now }
    requires environments { AreEnvironments rows.now environments.now }
    ensures { IsTrue result ↔ All (λ line. FindsLocal rows.now id line.instr) code.now }
{
    for line in code {
        if !local_exists(&line.instr, rows, environments, id) {
            return false;
        }
    }
    true
}
