//! How a call ends.
ghost use Rattle.std.specs.Prelude.{◌≡◌};
ghost use Rattle.bootsnap_top.specs.Endings.{status_of};

use bs_outside::Texts;

/// How a call ends.
#[derive(Drop, Debug)]
pub enum Ending {
    /// The program ended with this number, from 0 to 199: 1 where its file is missing or has a syntax error, or an exception ended it.
    Exit(u8),
    /// The word at this place, counted from 1, is bad.
    Usage(u64),
    /// The file's program is no small file, and cannot be run yet.
    NotYet,
    /// No turn was left.
    TurnsSpent,
    /// No cell was left.
    StoreFull,
    /// A tree failed.
    TreeFault,
    /// The input failed.
    InputFault,
    /// The output, the error text or the notes failed.
    SinkFault,
    /// Memory ran out.
    NoMemory,
}

/// How a call ended, and the features that were loaded.
#[derive(Drop, Debug)]
pub struct Done {
    pub ending: Ending,
    pub features: Texts,
}

/// The number that the process ends with: that of `Exit`, or one from 200 on.
pub fn status(ending: &Ending) -> u8
    ensures { result ≡ status_of ending.now }
{
    match ending {
        Ending::Exit(code) => *code,
        Ending::Usage(_) => 200,
        Ending::TurnsSpent => 201,
        Ending::StoreFull => 202,
        Ending::TreeFault => 203,
        Ending::InputFault => 204,
        Ending::SinkFault => 205,
        Ending::NoMemory => 206,
        Ending::NotYet => 207,
    }
}
