//! Where bytes come from.
ghost use Rattle.std.specs.Prelude.{◌≡◌, ◌<◌, ◌≤◌, [], ℕ, List, Option, length, IfOk, OnErr, IfSome, IsErrOf};
ghost use Rattle.bs_outside.specs.Told.{put_before, Rose};

use crate::{Bytes, InputFault};
use std::alloc::Global;

/// What gives bytes, as standard input.
pub trait Input {
    /// The bytes left, where the object tells them.
    ghost left: { Self → Option (List ℕ) };

    /// How many calls failed.
    ghost faults: { Self → ℕ };

    /// Takes at most `max` bytes from the front, and none of them, where `max` is above 0, only at the end.
    fn take(&mut self, alloc: Global, max: usize) -> Result<Bytes, InputFault>
        ensures within { IfOk result (λ bytes. length bytes ≤ max) }
        ensures ok { IfOk result (λ bytes. left self.old ≡ put_before bytes (left self.new)) }
        ensures end { IfOk result (λ bytes. 0 < max → bytes ≡ [] → IfSome (left self.new) (λ rest. rest ≡ [])) }
        ensures err { OnErr result (left self.new ≡ left self.old) }
        ensures counted { faults self.old ≤ faults self.new }
        ensures failed { IsErrOf result InputFault.Failed → Rose (faults self.old) (faults self.new) };
}
