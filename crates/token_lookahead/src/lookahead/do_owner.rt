//! Whose a `do` is.
ghost use Rattle.std.specs.Prelude.{◌≡◌};
ghost use Rattle.ruby_tree.specs.Rules as test;
ghost use Rattle.token_lookahead.specs.Lookaheads.{do_owner_of};

/// Whose a `do` is that stands behind a call.
#[derive(Clone, Copy, Debug, PartialEq, Eq, Drop)]
pub enum DoBlockOwner {
    /// The call's own.
    Own,
    /// A command's, in whose arguments the call stands.
    Commands,
    /// A loop's, in whose condition it stands.
    Loops,
}

impl DoBlockOwner {
    /// In the arguments of a command.
    pub fn in_arguments(self) -> DoBlockOwner
        ensures { do_owner_of result ≡ test.in_arguments (do_owner_of self) }
    {
        match self {
            DoBlockOwner::Own | DoBlockOwner::Commands => DoBlockOwner::Commands,
            DoBlockOwner::Loops => DoBlockOwner::Loops,
        }
    }

    /// In a form that `end` closes.
    pub fn within(self) -> DoBlockOwner
        ensures { do_owner_of result ≡ test.within (do_owner_of self) }
    {
        match self {
            DoBlockOwner::Own | DoBlockOwner::Commands => DoBlockOwner::Own,
            DoBlockOwner::Loops => DoBlockOwner::Loops,
        }
    }

    /// Whether a call may take a `do`.
    pub fn call_takes(self) -> bool
        ensures { result ≡ test.call_takes (do_owner_of self) }
    {
        match self {
            DoBlockOwner::Own => true,
            DoBlockOwner::Commands | DoBlockOwner::Loops => false,
        }
    }

    /// Whether a command may take a `do`.
    pub fn command_takes(self) -> bool
        ensures { result ≡ test.command_takes (do_owner_of self) }
    {
        match self {
            DoBlockOwner::Own | DoBlockOwner::Commands => true,
            DoBlockOwner::Loops => false,
        }
    }
}
