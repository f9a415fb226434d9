//! The words of nodes, with what opens and closes them.

use ruby_tree::{Assignment, Call, Control, Definition, Exit, Handler, Node};

pub(super) fn assignment_word(assignment: &Assignment<Node>) -> &'static str {
    match assignment {
        Assignment::Single(_, _) | Assignment::Multiple(_, _) => "(=",
        Assignment::Attribute(_, _, _) => "(.=",
        Assignment::AttributeOperator(_, _, _, _, _, _) => "(.op=",
        Assignment::AttributeOr(_, _, _, _) => "(.||=",
        Assignment::AttributeAnd(_, _, _, _) => "(.&&=",
        Assignment::Index(_, _, _) => "([]=",
        Assignment::IndexOperator(_, _, _, _, _) => "([]op=",
        Assignment::IndexOr(_, _, _) => "([]||=",
        Assignment::IndexAnd(_, _, _) => "([]&&=",
    }
}

/// A call without a receiver has `_` in its place, unless it is a name alone.
pub(super) fn call_word(call: &Call<Node>) -> &'static str {
    match call {
        Call::Send(_, _, _, _, _, true, _) => "(bare",
        Call::Send(None, _, _, _, _, false, _) => "(send _",
        Call::Send(Some(_), _, _, _, _, false, _) => "(send",
        Call::SafeSend(_, _, _, _, _, _) => "(safe",
        Call::Yield(_, _) => "(yield",
        Call::Super(_, _, _, _) => "(super",
        Call::BareSuper(_) => "(zsuper",
        Call::BareRaise => "(reraise",
    }
}

pub(super) fn control_word(control: &Control<Node>) -> &'static str {
    match control {
        Control::Statements(_) => "{",
        Control::And(_, _) => "(and",
        Control::Or(_, _) => "(or",
        Control::Not(_) => "(not",
        Control::If(_, _, _) => "(if",
        Control::While(_, _, false, false) => "(while",
        Control::While(_, _, true, false) => "(until",
        Control::While(_, _, false, true) => "(do-while",
        Control::While(_, _, true, true) => "(do-until",
        Control::Case(_, _, _) => "(case",
        Control::CaseTests(_, _) => "(case-tests",
    }
}

pub(super) fn control_end(control: &Control<Node>) -> &'static str {
    match control {
        Control::Statements(_) => "}",
        _ => ")",
    }
}

pub(super) fn exit_word(exit: &Exit<Node>) -> &'static str {
    match exit {
        Exit::Return(_) => "(return",
        Exit::Break(_) => "(break",
        Exit::Next(_) => "(next",
        Exit::Retry => "(retry",
    }
}

pub(super) fn handler_word(handler: &Handler<Node>) -> &'static str {
    match handler {
        Handler::Rescue(_, _, _) => "(rescue",
        Handler::Ensure(_, _) => "(ensure",
        Handler::RescueSequence(_) => "(seq",
        Handler::EnsureSequence(_) => "(last",
    }
}

pub(super) fn definition_word(definition: &Definition<Node>) -> &'static str {
    match definition {
        Definition::Method(_, _, false) => "(def",
        Definition::Method(_, _, true) => "(defs",
        Definition::Class(_, _, _) => "(class",
        Definition::Module(_, _) => "(module",
        Definition::Body(_, _) => "(|",
    }
}
