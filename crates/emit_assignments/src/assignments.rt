//! What is set.
ghost use Rattle.std.specs.Prelude.{◌≡◌, OnOk};
ghost use Rattle.ruby_tree.specs.SourcePositions.{position_of};
ghost use Rattle.ruby_tree.specs.Views.{read_assignment};
ghost use Rattle.compile_table.specs.Shapes.{form_shape};
ghost use Rattle.code_emitter.specs.Children.{form_direct};
ghost use Rattle.code_emitter.specs.Emitting.{where_of, texts_of, Writes, Finds};

use crate::attributes::{Attribute, operate_attribute, set_attribute, set_attribute_unless};
use crate::elements::{Element, operate_element, set_element, set_element_unless};
use crate::targets::{set_one, set_several};
use bs_outside::NoMemory;
use code_emitter::{Emitter, Nodes, Output};
use code_writer::Branch;
use ruby_tree::{Assignment, Node, SourcePosition};

/// Writes the code of an assignment.
pub fn assignment<'a, N: Nodes<'a>>(
    emitter: &Emitter<'_, 'a>,
    below: &N,
    at: SourcePosition,
    assignment: &'a Assignment<Node>,
    out: &mut Output<'a>,
) -> Result<(), NoMemory>
    requires { N.IsReady below.now }
    ensures code { OnOk result (Writes emitter.now.depth (form_shape (where_of emitter.now) (read_assignment (texts_of emitter.now) assignment.now) (position_of at)) out.old out.new) }
    ensures children { OnOk result (Finds (texts_of emitter.now) (form_direct emitter.now.in_loop (read_assignment (texts_of emitter.now) assignment.now)) out.old out.new) }
{
    match assignment {
        Assignment::Single(value, target) => set_one(emitter, below, at, value, *target, out),
        Assignment::Multiple(values, targets) => {
            set_several(emitter, below, at, values, targets, out)
        }
        Assignment::Attribute(receiver, value, name) => {
            set_attribute(emitter, below, at, receiver, value, *name, out)
        }
        Assignment::Index(receiver, index, value) => {
            let element = Element { receiver, index };
            set_element(emitter, below, at, element, value, out)
        }
        Assignment::AttributeOperator(receiver, read, value, operator, name, line) => {
            let attribute = Attribute::new(receiver, *read, *name);
            operate_attribute(emitter, below, at, attribute, value, *operator, *line, out)
        }
        Assignment::AttributeOr(receiver, read, value, name) => {
            let attribute = Attribute::new(receiver, *read, *name);
            set_attribute_unless(emitter, below, at, Branch::If, attribute, value, out)
        }
        Assignment::AttributeAnd(receiver, read, value, name) => {
            let attribute = Attribute::new(receiver, *read, *name);
            set_attribute_unless(emitter, below, at, Branch::Unless, attribute, value, out)
        }
        Assignment::IndexOperator(receiver, index, value, operator, line) => {
            let element = Element { receiver, index };
            operate_element(emitter, below, at, element, value, *operator, *line, out)
        }
        Assignment::IndexOr(receiver, index, value) => {
            let element = Element { receiver, index };
            set_element_unless(emitter, below, at, Branch::If, element, value, out)
        }
        Assignment::IndexAnd(receiver, index, value) => {
            let element = Element { receiver, index };
            set_element_unless(emitter, below, at, Branch::Unless, element, value, out)
        }
    }
}
