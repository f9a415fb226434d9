//! Which tests of a lookahead hold in real texts.
use ruby_lexer::tokens;
use std::alloc::{AllocError, Global};
use std::process::Abort;
use std::test::Fail;
use token_lookahead::Lookahead;

fn kinds(lookahead: Lookahead<'_>) -> [(&'static str, bool); 12] {
    [
        ("empty", lookahead.is_empty()),
        ("blank", lookahead.blank()),
        ("mark", lookahead.is_any_mark()),
        ("word", lookahead.is_any_word()),
        ("name", lookahead.is_name()),
        ("newline", lookahead.is_newline()),
        ("integer", lookahead.is_integer()),
        ("constant", lookahead.is_constant()),
        ("variable", lookahead.is_variable()),
        ("global", lookahead.is_global()),
        ("label", lookahead.is_label()),
        ("operand", lookahead.is_operand()),
    ]
}

fn lists(lookahead: Lookahead<'_>) -> [(&'static str, bool); 16] {
    [
        ("operand_mark", lookahead.is_operand_mark()),
        ("operand_word", lookahead.is_operand_word()),
        ("statement_word", lookahead.is_statement_word()),
        ("starting", lookahead.is_starting()),
        ("starting_word", lookahead.is_starting_word()),
        ("unary_operand", lookahead.is_tight()),
        ("modifier", lookahead.is_modifier()),
        ("method", lookahead.is_method_mark()),
        ("sending", lookahead.is_sending_assignment()),
        ("product", lookahead.is_product()),
        ("sum", lookahead.is_sum()),
        ("shift", lookahead.is_shift()),
        ("intersection", lookahead.is_intersection()),
        ("union", lookahead.is_union()),
        ("order", lookahead.is_order()),
        ("equality", lookahead.is_equality()),
    ]
}

fn openings(lookahead: Lookahead<'_>) -> [(&'static str, bool); 13] {
    [
        ("begins_argument", lookahead.begins_argument()),
        ("begins_arguments", lookahead.begins_arguments()),
        ("begins_arg", lookahead.begins_arg()),
        ("begins_value", lookahead.begins_value()),
        ("begins_statement", lookahead.begins_statement()),
        ("goes_on", lookahead.goes_on()),
        ("opens", lookahead.opens()),
        ("negative", lookahead.is_negative()),
        ("assigns", lookahead.assigns()),
        ("begins_params", lookahead.begins_params()),
        ("goal", lookahead.is_goal()),
        ("sets", lookahead.sets()),
        ("targets", lookahead.begins_targets()),
    ]
}

fn show(out: &mut Vec<u8>, tests: &[(&'static str, bool)]) -> Result<(), AllocError> {
    for (name, holds) in tests {
        if *holds {
            if !out.is_empty() {
                out.push(b' ')?;
            }
            out.extend_from_slice(name.as_bytes())?;
        }
    }
    Ok(())
}

/// Compares the tests that hold of the second token.
fn compare(rt: &impl Abort, alloc: Global, rows: &[(&str, &str)]) -> Result<(), Fail> {
    for (text, wanted) in rows {
        let source = text.as_bytes();
        let all = tokens(alloc, source).ok().ok_or("the text has a fault")?;
        let rest = all.as_slice();
        let lookahead = Lookahead { source, rest }.next();
        let mut out = Vec::new(alloc);
        show(&mut out, &kinds(lookahead))?;
        show(&mut out, &lists(lookahead))?;
        show(&mut out, &openings(lookahead))?;
        assert_eq!(rt; out.as_slice(), wanted.as_bytes(), "{text}");
    }
    Ok(())
}

/// Texts, and the tests that hold of their second token.
const BEGINNINGS: [(&str, &str); 20] = [
    ("x", "empty"),
    (
        "x (y)",
        "blank mark operand_mark starting begins_argument begins_arguments begins_arg begins_value begins_statement begins_params",
    ),
    (
        "x(y)",
        "mark operand_mark starting begins_argument begins_arg begins_value begins_statement opens begins_params",
    ),
    (
        "x [y]",
        "blank mark operand_mark starting begins_argument begins_arguments begins_arg begins_value begins_statement",
    ),
    (
        "x[y]",
        "mark operand_mark starting begins_argument begins_arg begins_value begins_statement goes_on",
    ),
    (
        "x -1",
        "blank mark operand_mark unary_operand method sum begins_argument begins_arguments begins_arg begins_value begins_statement negative",
    ),
    (
        "x -1 ** 2",
        "blank mark operand_mark unary_operand method sum begins_argument begins_arguments begins_arg begins_value begins_statement",
    ),
    (
        "x - 1",
        "blank mark operand_mark unary_operand method sum begins_arg begins_value begins_statement",
    ),
    (
        "x -y",
        "blank mark operand_mark unary_operand method sum begins_argument begins_arguments begins_arg begins_value begins_statement",
    ),
    (
        "x *y",
        "blank mark unary_operand method product begins_argument begins_arguments begins_params",
    ),
    (
        "x &y",
        "blank mark unary_operand method intersection begins_argument begins_arguments begins_params",
    ),
    ("x = y", "blank mark assigns"),
    ("x ||= y", "blank mark assigns"),
    ("x += y", "blank mark sending assigns"),
    (
        "x if y",
        "blank word operand_word modifier begins_arg begins_statement",
    ),
    ("x rescue y", "blank word modifier"),
    (
        "x nil",
        "blank word operand_word starting_word begins_argument begins_arguments begins_arg begins_value begins_statement",
    ),
    ("x;y", "newline begins_params"),
    ("x.y", "mark goes_on"),
    ("(return)", "word statement_word begins_statement"),
];

const OPERANDS: [(&str, &str); 8] = [
    (
        "x y = 1",
        "blank name operand begins_argument begins_arguments begins_arg begins_value begins_statement begins_params goal sets",
    ),
    (
        "x @y, z",
        "blank variable operand begins_argument begins_arguments begins_arg begins_value begins_statement goal targets",
    ),
    (
        "x $y",
        "blank global operand begins_argument begins_arguments begins_arg begins_value begins_statement goal",
    ),
    (
        "x Y = 1",
        "blank constant operand begins_argument begins_arguments begins_arg begins_value begins_statement sets",
    ),
    (
        "x Y += 1",
        "blank constant operand begins_argument begins_arguments begins_arg begins_value begins_statement",
    ),
    (
        "x 12",
        "blank integer operand begins_argument begins_arguments begins_arg begins_value begins_statement",
    ),
    (
        "x y: 1",
        "blank label operand begins_argument begins_arguments",
    ),
    (
        "x ::Y",
        "blank mark operand_mark unary_operand begins_argument begins_arguments begins_arg begins_value begins_statement goes_on",
    ),
];

/// The binary operators.
const OPERATORS: [(&str, &str); 8] = [
    ("x % y", "blank mark method product"),
    ("x << y", "blank mark method shift"),
    ("x ^ y", "blank mark method union"),
    ("x >= y", "blank mark method order"),
    ("x <=> y", "blank mark method equality"),
    ("x != y", "blank mark"),
    ("x && y", "blank mark"),
    ("x ** y", "blank mark method"),
];

#[test]
fn what_begins(rt: HostRuntime) -> Result<(), Fail> {
    compare(&rt, rt.alloc(), &BEGINNINGS)?;
    compare(&rt, rt.alloc(), &OPERANDS)?;
    compare(&rt, rt.alloc(), &OPERATORS)
}
