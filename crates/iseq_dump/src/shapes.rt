//! Which operands an instruction has, by its opcode.
ghost use Rattle.iseq_dump.specs.Reading.{Finds, of_code, shapes};

use crate::fault::ReadError;

/// The operands of an instruction, one behind the other.
#[derive(Clone, Copy, Debug)]
pub enum Shape {
    /// None.
    Alone,
    /// A number or a jump's target.
    Number,
    /// A literal.
    Value,
    /// A text.
    Word,
    /// A slot and a level.
    Local,
    /// A number, and texts.
    Path,
    /// A number of arguments, and the places of those that are spread.
    Spread,
    /// A text, a number of arguments, the places of those that are spread, flags and a sequence.
    Call,
    /// A number of arguments, the places of those that are spread, flags and a sequence.
    Above,
    /// A text, a sequence and a number.
    Definition,
}

/// The shape of an opcode.
pub fn shape_of(opcode: u8) -> Result<Shape, ReadError>
    ensures { Finds result (of_code opcode shapes) }
{
    match opcode {
        0 | 1 | 2 | 3 | 7 | 8 | 23 | 24 | 30 | 36 => Ok(Shape::Alone),
        4 | 5 | 6 | 20 | 21 | 22 | 31 | 32 | 33 | 34 | 35 | 37 => Ok(Shape::Number),
        9 => Ok(Shape::Value),
        10 | 13 | 14 | 15 | 16 | 17 => Ok(Shape::Word),
        11 | 12 => Ok(Shape::Local),
        18 => Ok(Shape::Path),
        19 | 27 => Ok(Shape::Spread),
        25 => Ok(Shape::Call),
        26 => Ok(Shape::Above),
        28 | 29 => Ok(Shape::Definition),
        _ => Err(ReadError::NotSpelled),
    }
}
