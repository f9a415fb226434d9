//! Worked rows of the compile table.
ghost use Rattle.compile_table.specs.Worked.{empty_file, sum_file, constants_row, statements_row, text_row, collections_row, variables_row, several_row, calls_row, attributes_row, indices_row, logic_row, loops_row, cases_row, exits_row, bodies_row, block_row, rescue_row, ensure_row, nested_row, heads_row, lines_row};

/// What small trees are compiled to. Each clause has the name of its row in specs/Worked.antt.
pub fn small_units()
    ensures of_empty_file { empty_file }
    ensures of_sum_file { sum_file }
    ensures of_constants_row { constants_row }
    ensures of_statements_row { statements_row }
    ensures of_text_row { text_row }
    ensures of_collections_row { collections_row }
    ensures of_variables_row { variables_row }
    ensures of_several_row { several_row }
    ensures of_calls_row { calls_row }
    ensures of_attributes_row { attributes_row }
    ensures of_indices_row { indices_row }
    ensures of_logic_row { logic_row }
    ensures of_loops_row { loops_row }
    ensures of_cases_row { cases_row }
    ensures of_exits_row { exits_row }
    ensures of_bodies_row { bodies_row }
    ensures of_block_row { block_row }
    ensures of_rescue_row { rescue_row }
    ensures of_ensure_row { ensure_row }
    ensures of_nested_row { nested_row }
    ensures of_heads_row { heads_row }
    ensures of_lines_row { lines_row }
{}
