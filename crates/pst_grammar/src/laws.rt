//! Laws of the grammar: each function here does nothing, and its contract is a law.
ghost use Rattle.pst_ast.specs.Laws.{OneTreeOfEachRule};

use pst_ast::laws::one_tree_of_expressions;
use pst_parser::laws::at_most_one_unit;

/// At most one proper tree of each rule of the grammar spells a list of tokens.
pub fn at_most_one_tree_of_each_rule()
    ensures { OneTreeOfEachRule }
{
    one_tree_of_expressions();
    at_most_one_unit();
}
