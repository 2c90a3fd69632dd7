//! Traversals: `do` and handles, with their constraints. A parser stands at a place, and `depth`
//! derivations that count are open at the tokens of its part; it answers the part and the place
//! behind it. Behind a part that ends with an `if` without `else` no `else` stands.
ghost use Rattle.std.specs.Prelude.{◌≤◌, length};
ghost use Rattle.pst_ast.specs.ActivityView.{view_with, view_core};
ghost use Rattle.pst_ast.specs.ActivityProper.{with_ends_open, core_ends_open};
ghost use Rattle.pst_reading.specs.Reads.{ReadsOpen};
ghost use Rattle.pst_parse_step.specs.ActivityPartFamilies.{with_set_family, with_nothing_family, with_family, do_family, handle_family, bound_family};

use crate::parts::bind;
use pst_ast::{CoreNode, SyntaxFault, WithNode};
use pst_parse_expr::constraint::set;
use pst_parse_part::names::type_name;
use pst_reading::{expect, expect_name, is};
use pst_token::{Kind, Token};
use std::alloc::Global;

// Constraints behind `with`.
fn with_set(
    alloc: Global,
    tokens: &[Token],
    at: usize,
    depth: u32,
) -> Result<(WithNode, usize), SyntaxFault>
    requires inside { at ≤ length tokens.now }
    ensures { ReadsOpen view_with with_ends_open (with_set_family depth) tokens.now at at result }
{
    let with = expect(tokens, at, Kind::With, depth, 0)?;
    let (set, after) = set(alloc, tokens, at + 1, depth)?;
    Ok((WithNode::Set { with, set }, after))
}

// No constraints.
fn with_nothing(tokens: &[Token], at: usize, depth: u32) -> Result<(WithNode, usize), SyntaxFault>
    requires inside { at ≤ length tokens.now }
    ensures { ReadsOpen view_with with_ends_open (with_nothing_family depth) tokens.now at at result }
{
    let place = expect(tokens, at, Kind::Semicolon, depth, 0)?;
    Ok((WithNode::Nothing(place), at + 1))
}

/// The constraints of a traversal, or none.
pub fn with_part(
    alloc: Global,
    tokens: &[Token],
    at: usize,
    depth: u32,
) -> Result<(WithNode, usize), SyntaxFault>
    requires inside { at ≤ length tokens.now }
    ensures { ReadsOpen view_with with_ends_open (with_family depth) tokens.now at at result }
{
    if is(tokens, at, Kind::With) {
        return with_set(alloc, tokens, at, depth);
    }
    with_nothing(tokens, at, depth)
}

/// An action by its type.
pub fn do_core(
    alloc: Global,
    tokens: &[Token],
    at: usize,
    depth: u32,
) -> Result<(CoreNode, usize), SyntaxFault>
    requires inside { at ≤ length tokens.now }
    ensures { ReadsOpen view_core core_ends_open (do_family depth) tokens.now at at result }
{
    let do_ = expect(tokens, at, Kind::Do, depth, 0)?;
    let (name, behind) = type_name(tokens, at + 1, depth)?;
    let (with, after) = with_part(alloc, tokens, behind, depth)?;
    Ok((CoreNode::Do { do_, name, with }, after))
}

/// An action by its handle.
pub fn handle_core(
    alloc: Global,
    tokens: &[Token],
    at: usize,
    depth: u32,
) -> Result<(CoreNode, usize), SyntaxFault>
    requires inside { at ≤ length tokens.now }
    ensures { ReadsOpen view_core core_ends_open (handle_family depth) tokens.now at at result }
{
    let name = expect_name(tokens, at, depth, 0)?;
    let (with, after) = with_part(alloc, tokens, at + 1, depth)?;
    Ok((CoreNode::Handle { name, with }, after))
}

/// Ends that are bound to one another, as a statement.
pub fn bound_core(
    alloc: Global,
    tokens: &[Token],
    at: usize,
    depth: u32,
) -> Result<(CoreNode, usize), SyntaxFault>
    requires inside { at ≤ length tokens.now }
    ensures { ReadsOpen view_core core_ends_open (bound_family depth) tokens.now at at result }
{
    let (bind, after) = bind(alloc, tokens, at, depth)?;
    Ok((CoreNode::Bind(bind), after))
}
