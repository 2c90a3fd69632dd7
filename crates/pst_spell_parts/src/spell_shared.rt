//! The tokens of parts that several rules share.
ghost use Rattle.std.specs.Prelude.{◌≡◌, ◌++◌, ◌∷◌, [], OnOk, map};
ghost use Rattle.std.specs.List.{flat_map};
ghost use Rattle.std.specs.Option.{option_map};
ghost use Rattle.pst_ast.specs.Marks.{mark, spell_option};
ghost use Rattle.pst_ast.specs.ExpressionView.{view_expr};
ghost use Rattle.pst_ast.specs.ExpressionSpelling.{spell_expr};
ghost use Rattle.pst_token.specs.declared.kind.Kind.TheVariants.{LeftParenthesis, RightParenthesis, Repeat};
ghost use Rattle.pst_ast.specs.SharedView.{view_domain, view_low, view_names, view_next_expr, view_plain, view_type, view_width};
ghost use Rattle.pst_ast.specs.SharedSpelling.{spell_domain, spell_dot_name, spell_label, spell_low, spell_names, spell_next_expr, spell_next_name, spell_plain, spell_scoped_name, spell_type, spell_type_name, spell_width};

use crate::marks::{push_mark, push_name};
use crate::spell_expression::{add_expr, add_ranges};
use pst_ast::{
    DomainNode, DotName, ExprNode, LabelNode, LowNode, NamesNode, NextExpr, NextName, PlainNode,
    ScopedName, TypeName, TypeNode, WidthNode,
};
use pst_base::{NoMemory, Place};
use pst_token::{Kind, Token};

// "," expr
fn add_next_expr(tokens: &mut Vec<Token>, next: &NextExpr) -> Result<(), NoMemory>
    ensures { OnOk result (tokens.new.items ≡ tokens.old.items ++ spell_next_expr (view_next_expr next.now)) }
{
    push_mark(tokens, Kind::Comma, next.comma)?;
    add_expr(tokens, &next.expr)
}

// Adds the tokens of each in order.
pub fn add_next_exprs(tokens: &mut Vec<Token>, parts: &[NextExpr]) -> Result<(), NoMemory>
    ensures { OnOk result (tokens.new.items ≡ tokens.old.items ++ flat_map spell_next_expr (map view_next_expr parts.now)) }
{
    for next in parts {
        add_next_expr(tokens, next)?;
    }
    Ok(())
}

// "," NAME
fn add_next_name(tokens: &mut Vec<Token>, next: &NextName) -> Result<(), NoMemory>
    ensures { OnOk result (tokens.new.items ≡ tokens.old.items ++ spell_next_name next.now) }
{
    push_mark(tokens, Kind::Comma, next.comma)?;
    push_name(tokens, next.name)
}

// Adds the tokens of each in order.
fn add_next_names(tokens: &mut Vec<Token>, names: &[NextName]) -> Result<(), NoMemory>
    ensures { OnOk result (tokens.new.items ≡ tokens.old.items ++ flat_map spell_next_name names.now) }
{
    for next in names {
        add_next_name(tokens, next)?;
    }
    Ok(())
}

// "." NAME
pub fn add_dot_name(tokens: &mut Vec<Token>, dot_name: &DotName) -> Result<(), NoMemory>
    ensures { OnOk result (tokens.new.items ≡ tokens.old.items ++ spell_dot_name dot_name.now) }
{
    push_mark(tokens, Kind::Dot, dot_name.dot)?;
    push_name(tokens, dot_name.name)
}

// Adds the tokens of each in order.
pub fn add_dot_names(tokens: &mut Vec<Token>, names: &[DotName]) -> Result<(), NoMemory>
    ensures { OnOk result (tokens.new.items ≡ tokens.old.items ++ flat_map spell_dot_name names.now) }
{
    for next in names {
        add_dot_name(tokens, next)?;
    }
    Ok(())
}

// NAME { "," NAME }
pub fn add_names(tokens: &mut Vec<Token>, names: &NamesNode) -> Result<(), NoMemory>
    ensures { OnOk result (tokens.new.items ≡ tokens.old.items ++ spell_names (view_names names.now)) }
{
    push_name(tokens, names.first)?;
    add_next_names(tokens, names.rest.as_slice())
}

// A word, and an expression in brackets behind it.
pub fn add_word_and_expr(
    tokens: &mut Vec<Token>,
    word: Kind,
    place: Place,
    left_parenthesis: Place,
    expr: &ExprNode,
    right_parenthesis: Place,
) -> Result<(), NoMemory>
    ensures { OnOk result (tokens.new.items ≡ tokens.old.items ++ mark word place ∷ mark LeftParenthesis left_parenthesis ∷ (spell_expr (view_expr expr.now) ++ mark RightParenthesis right_parenthesis ∷ [])) }
{
    push_mark(tokens, word, place)?;
    push_mark(tokens, Kind::LeftParenthesis, left_parenthesis)?;
    add_expr(tokens, expr)?;
    push_mark(tokens, Kind::RightParenthesis, right_parenthesis)
}

// "repeat" "(" [ NAME ":" ] expr ")"
pub fn add_repeat(
    tokens: &mut Vec<Token>,
    repeat: Place,
    left_parenthesis: Place,
    index: &Option<LabelNode>,
    count: &ExprNode,
    right_parenthesis: Place,
) -> Result<(), NoMemory>
    ensures { OnOk result (tokens.new.items ≡ tokens.old.items ++ mark Repeat repeat ∷ mark LeftParenthesis left_parenthesis ∷ (spell_option spell_label index.now ++ (spell_expr (view_expr count.now) ++ mark RightParenthesis right_parenthesis ∷ []))) }
{
    push_mark(tokens, Kind::Repeat, repeat)?;
    push_mark(tokens, Kind::LeftParenthesis, left_parenthesis)?;
    add_optional_label(tokens, index)?;
    add_expr(tokens, count)?;
    push_mark(tokens, Kind::RightParenthesis, right_parenthesis)
}

// NAME ":"
pub fn add_label(tokens: &mut Vec<Token>, label: &LabelNode) -> Result<(), NoMemory>
    ensures { OnOk result (tokens.new.items ≡ tokens.old.items ++ spell_label label.now) }
{
    push_name(tokens, label.name)?;
    push_mark(tokens, Kind::Colon, label.colon)
}

// Adds the tokens of a part that may be left out.
fn add_optional_label(tokens: &mut Vec<Token>, part: &Option<LabelNode>) -> Result<(), NoMemory>
    ensures { OnOk result (tokens.new.items ≡ tokens.old.items ++ spell_option spell_label part.now) }
{
    match part {
        None => Ok(()),
        Some(part) => add_label(tokens, part),
    }
}

// tname = NAME [ "::" NAME ]
pub fn add_type_name(tokens: &mut Vec<Token>, name: &TypeName) -> Result<(), NoMemory>
    ensures { OnOk result (tokens.new.items ≡ tokens.old.items ++ spell_type_name name.now) }
{
    push_name(tokens, name.first)?;
    add_optional_scoped_name(tokens, &name.second)
}

// "::" NAME
fn add_scoped_name(tokens: &mut Vec<Token>, name: &ScopedName) -> Result<(), NoMemory>
    ensures { OnOk result (tokens.new.items ≡ tokens.old.items ++ spell_scoped_name name.now) }
{
    push_mark(tokens, Kind::ColonColon, name.colons)?;
    push_name(tokens, name.name)
}

// Adds the tokens of a part that may be left out.
fn add_optional_scoped_name(
    tokens: &mut Vec<Token>,
    part: &Option<ScopedName>,
) -> Result<(), NoMemory>
    ensures { OnOk result (tokens.new.items ≡ tokens.old.items ++ spell_option spell_scoped_name part.now) }
{
    match part {
        None => Ok(()),
        Some(part) => add_scoped_name(tokens, part),
    }
}

// plain = ("int"|"bit") [width] | "bool"
pub fn add_plain(tokens: &mut Vec<Token>, plain: &PlainNode) -> Result<(), NoMemory>
    ensures { OnOk result (tokens.new.items ≡ tokens.old.items ++ spell_plain (view_plain plain.now)) }
{
    match plain {
        PlainNode::Int { int, width } => {
            push_mark(tokens, Kind::Int, *int)?;
            add_optional_width(tokens, width)
        }
        PlainNode::Bit { bit, width } => {
            push_mark(tokens, Kind::Bit, *bit)?;
            add_optional_width(tokens, width)
        }
        PlainNode::Bool(place) => push_mark(tokens, Kind::Bool, *place),
    }
}

// width = "[" expr [ ":" expr ] "]"
fn add_width(tokens: &mut Vec<Token>, width: &WidthNode) -> Result<(), NoMemory>
    ensures { OnOk result (tokens.new.items ≡ tokens.old.items ++ spell_width (view_width width.now)) }
{
    push_mark(tokens, Kind::LeftBracket, width.left_bracket)?;
    add_expr(tokens, &width.expr)?;
    add_optional_low(tokens, &width.low)?;
    push_mark(tokens, Kind::RightBracket, width.right_bracket)
}

// Adds the tokens of a part that may be left out.
fn add_optional_width(tokens: &mut Vec<Token>, part: &Option<WidthNode>) -> Result<(), NoMemory>
    ensures { OnOk result (tokens.new.items ≡ tokens.old.items ++ spell_option spell_width (option_map view_width part.now)) }
{
    match part {
        None => Ok(()),
        Some(part) => add_width(tokens, part),
    }
}

// ":" expr
fn add_low(tokens: &mut Vec<Token>, low: &LowNode) -> Result<(), NoMemory>
    ensures { OnOk result (tokens.new.items ≡ tokens.old.items ++ spell_low (view_low low.now)) }
{
    push_mark(tokens, Kind::Colon, low.colon)?;
    add_expr(tokens, &low.expr)
}

// Adds the tokens of a part that may be left out.
fn add_optional_low(tokens: &mut Vec<Token>, part: &Option<LowNode>) -> Result<(), NoMemory>
    ensures { OnOk result (tokens.new.items ≡ tokens.old.items ++ spell_option spell_low (option_map view_low part.now)) }
{
    match part {
        None => Ok(()),
        Some(part) => add_low(tokens, part),
    }
}

// type = plain ["in" "[" ranges "]"] | tname ["in" "[" ranges "]"]
pub fn add_type(tokens: &mut Vec<Token>, type_node: &TypeNode) -> Result<(), NoMemory>
    ensures { OnOk result (tokens.new.items ≡ tokens.old.items ++ spell_type (view_type type_node.now)) }
{
    match type_node {
        TypeNode::Plain { plain, domain } => {
            add_plain(tokens, plain)?;
            add_optional_domain(tokens, domain)
        }
        TypeNode::Named { name, domain } => {
            add_type_name(tokens, name)?;
            add_optional_domain(tokens, domain)
        }
    }
}

// "in" "[" ranges "]"
fn add_domain(tokens: &mut Vec<Token>, domain: &DomainNode) -> Result<(), NoMemory>
    ensures { OnOk result (tokens.new.items ≡ tokens.old.items ++ spell_domain (view_domain domain.now)) }
{
    push_mark(tokens, Kind::In, domain.in_)?;
    push_mark(tokens, Kind::LeftBracket, domain.left_bracket)?;
    add_ranges(tokens, &domain.ranges)?;
    push_mark(tokens, Kind::RightBracket, domain.right_bracket)
}

// Adds the tokens of a part that may be left out.
fn add_optional_domain(tokens: &mut Vec<Token>, part: &Option<DomainNode>) -> Result<(), NoMemory>
    ensures { OnOk result (tokens.new.items ≡ tokens.old.items ++ spell_option spell_domain (option_map view_domain part.now)) }
{
    match part {
        None => Ok(()),
        Some(part) => add_domain(tokens, part),
    }
}
