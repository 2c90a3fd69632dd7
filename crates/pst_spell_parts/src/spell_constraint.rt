//! The tokens of constraints.
ghost use Rattle.std.specs.Prelude.{◌≡◌, ◌++◌, ◌∷◌, [], OnOk, map};
ghost use Rattle.pst_token.specs.declared.kind.Kind.TheVariants.{LeftBracket, RightBracket};
ghost use Rattle.pst_ast.specs.Marks.{mark, name_token};
ghost use Rattle.std.specs.List.{flat_map};
ghost use Rattle.pst_ast.specs.ConstraintView.{view_constraint, view_constraint_content, view_constraint_declaration, view_constraint_item};
ghost use Rattle.pst_ast.specs.ConstraintSpelling.{spell_constraint, spell_constraint_content, spell_constraint_declaration, spell_constraint_item};

use crate::marks::{push_mark, push_name};
use crate::spell_expression::add_expr;
use crate::spell_shared::{add_dot_names, add_next_exprs, add_word_and_expr};
use pst_ast::{ConstraintContent, ConstraintDeclaration, ConstraintItem, ConstraintNode, Name};
use pst_base::{NoMemory, Place};
use pst_token::{Kind, Token};

// set = citem | "{" { citem } "}"
#[cycle(constraint_spelling)]
pub fn add_constraint(tokens: &mut Vec<Token>, constraint: &ConstraintNode) -> Result<(), NoMemory>
    ensures { OnOk result (tokens.new.items ≡ tokens.old.items ++ spell_constraint (view_constraint constraint.now)) }
{
    match constraint {
        ConstraintNode::One(item) => add_constraint_item(tokens, item),
        ConstraintNode::Block {
            left_brace,
            items,
            right_brace,
        } => {
            push_mark(tokens, Kind::LeftBrace, *left_brace)?;
            add_constraint_items(tokens, items.as_slice())?;
            push_mark(tokens, Kind::RightBrace, *right_brace)
        }
    }
}

// citem
#[cycle(constraint_spelling)]
fn add_constraint_item(tokens: &mut Vec<Token>, item: &ConstraintItem) -> Result<(), NoMemory>
    ensures { OnOk result (tokens.new.items ≡ tokens.old.items ++ spell_constraint_item (view_constraint_item item.now)) }
{
    match item {
        ConstraintItem::Empty(place) => push_mark(tokens, Kind::Semicolon, *place),
        ConstraintItem::Expr { expr, semicolon } => {
            add_expr(tokens, expr)?;
            push_mark(tokens, Kind::Semicolon, *semicolon)
        }
        ConstraintItem::Implies {
            condition,
            arrow,
            set,
        } => {
            add_expr(tokens, condition)?;
            push_mark(tokens, Kind::Arrow, *arrow)?;
            add_constraint(tokens, set)
        }
        ConstraintItem::If {
            if_,
            left_parenthesis,
            condition,
            right_parenthesis,
            then,
        } => {
            add_word_and_expr(
                tokens,
                Kind::If,
                *if_,
                *left_parenthesis,
                condition,
                *right_parenthesis,
            )?;
            add_constraint(tokens, then)
        }
        ConstraintItem::IfElse {
            if_,
            left_parenthesis,
            condition,
            right_parenthesis,
            then,
            else_,
            otherwise,
        } => {
            add_word_and_expr(
                tokens,
                Kind::If,
                *if_,
                *left_parenthesis,
                condition,
                *right_parenthesis,
            )?;
            add_constraint(tokens, then)?;
            push_mark(tokens, Kind::Else, *else_)?;
            add_constraint(tokens, otherwise)
        }
        ConstraintItem::Unique {
            unique,
            left_brace,
            first,
            rest,
            right_brace,
            semicolon,
        } => {
            push_mark(tokens, Kind::Unique, *unique)?;
            push_mark(tokens, Kind::LeftBrace, *left_brace)?;
            add_expr(tokens, first)?;
            add_next_exprs(tokens, rest.as_slice())?;
            push_mark(tokens, Kind::RightBrace, *right_brace)?;
            push_mark(tokens, Kind::Semicolon, *semicolon)
        }
        ConstraintItem::Foreach {
            foreach,
            left_parenthesis,
            first,
            rest,
            left_bracket,
            index,
            right_bracket,
            right_parenthesis,
            set,
        } => {
            push_mark(tokens, Kind::Foreach, *foreach)?;
            push_mark(tokens, Kind::LeftParenthesis, *left_parenthesis)?;
            push_name(tokens, *first)?;
            add_dot_names(tokens, rest.as_slice())?;
            add_index_name(tokens, *left_bracket, *index, *right_bracket)?;
            push_mark(tokens, Kind::RightParenthesis, *right_parenthesis)?;
            add_constraint(tokens, set)
        }
    }
}

// "[" NAME "]"
fn add_index_name(
    tokens: &mut Vec<Token>,
    left_bracket: Place,
    name: Name,
    right_bracket: Place,
) -> Result<(), NoMemory>
    ensures { OnOk result (tokens.new.items ≡ tokens.old.items ++ mark LeftBracket left_bracket ∷ name_token name ∷ mark RightBracket right_bracket ∷ []) }
{
    push_mark(tokens, Kind::LeftBracket, left_bracket)?;
    push_name(tokens, name)?;
    push_mark(tokens, Kind::RightBracket, right_bracket)
}

// Adds the tokens of each in order.
#[cycle(constraint_spelling)]
fn add_constraint_items(tokens: &mut Vec<Token>, items: &[ConstraintItem]) -> Result<(), NoMemory>
    ensures { OnOk result (tokens.new.items ≡ tokens.old.items ++ flat_map spell_constraint_item (map view_constraint_item items.now)) }
{
    for item in items {
        add_constraint_item(tokens, item)?;
    }
    Ok(())
}

// constraint = "constraint" ( NAME "{" { citem } "}" | set )
pub fn add_constraint_declaration(
    tokens: &mut Vec<Token>,
    declaration: &ConstraintDeclaration,
) -> Result<(), NoMemory>
    ensures { OnOk result (tokens.new.items ≡ tokens.old.items ++ spell_constraint_declaration (view_constraint_declaration declaration.now)) }
{
    push_mark(tokens, Kind::Constraint, declaration.constraint)?;
    add_constraint_content(tokens, &declaration.content)
}

// What stands behind the word `constraint`.
fn add_constraint_content(
    tokens: &mut Vec<Token>,
    content: &ConstraintContent,
) -> Result<(), NoMemory>
    ensures { OnOk result (tokens.new.items ≡ tokens.old.items ++ spell_constraint_content (view_constraint_content content.now)) }
{
    match content {
        ConstraintContent::Named {
            name,
            left_brace,
            items,
            right_brace,
        } => {
            push_name(tokens, *name)?;
            push_mark(tokens, Kind::LeftBrace, *left_brace)?;
            add_constraint_items(tokens, items.as_slice())?;
            push_mark(tokens, Kind::RightBrace, *right_brace)
        }
        ConstraintContent::Set(constraint) => add_constraint(tokens, constraint),
    }
}
