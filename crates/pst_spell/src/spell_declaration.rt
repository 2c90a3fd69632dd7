//! The tokens of declarations.
ghost use Rattle.std.specs.Prelude.{◌≡◌, ◌++◌, ◌∷◌, [], OnOk, map};
ghost use Rattle.pst_token.specs.declared.kind.Kind.TheVariants.{LeftParenthesis, RightParenthesis};
ghost use Rattle.std.specs.List.{flat_map};
ghost use Rattle.std.specs.Option.{option_map};
ghost use Rattle.pst_ast.specs.Marks.{mark, spell_option};
ghost use Rattle.pst_ast.specs.DeclarationView.{view_action, view_action_part, view_answer, view_claim, view_component, view_component_part, view_enum, view_enum_item, view_enum_value, view_field, view_function, view_item, view_members, view_next_enum_item, view_next_field, view_next_parameter, view_next_target, view_object, view_object_part, view_parameter, view_parameters, view_pool, view_pool_bind, view_reference, view_size, view_target, view_targets};
ghost use Rattle.pst_ast.specs.DeclarationSpelling.{spell_action, spell_action_part, spell_answer, spell_base, spell_claim, spell_component, spell_component_part, spell_enum, spell_enum_item, spell_enum_value, spell_field, spell_function, spell_item, spell_members, spell_next_enum_item, spell_next_field, spell_next_parameter, spell_next_target, spell_object, spell_object_part, spell_parameter, spell_parameters, spell_pool, spell_pool_bind, spell_reference, spell_size, spell_target, spell_targets};

use pst_ast::{
    ActionNode, ActionPart, AnswerNode, BaseNode, ClaimNode, ComponentNode, ComponentPart,
    EnumItem, EnumNode, EnumValue, FieldNode, FunctionNode, Item, MembersNode, NextEnumItem,
    NextField, NextParameter, NextTarget, ObjectNode, ObjectPart, ParameterNode, ParametersNode,
    PoolBindNode, PoolNode, ReferenceNode, SizeNode, TargetNode, TargetsNode,
};
use pst_base::{NoMemory, Place};
use pst_spell_act::spell_activity::add_activity;
use pst_spell_parts::marks::{
    kind_of_claim_word, kind_of_object_word, kind_of_reference_word, push_mark, push_name,
    push_optional_mark,
};
use pst_spell_parts::spell_body::add_body;
use pst_spell_parts::spell_constraint::add_constraint_declaration;
use pst_spell_parts::spell_expression::{add_expr, add_part};
use pst_spell_parts::spell_shared::{
    add_dot_name, add_dot_names, add_names, add_plain, add_type, add_type_name,
};
use pst_token::{Kind, Token};

// One part of `unit` before its end.
fn add_item(tokens: &mut Vec<Token>, item: &Item) -> Result<(), NoMemory>
    ensures { OnOk result (tokens.new.items ≡ tokens.old.items ++ spell_item (view_item item.now)) }
{
    match item {
        Item::Component(component) => add_component(tokens, component),
        Item::Object(object) => add_object(tokens, object),
        Item::Enum(enum_node) => add_enum(tokens, enum_node),
        Item::Function(function) => add_function(tokens, function),
        Item::Empty(place) => push_mark(tokens, Kind::Semicolon, *place),
    }
}

// Adds the tokens of each in order.
pub fn add_items(tokens: &mut Vec<Token>, items: &[Item]) -> Result<(), NoMemory>
    ensures { OnOk result (tokens.new.items ≡ tokens.old.items ++ flat_map spell_item (map view_item items.now)) }
{
    for item in items {
        add_item(tokens, item)?;
    }
    Ok(())
}

// component = "component" NAME "{" { action | object | enum | function | pool | poolbind | members | ";" } "}"
fn add_component(tokens: &mut Vec<Token>, component: &ComponentNode) -> Result<(), NoMemory>
    ensures { OnOk result (tokens.new.items ≡ tokens.old.items ++ spell_component (view_component component.now)) }
{
    push_mark(tokens, Kind::Component, component.component)?;
    push_name(tokens, component.name)?;
    push_mark(tokens, Kind::LeftBrace, component.left_brace)?;
    add_component_parts(tokens, component.parts.as_slice())?;
    push_mark(tokens, Kind::RightBrace, component.right_brace)
}

// One part of `component` between its braces.
fn add_component_part(tokens: &mut Vec<Token>, part: &ComponentPart) -> Result<(), NoMemory>
    ensures { OnOk result (tokens.new.items ≡ tokens.old.items ++ spell_component_part (view_component_part part.now)) }
{
    match part {
        ComponentPart::Action(action) => add_action(tokens, action),
        ComponentPart::Object(object) => add_object(tokens, object),
        ComponentPart::Enum(enum_node) => add_enum(tokens, enum_node),
        ComponentPart::Function(function) => add_function(tokens, function),
        ComponentPart::Pool(pool) => add_pool(tokens, pool),
        ComponentPart::PoolBind(bind) => add_pool_bind(tokens, bind),
        ComponentPart::Members(members) => add_members(tokens, members),
        ComponentPart::Empty(place) => push_mark(tokens, Kind::Semicolon, *place),
    }
}

// Adds the tokens of each in order.
fn add_component_parts(tokens: &mut Vec<Token>, parts: &[ComponentPart]) -> Result<(), NoMemory>
    ensures { OnOk result (tokens.new.items ≡ tokens.old.items ++ flat_map spell_component_part (map view_component_part parts.now)) }
{
    for part in parts {
        add_component_part(tokens, part)?;
    }
    Ok(())
}

// object = ("buffer"|"stream"|"state"|"resource") NAME "{" { field | constraint | ";" } "}"
fn add_object(tokens: &mut Vec<Token>, object: &ObjectNode) -> Result<(), NoMemory>
    ensures { OnOk result (tokens.new.items ≡ tokens.old.items ++ spell_object (view_object object.now)) }
{
    push_mark(tokens, kind_of_object_word(object.word), object.place)?;
    push_name(tokens, object.name)?;
    push_mark(tokens, Kind::LeftBrace, object.left_brace)?;
    add_object_parts(tokens, object.parts.as_slice())?;
    push_mark(tokens, Kind::RightBrace, object.right_brace)
}

// One part of `object` between its braces.
fn add_object_part(tokens: &mut Vec<Token>, part: &ObjectPart) -> Result<(), NoMemory>
    ensures { OnOk result (tokens.new.items ≡ tokens.old.items ++ spell_object_part (view_object_part part.now)) }
{
    match part {
        ObjectPart::Field(field) => add_field(tokens, field),
        ObjectPart::Constraint(declaration) => add_constraint_declaration(tokens, declaration),
        ObjectPart::Empty(place) => push_mark(tokens, Kind::Semicolon, *place),
    }
}

// Adds the tokens of each in order.
fn add_object_parts(tokens: &mut Vec<Token>, parts: &[ObjectPart]) -> Result<(), NoMemory>
    ensures { OnOk result (tokens.new.items ≡ tokens.old.items ++ flat_map spell_object_part (map view_object_part parts.now)) }
{
    for part in parts {
        add_object_part(tokens, part)?;
    }
    Ok(())
}

// enum = "enum" NAME "{" eitem { "," eitem } "}"
fn add_enum(tokens: &mut Vec<Token>, enum_node: &EnumNode) -> Result<(), NoMemory>
    ensures { OnOk result (tokens.new.items ≡ tokens.old.items ++ spell_enum (view_enum enum_node.now)) }
{
    push_mark(tokens, Kind::Enum, enum_node.enum_)?;
    push_name(tokens, enum_node.name)?;
    push_mark(tokens, Kind::LeftBrace, enum_node.left_brace)?;
    add_enum_item(tokens, &enum_node.first)?;
    add_next_enum_items(tokens, enum_node.rest.as_slice())?;
    push_mark(tokens, Kind::RightBrace, enum_node.right_brace)
}

// eitem = NAME [ "=" expr ]
fn add_enum_item(tokens: &mut Vec<Token>, item: &EnumItem) -> Result<(), NoMemory>
    ensures { OnOk result (tokens.new.items ≡ tokens.old.items ++ spell_enum_item (view_enum_item item.now)) }
{
    push_name(tokens, item.name)?;
    add_optional_enum_value(tokens, &item.value)
}

// "=" expr
fn add_enum_value(tokens: &mut Vec<Token>, value: &EnumValue) -> Result<(), NoMemory>
    ensures { OnOk result (tokens.new.items ≡ tokens.old.items ++ spell_enum_value (view_enum_value value.now)) }
{
    push_mark(tokens, Kind::Equal, value.equal)?;
    add_expr(tokens, &value.expr)
}

// Adds the tokens of a part that may be left out.
fn add_optional_enum_value(
    tokens: &mut Vec<Token>,
    part: &Option<EnumValue>,
) -> Result<(), NoMemory>
    ensures { OnOk result (tokens.new.items ≡ tokens.old.items ++ spell_option spell_enum_value (option_map view_enum_value part.now)) }
{
    match part {
        None => Ok(()),
        Some(part) => add_enum_value(tokens, part),
    }
}

// "," eitem
fn add_next_enum_item(tokens: &mut Vec<Token>, next: &NextEnumItem) -> Result<(), NoMemory>
    ensures { OnOk result (tokens.new.items ≡ tokens.old.items ++ spell_next_enum_item (view_next_enum_item next.now)) }
{
    push_mark(tokens, Kind::Comma, next.comma)?;
    add_enum_item(tokens, &next.item)
}

// Adds the tokens of each in order.
fn add_next_enum_items(tokens: &mut Vec<Token>, items: &[NextEnumItem]) -> Result<(), NoMemory>
    ensures { OnOk result (tokens.new.items ≡ tokens.old.items ++ flat_map spell_next_enum_item (map view_next_enum_item items.now)) }
{
    for next in items {
        add_next_enum_item(tokens, next)?;
    }
    Ok(())
}

// function = "import" ["target"] "function" ("void" | plain) NAME "(" [ param { "," param } ] ")" ";"
fn add_function(tokens: &mut Vec<Token>, function: &FunctionNode) -> Result<(), NoMemory>
    ensures { OnOk result (tokens.new.items ≡ tokens.old.items ++ spell_function (view_function function.now)) }
{
    push_mark(tokens, Kind::Import, function.import)?;
    push_optional_mark(tokens, Kind::Target, function.target)?;
    push_mark(tokens, Kind::Function, function.function)?;
    add_answer(tokens, &function.answer)?;
    push_name(tokens, function.name)?;
    add_parameter_list(
        tokens,
        function.left_parenthesis,
        &function.parameters,
        function.right_parenthesis,
    )?;
    push_mark(tokens, Kind::Semicolon, function.semicolon)
}

// "(" [ param { "," param } ] ")"
fn add_parameter_list(
    tokens: &mut Vec<Token>,
    left_parenthesis: Place,
    parameters: &Option<ParametersNode>,
    right_parenthesis: Place,
) -> Result<(), NoMemory>
    ensures { OnOk result (tokens.new.items ≡ tokens.old.items ++ mark LeftParenthesis left_parenthesis ∷ (spell_option spell_parameters (option_map view_parameters parameters.now) ++ mark RightParenthesis right_parenthesis ∷ [])) }
{
    push_mark(tokens, Kind::LeftParenthesis, left_parenthesis)?;
    add_optional_parameters(tokens, parameters)?;
    push_mark(tokens, Kind::RightParenthesis, right_parenthesis)
}

// "void" | plain
fn add_answer(tokens: &mut Vec<Token>, answer: &AnswerNode) -> Result<(), NoMemory>
    ensures { OnOk result (tokens.new.items ≡ tokens.old.items ++ spell_answer (view_answer answer.now)) }
{
    match answer {
        AnswerNode::Void(place) => push_mark(tokens, Kind::Void, *place),
        AnswerNode::Plain(plain) => add_plain(tokens, plain),
    }
}

// param { "," param }
fn add_parameters(tokens: &mut Vec<Token>, parameters: &ParametersNode) -> Result<(), NoMemory>
    ensures { OnOk result (tokens.new.items ≡ tokens.old.items ++ spell_parameters (view_parameters parameters.now)) }
{
    add_parameter(tokens, &parameters.first)?;
    add_next_parameters(tokens, parameters.rest.as_slice())
}

// Adds the tokens of a part that may be left out.
fn add_optional_parameters(
    tokens: &mut Vec<Token>,
    part: &Option<ParametersNode>,
) -> Result<(), NoMemory>
    ensures { OnOk result (tokens.new.items ≡ tokens.old.items ++ spell_option spell_parameters (option_map view_parameters part.now)) }
{
    match part {
        None => Ok(()),
        Some(part) => add_parameters(tokens, part),
    }
}

// param = ["input"] plain NAME
fn add_parameter(tokens: &mut Vec<Token>, parameter: &ParameterNode) -> Result<(), NoMemory>
    ensures { OnOk result (tokens.new.items ≡ tokens.old.items ++ spell_parameter (view_parameter parameter.now)) }
{
    push_optional_mark(tokens, Kind::Input, parameter.input)?;
    add_plain(tokens, &parameter.plain)?;
    push_name(tokens, parameter.name)
}

// "," param
fn add_next_parameter(tokens: &mut Vec<Token>, next: &NextParameter) -> Result<(), NoMemory>
    ensures { OnOk result (tokens.new.items ≡ tokens.old.items ++ spell_next_parameter (view_next_parameter next.now)) }
{
    push_mark(tokens, Kind::Comma, next.comma)?;
    add_parameter(tokens, &next.parameter)
}

// Adds the tokens of each in order.
fn add_next_parameters(
    tokens: &mut Vec<Token>,
    parameters: &[NextParameter],
) -> Result<(), NoMemory>
    ensures { OnOk result (tokens.new.items ≡ tokens.old.items ++ flat_map spell_next_parameter (map view_next_parameter parameters.now)) }
{
    for next in parameters {
        add_next_parameter(tokens, next)?;
    }
    Ok(())
}

// pool = "pool" [ "[" expr "]" ] tname NAME ";"
fn add_pool(tokens: &mut Vec<Token>, pool: &PoolNode) -> Result<(), NoMemory>
    ensures { OnOk result (tokens.new.items ≡ tokens.old.items ++ spell_pool (view_pool pool.now)) }
{
    push_mark(tokens, Kind::Pool, pool.pool)?;
    add_optional_size(tokens, &pool.size)?;
    add_type_name(tokens, &pool.object)?;
    push_name(tokens, pool.name)?;
    push_mark(tokens, Kind::Semicolon, pool.semicolon)
}

// "[" expr "]"
fn add_size(tokens: &mut Vec<Token>, size: &SizeNode) -> Result<(), NoMemory>
    ensures { OnOk result (tokens.new.items ≡ tokens.old.items ++ spell_size (view_size size.now)) }
{
    push_mark(tokens, Kind::LeftBracket, size.left_bracket)?;
    add_expr(tokens, &size.expr)?;
    push_mark(tokens, Kind::RightBracket, size.right_bracket)
}

// Adds the tokens of a part that may be left out.
fn add_optional_size(tokens: &mut Vec<Token>, part: &Option<SizeNode>) -> Result<(), NoMemory>
    ensures { OnOk result (tokens.new.items ≡ tokens.old.items ++ spell_option spell_size (option_map view_size part.now)) }
{
    match part {
        None => Ok(()),
        Some(part) => add_size(tokens, part),
    }
}

// poolbind = "bind" NAME ( "*" | target | "{" target {"," target} "}" ) ";"
fn add_pool_bind(tokens: &mut Vec<Token>, bind: &PoolBindNode) -> Result<(), NoMemory>
    ensures { OnOk result (tokens.new.items ≡ tokens.old.items ++ spell_pool_bind (view_pool_bind bind.now)) }
{
    push_mark(tokens, Kind::Bind, bind.bind)?;
    push_name(tokens, bind.pool)?;
    add_targets(tokens, &bind.targets)?;
    push_mark(tokens, Kind::Semicolon, bind.semicolon)
}

// "*" | target | "{" target {"," target} "}"
fn add_targets(tokens: &mut Vec<Token>, targets: &TargetsNode) -> Result<(), NoMemory>
    ensures { OnOk result (tokens.new.items ≡ tokens.old.items ++ spell_targets (view_targets targets.now)) }
{
    match targets {
        TargetsNode::All(place) => push_mark(tokens, Kind::Star, *place),
        TargetsNode::One(target) => add_target(tokens, target),
        TargetsNode::Several {
            left_brace,
            first,
            rest,
            right_brace,
        } => {
            push_mark(tokens, Kind::LeftBrace, *left_brace)?;
            add_target(tokens, first)?;
            add_next_targets(tokens, rest.as_slice())?;
            push_mark(tokens, Kind::RightBrace, *right_brace)
        }
    }
}

// target = NAME "." NAME { "." NAME }
fn add_target(tokens: &mut Vec<Token>, target: &TargetNode) -> Result<(), NoMemory>
    ensures { OnOk result (tokens.new.items ≡ tokens.old.items ++ spell_target (view_target target.now)) }
{
    push_name(tokens, target.first)?;
    add_dot_name(tokens, &target.second)?;
    add_dot_names(tokens, target.rest.as_slice())
}

// "," target
fn add_next_target(tokens: &mut Vec<Token>, next: &NextTarget) -> Result<(), NoMemory>
    ensures { OnOk result (tokens.new.items ≡ tokens.old.items ++ spell_next_target (view_next_target next.now)) }
{
    push_mark(tokens, Kind::Comma, next.comma)?;
    add_target(tokens, &next.target)
}

// Adds the tokens of each in order.
fn add_next_targets(tokens: &mut Vec<Token>, targets: &[NextTarget]) -> Result<(), NoMemory>
    ensures { OnOk result (tokens.new.items ≡ tokens.old.items ++ flat_map spell_next_target (map view_next_target targets.now)) }
{
    for next in targets {
        add_next_target(tokens, next)?;
    }
    Ok(())
}

// members = tname NAME { "," NAME } ";"
fn add_members(tokens: &mut Vec<Token>, members: &MembersNode) -> Result<(), NoMemory>
    ensures { OnOk result (tokens.new.items ≡ tokens.old.items ++ spell_members (view_members members.now)) }
{
    add_type_name(tokens, &members.member_type)?;
    add_names(tokens, &members.names)?;
    push_mark(tokens, Kind::Semicolon, members.semicolon)
}

// action = ["abstract"] "action" NAME [ ":" tname ] "{" { field | ref | claim | members | constraint | activity | body | ";" } "}"
fn add_action(tokens: &mut Vec<Token>, action: &ActionNode) -> Result<(), NoMemory>
    ensures { OnOk result (tokens.new.items ≡ tokens.old.items ++ spell_action (view_action action.now)) }
{
    push_optional_mark(tokens, Kind::Abstract, action.abstract_)?;
    push_mark(tokens, Kind::Action, action.action)?;
    push_name(tokens, action.name)?;
    add_optional_base(tokens, &action.base)?;
    push_mark(tokens, Kind::LeftBrace, action.left_brace)?;
    add_action_parts(tokens, action.parts.as_slice())?;
    push_mark(tokens, Kind::RightBrace, action.right_brace)
}

// ":" tname
fn add_base(tokens: &mut Vec<Token>, base: &BaseNode) -> Result<(), NoMemory>
    ensures { OnOk result (tokens.new.items ≡ tokens.old.items ++ spell_base base.now) }
{
    push_mark(tokens, Kind::Colon, base.colon)?;
    add_type_name(tokens, &base.name)
}

// Adds the tokens of a part that may be left out.
fn add_optional_base(tokens: &mut Vec<Token>, part: &Option<BaseNode>) -> Result<(), NoMemory>
    ensures { OnOk result (tokens.new.items ≡ tokens.old.items ++ spell_option spell_base part.now) }
{
    match part {
        None => Ok(()),
        Some(part) => add_base(tokens, part),
    }
}

// One part of `action` between its braces.
fn add_action_part(tokens: &mut Vec<Token>, part: &ActionPart) -> Result<(), NoMemory>
    ensures { OnOk result (tokens.new.items ≡ tokens.old.items ++ spell_action_part (view_action_part part.now)) }
{
    match part {
        ActionPart::Field(field) => add_field(tokens, field),
        ActionPart::Reference(reference) => add_reference(tokens, reference),
        ActionPart::Claim(claim) => add_claim(tokens, claim),
        ActionPart::Members(members) => add_members(tokens, members),
        ActionPart::Constraint(declaration) => add_constraint_declaration(tokens, declaration),
        ActionPart::Activity(activity) => add_activity(tokens, activity),
        ActionPart::Body(body) => add_body(tokens, body),
        ActionPart::Empty(place) => push_mark(tokens, Kind::Semicolon, *place),
    }
}

// Adds the tokens of each in order.
fn add_action_parts(tokens: &mut Vec<Token>, parts: &[ActionPart]) -> Result<(), NoMemory>
    ensures { OnOk result (tokens.new.items ≡ tokens.old.items ++ flat_map spell_action_part (map view_action_part parts.now)) }
{
    for part in parts {
        add_action_part(tokens, part)?;
    }
    Ok(())
}

// field = "rand" type NAME [ index ] { "," NAME [ index ] } ";"
fn add_field(tokens: &mut Vec<Token>, field: &FieldNode) -> Result<(), NoMemory>
    ensures { OnOk result (tokens.new.items ≡ tokens.old.items ++ spell_field (view_field field.now)) }
{
    push_mark(tokens, Kind::Rand, field.rand)?;
    add_type(tokens, &field.field_type)?;
    add_part(tokens, &field.first)?;
    add_next_fields(tokens, field.rest.as_slice())?;
    push_mark(tokens, Kind::Semicolon, field.semicolon)
}

// "," NAME [ index ]
fn add_next_field(tokens: &mut Vec<Token>, next: &NextField) -> Result<(), NoMemory>
    ensures { OnOk result (tokens.new.items ≡ tokens.old.items ++ spell_next_field (view_next_field next.now)) }
{
    push_mark(tokens, Kind::Comma, next.comma)?;
    add_part(tokens, &next.part)
}

// Adds the tokens of each in order.
fn add_next_fields(tokens: &mut Vec<Token>, fields: &[NextField]) -> Result<(), NoMemory>
    ensures { OnOk result (tokens.new.items ≡ tokens.old.items ++ flat_map spell_next_field (map view_next_field fields.now)) }
{
    for next in fields {
        add_next_field(tokens, next)?;
    }
    Ok(())
}

// ref = ("input"|"output") tname NAME { "," NAME } ";"
fn add_reference(tokens: &mut Vec<Token>, reference: &ReferenceNode) -> Result<(), NoMemory>
    ensures { OnOk result (tokens.new.items ≡ tokens.old.items ++ spell_reference (view_reference reference.now)) }
{
    push_mark(
        tokens,
        kind_of_reference_word(reference.word),
        reference.place,
    )?;
    add_type_name(tokens, &reference.object)?;
    add_names(tokens, &reference.names)?;
    push_mark(tokens, Kind::Semicolon, reference.semicolon)
}

// claim = ("lock"|"share") tname NAME { "," NAME } ";"
fn add_claim(tokens: &mut Vec<Token>, claim: &ClaimNode) -> Result<(), NoMemory>
    ensures { OnOk result (tokens.new.items ≡ tokens.old.items ++ spell_claim (view_claim claim.now)) }
{
    push_mark(tokens, kind_of_claim_word(claim.word), claim.place)?;
    add_type_name(tokens, &claim.object)?;
    add_names(tokens, &claim.names)?;
    push_mark(tokens, Kind::Semicolon, claim.semicolon)
}
