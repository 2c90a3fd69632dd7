//! Declarations.
use crate::{
    ActivityNode, BodyNode, ConstraintDeclaration, DotName, ExprNode, Name, NamesNode, PartNode,
    PlainNode, TypeName, TypeNode,
};
use pst_base::Place;
use pst_token::Token;

/// `unit = { component | object | enum | function | ";" } END`
#[derive(Drop)]
pub struct Unit {
    /// The declarations.
    pub items: Vec<Item>,
    /// The token behind them.
    pub finish: Token,
}

/// One part of `unit` before its end.
#[derive(Drop)]
pub enum Item {
    /// `component`
    Component(Box<ComponentNode>),
    /// `object`
    Object(Box<ObjectNode>),
    /// `enum`
    Enum(Box<EnumNode>),
    /// `function`
    Function(Box<FunctionNode>),
    /// `";"`
    Empty(Place),
}

/// `component = "component" NAME "{" { action | object | enum | function | pool | poolbind | members | ";" } "}"`
#[derive(Drop)]
pub struct ComponentNode {
    /// `component`
    pub component: Place,
    /// The name.
    pub name: Name,
    /// `{`
    pub left_brace: Place,
    /// The declarations in it.
    pub parts: Vec<ComponentPart>,
    /// `}`
    pub right_brace: Place,
}

/// One part of `component` between its braces.
#[derive(Drop)]
pub enum ComponentPart {
    /// `action`
    Action(Box<ActionNode>),
    /// `object`
    Object(Box<ObjectNode>),
    /// `enum`
    Enum(Box<EnumNode>),
    /// `function`
    Function(Box<FunctionNode>),
    /// `pool`
    Pool(Box<PoolNode>),
    /// `poolbind`
    PoolBind(Box<PoolBindNode>),
    /// `members`
    Members(Box<MembersNode>),
    /// `";"`
    Empty(Place),
}

/// `object = ("buffer"|"stream"|"state"|"resource") NAME "{" { field | constraint | ";" } "}"`
#[derive(Drop)]
pub struct ObjectNode {
    /// Which of the four words.
    pub word: ObjectWord,
    /// The word's place.
    pub place: Place,
    /// The name.
    pub name: Name,
    /// `{`
    pub left_brace: Place,
    /// The declarations in it.
    pub parts: Vec<ObjectPart>,
    /// `}`
    pub right_brace: Place,
}

/// The word that begins an object.
#[derive(Clone, Copy, Debug, PartialEq, Eq)]
pub enum ObjectWord {
    /// `buffer`
    Buffer,
    /// `stream`
    Stream,
    /// `state`
    State,
    /// `resource`
    Resource,
}

/// One part of `object` between its braces.
#[derive(Drop)]
pub enum ObjectPart {
    /// `field`
    Field(Box<FieldNode>),
    /// `constraint`
    Constraint(Box<ConstraintDeclaration>),
    /// `";"`
    Empty(Place),
}

/// `enum = "enum" NAME "{" eitem { "," eitem } "}"`
#[derive(Drop)]
pub struct EnumNode {
    /// `enum`
    pub enum_: Place,
    /// The name.
    pub name: Name,
    /// `{`
    pub left_brace: Place,
    /// The first item.
    pub first: EnumItem,
    /// The items behind it.
    pub rest: Vec<NextEnumItem>,
    /// `}`
    pub right_brace: Place,
}

/// `eitem = NAME [ "=" expr ]`
#[derive(Drop)]
pub struct EnumItem {
    /// The name.
    pub name: Name,
    /// The value.
    pub value: Option<EnumValue>,
}

/// `"=" expr`
#[derive(Drop)]
pub struct EnumValue {
    /// `=`
    pub equal: Place,
    /// The expression.
    pub expr: ExprNode,
}

/// `"," eitem`
#[derive(Drop)]
pub struct NextEnumItem {
    /// `,`
    pub comma: Place,
    /// The item.
    pub item: EnumItem,
}

/// `function = "import" ["target"] "function" ("void" | plain) NAME "(" [ param { "," param } ] ")" ";"`
#[derive(Drop)]
pub struct FunctionNode {
    /// `import`
    pub import: Place,
    /// `target`, where it stands.
    pub target: Option<Place>,
    /// `function`
    pub function: Place,
    /// The type of the answer.
    pub answer: AnswerNode,
    /// The name.
    pub name: Name,
    /// `(`
    pub left_parenthesis: Place,
    /// The parameters.
    pub parameters: Option<ParametersNode>,
    /// `)`
    pub right_parenthesis: Place,
    /// `;`
    pub semicolon: Place,
}

/// `"void" | plain`
#[derive(Drop)]
pub enum AnswerNode {
    /// `void`
    Void(Place),
    /// A plain type.
    Plain(PlainNode),
}

/// `param { "," param }`
#[derive(Drop)]
pub struct ParametersNode {
    /// The first parameter.
    pub first: ParameterNode,
    /// The parameters behind it.
    pub rest: Vec<NextParameter>,
}

/// `param = ["input"] plain NAME`
#[derive(Drop)]
pub struct ParameterNode {
    /// `input`, where it stands.
    pub input: Option<Place>,
    /// The type.
    pub plain: PlainNode,
    /// The name.
    pub name: Name,
}

/// `"," param`
#[derive(Drop)]
pub struct NextParameter {
    /// `,`
    pub comma: Place,
    /// The parameter.
    pub parameter: ParameterNode,
}

/// `pool = "pool" [ "[" expr "]" ] tname NAME ";"`
#[derive(Drop)]
pub struct PoolNode {
    /// `pool`
    pub pool: Place,
    /// The size.
    pub size: Option<SizeNode>,
    /// The type of its objects.
    pub object: TypeName,
    /// The name.
    pub name: Name,
    /// `;`
    pub semicolon: Place,
}

/// `"[" expr "]"`
#[derive(Drop)]
pub struct SizeNode {
    /// `[`
    pub left_bracket: Place,
    /// The size.
    pub expr: ExprNode,
    /// `]`
    pub right_bracket: Place,
}

/// `poolbind = "bind" NAME ( "*" | target | "{" target {"," target} "}" ) ";"`
#[derive(Drop)]
pub struct PoolBindNode {
    /// `bind`
    pub bind: Place,
    /// The pool's name.
    pub pool: Name,
    /// What is bound to it.
    pub targets: TargetsNode,
    /// `;`
    pub semicolon: Place,
}

/// `"*" | target | "{" target {"," target} "}"`
#[derive(Drop)]
pub enum TargetsNode {
    /// `*`
    All(Place),
    /// One target.
    One(TargetNode),
    /// Targets in braces.
    Several {
        /// `{`
        left_brace: Place,
        /// The first target.
        first: TargetNode,
        /// The targets behind it.
        rest: Vec<NextTarget>,
        /// `}`
        right_brace: Place,
    },
}

/// `target = NAME "." NAME { "." NAME }`
#[derive(Drop)]
pub struct TargetNode {
    /// The first name.
    pub first: Name,
    /// The second name.
    pub second: DotName,
    /// The names behind it.
    pub rest: Vec<DotName>,
}

/// `"," target`
#[derive(Drop)]
pub struct NextTarget {
    /// `,`
    pub comma: Place,
    /// The target.
    pub target: TargetNode,
}

/// `members = tname NAME { "," NAME } ";"`
#[derive(Drop)]
pub struct MembersNode {
    /// Their type.
    pub member_type: TypeName,
    /// Their names.
    pub names: NamesNode,
    /// `;`
    pub semicolon: Place,
}

/// `action = ["abstract"] "action" NAME [ ":" tname ] "{" { field | ref | claim | members | constraint | activity | body | ";" } "}"`
#[derive(Drop)]
pub struct ActionNode {
    /// `abstract`, where it stands.
    pub abstract_: Option<Place>,
    /// `action`
    pub action: Place,
    /// The name.
    pub name: Name,
    /// The base.
    pub base: Option<BaseNode>,
    /// `{`
    pub left_brace: Place,
    /// The declarations in it.
    pub parts: Vec<ActionPart>,
    /// `}`
    pub right_brace: Place,
}

/// `":" tname`
#[derive(Drop)]
pub struct BaseNode {
    /// `:`
    pub colon: Place,
    /// The base's name.
    pub name: TypeName,
}

/// One part of `action` between its braces.
#[derive(Drop)]
pub enum ActionPart {
    /// `field`
    Field(Box<FieldNode>),
    /// `ref`
    Reference(Box<ReferenceNode>),
    /// `claim`
    Claim(Box<ClaimNode>),
    /// `members`
    Members(Box<MembersNode>),
    /// `constraint`
    Constraint(Box<ConstraintDeclaration>),
    /// `activity`
    Activity(Box<ActivityNode>),
    /// `body`
    Body(Box<BodyNode>),
    /// `";"`
    Empty(Place),
}

/// `field = "rand" type NAME [ index ] { "," NAME [ index ] } ";"`
#[derive(Drop)]
pub struct FieldNode {
    /// `rand`
    pub rand: Place,
    /// The type.
    pub field_type: TypeNode,
    /// The first name, and the size of an array.
    pub first: PartNode,
    /// The names behind it.
    pub rest: Vec<NextField>,
    /// `;`
    pub semicolon: Place,
}

/// `"," NAME [ index ]`
#[derive(Drop)]
pub struct NextField {
    /// `,`
    pub comma: Place,
    /// The name, and the size of an array.
    pub part: PartNode,
}

/// `ref = ("input"|"output") tname NAME { "," NAME } ";"`
#[derive(Drop)]
pub struct ReferenceNode {
    /// Which of the two words.
    pub word: ReferenceWord,
    /// The word's place.
    pub place: Place,
    /// The type of the object.
    pub object: TypeName,
    /// The names.
    pub names: NamesNode,
    /// `;`
    pub semicolon: Place,
}

/// The word that begins a reference.
#[derive(Clone, Copy, Debug, PartialEq, Eq)]
pub enum ReferenceWord {
    /// `input`
    Input,
    /// `output`
    Output,
}

/// `claim = ("lock"|"share") tname NAME { "," NAME } ";"`
#[derive(Drop)]
pub struct ClaimNode {
    /// Which of the two words.
    pub word: ClaimWord,
    /// The word's place.
    pub place: Place,
    /// The type of the resource.
    pub object: TypeName,
    /// The names.
    pub names: NamesNode,
    /// `;`
    pub semicolon: Place,
}

/// The word that begins a claim.
#[derive(Clone, Copy, Debug, PartialEq, Eq)]
pub enum ClaimWord {
    /// `lock`
    Lock,
    /// `share`
    Share,
}
