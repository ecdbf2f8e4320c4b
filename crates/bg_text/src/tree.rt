//! A program as it is written: parentheses, groupings, names and the positions that a fault or a report speaks of are kept.

use crate::expr::{Name, TreeExpr};
use bg_base::Pos;

/// A type. A row of map brackets before one result type is one node.
#[derive(Drop)]
#[cycle(tree_type)]
pub enum TreeType {
    Int(Pos),
    Bool(Pos),
    Named(Name),
    Parens(Pos, Box<TreeType>),
    Map(Vec<TypeBracket>, Box<TreeType>),
}

/// The index types of one bracket, and where it opens.
#[derive(Drop)]
#[cycle(tree_type)]
pub struct TypeBracket {
    pub pos: Pos,
    pub indices: Vec<TreeType>,
}

/// An argument of an attribute: an expression, or a string with its quotes.
#[derive(Drop)]
pub enum AttributeArg {
    Formula(TreeExpr),
    Quoted(Vec<u8>),
}

/// An attribute, `{:name args}`.
#[derive(Drop)]
pub struct Attribute {
    pub name: Name,
    pub args: Vec<AttributeArg>,
}

/// Names with one type, with the attributes before them.
#[derive(Drop)]
pub struct Formals {
    pub attributes: Vec<Attribute>,
    pub names: Vec<Name>,
    pub ty: TreeType,
}

/// A clause: where its first word stands (`free` where it is free), and what it says.
#[derive(Drop)]
pub struct TreeClause {
    pub pos: Pos,
    pub is_free: bool,
    pub attributes: Vec<Attribute>,
    pub formula: TreeExpr,
}

/// A guard: `*`, or an expression.
#[derive(Drop)]
pub enum TreeGuard {
    Star(Pos),
    Test(TreeExpr),
}

/// The left side of an assignment.
#[derive(Drop)]
pub struct TreeTarget {
    pub name: Name,
    pub brackets: Vec<TreeIndices>,
}

/// One bracket of a left side, and where it opens.
#[derive(Drop)]
pub struct TreeIndices {
    pub pos: Pos,
    pub indices: Vec<TreeExpr>,
}

/// A call: `call takes := procedure(args);`, without `:=` where nothing takes a result.
#[derive(Drop)]
pub struct TreeCall {
    pub pos: Pos,
    pub attributes: Vec<Attribute>,
    pub takes: Vec<Name>,
    pub procedure: Name,
    pub args: Vec<TreeExpr>,
}

/// A statement, or a label. The position is that of the first word, of an assignment that of `:=`.
/// A chain of `else if` is one node with its arms; `IfElse` has a last block besides.
#[derive(Drop)]
#[cycle(tree_stmt)]
pub enum TreeStmt {
    Label(Name),
    Assert(TreeClause),
    Assume(TreeClause),
    Havoc(Pos, Vec<Name>),
    Assign(Pos, Vec<TreeTarget>, Vec<TreeExpr>),
    Call(TreeCall),
    If(Pos, Vec<TreeArm>),
    IfElse(Pos, Vec<TreeArm>, Vec<TreeStmt>),
    While(Pos, TreeGuard, Vec<TreeClause>, Vec<TreeStmt>),
    Break(Pos, Option<Name>),
    Goto(Pos, Vec<Name>),
    Return(Pos),
}

/// A guard and the block that it guards.
#[derive(Drop)]
#[cycle(tree_stmt)]
pub struct TreeArm {
    pub guard: TreeGuard,
    pub block: Vec<TreeStmt>,
}

/// A type that is declared, and what it stands for where it is a synonym.
#[derive(Drop)]
pub struct TypeDecl {
    pub name: Name,
    pub synonym: Option<TreeType>,
}

/// An argument of a function, or its result, with a name or without.
#[derive(Drop)]
pub struct FunctionArg {
    pub name: Option<Name>,
    pub ty: TreeType,
}

/// How a function's result is written: `returns (arg)`, or `: type`.
#[derive(Drop)]
pub enum FunctionResult {
    Returns(FunctionArg),
    Colon(TreeType),
}

/// The parameters and the results of a procedure; `returns` may be left out.
#[derive(Drop)]
pub struct Signature {
    pub params: Vec<Formals>,
    pub results: Option<Vec<Formals>>,
}

/// A part of a specification.
#[derive(Drop)]
pub enum Spec {
    Requires(TreeClause),
    Ensures(TreeClause),
    Modifies(Pos, Vec<Name>),
}

/// One `var` with its groups of names.
#[derive(Drop)]
pub struct Variables {
    pub pos: Pos,
    pub groups: Vec<Formals>,
}

/// A body: its declarations of locals, and its statements.
#[derive(Drop)]
pub struct Body {
    pub locals: Vec<Variables>,
    pub stmts: Vec<TreeStmt>,
}

/// Constants of one type, with the position of `const`.
#[derive(Drop)]
pub struct Constants {
    pub pos: Pos,
    pub is_unique: bool,
    pub formals: Formals,
}

/// A function, with the position of `function`.
#[derive(Drop)]
pub struct Function {
    pub pos: Pos,
    pub attributes: Vec<Attribute>,
    pub name: Name,
    pub args: Vec<FunctionArg>,
    pub result: FunctionResult,
    pub body: Option<TreeExpr>,
}

/// A procedure, with the position of its keyword; its body is its one implementation of its own.
#[derive(Drop)]
pub struct Procedure {
    pub pos: Pos,
    pub attributes: Vec<Attribute>,
    pub name: Name,
    pub signature: Signature,
    pub specs: Vec<Spec>,
    pub body: Option<Body>,
}

/// An implementation, with the position of its keyword.
#[derive(Drop)]
pub struct Implementation {
    pub pos: Pos,
    pub attributes: Vec<Attribute>,
    pub name: Name,
    pub signature: Signature,
    pub body: Body,
}

/// A declaration.
#[derive(Drop)]
pub enum Decl {
    Types(Pos, Vec<Attribute>, Vec<TypeDecl>),
    Constants(Constants),
    Function(Function),
    Axiom(Pos, Vec<Attribute>, TreeExpr),
    Variables(Variables),
    Procedure(Procedure),
    Implementation(Implementation),
}
