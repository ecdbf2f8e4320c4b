//! A program whose names are numbers. Names, positions and the forms of writing that a fault or a report speaks of are kept.

use bg_base::{CandId, Pos};
use bg_text::{InfixSign, Name, TreePrefix};

/// A variable: a global, or one of the frame, in which parameters, results and locals stand in this order.
#[derive(Clone, Copy, PartialEq, Eq, Debug)]
pub enum Variable {
    Global(u32),
    Local(u32),
}

/// A type as it is written. A declared type has the number of its declaration.
#[derive(Drop)]
#[cycle(written_type)]
pub enum WrittenType {
    Int(Pos),
    Bool(Pos),
    Declared(Pos, u32),
    Parens(Pos, Box<WrittenType>),
    Map(Vec<IndexTypes>, Box<WrittenType>),
}

/// The index types of one bracket, and where it opens.
#[derive(Drop)]
#[cycle(written_type)]
pub struct IndexTypes {
    pub pos: Pos,
    pub indices: Vec<WrittenType>,
}

/// An expression. A chain of one level, a row of prefix signs and a row of brackets are one node each.
/// The position of a node is that of its first token, of an infix sign or a bracket its own.
#[derive(Drop)]
#[cycle(expr)]
pub enum Expr {
    Number(Pos, i128),
    Truth(Pos, bool),
    Constant(Pos, u32),
    Read(Pos, Variable),
    Apply(Pos, u32, Vec<Expr>),
    Old(Pos, Box<Expr>),
    Parens(Pos, Box<Expr>),
    Prefix(Vec<TreePrefix>, Box<Expr>),
    Postfix(Box<Expr>, Vec<Bracket>),
    Chain(Box<Expr>, Vec<Link>),
}

/// One more operand of a chain, with the sign before it.
#[derive(Drop)]
#[cycle(expr)]
pub struct Link {
    pub pos: Pos,
    pub sign: InfixSign,
    pub operand: Expr,
}

/// A bracket behind an expression, with the value that an update has.
#[derive(Drop)]
#[cycle(expr)]
pub enum Bracket {
    Select(Pos, Vec<Expr>),
    Update(Pos, Vec<Expr>, Expr),
}

/// A clause: where its first word stands, its number, and what it says behind the candidate that guards it.
#[derive(Drop)]
pub struct Clause {
    pub pos: Pos,
    pub id: u32,
    pub is_free: bool,
    pub candidate: Option<CandId>,
    pub formula: Expr,
}

/// A guard: `*`, or an expression.
#[derive(Drop)]
pub enum Guard {
    Star,
    Test(Expr),
}

/// A variable that is assigned, and where its name stands.
#[derive(Clone, Copy, PartialEq, Eq, Debug)]
pub struct Placed {
    pub pos: Pos,
    pub variable: Variable,
}

/// The left side of an assignment.
#[derive(Drop)]
pub struct Target {
    pub placed: Placed,
    pub brackets: Vec<Indices>,
}

/// One bracket of a left side, and where it opens.
#[derive(Drop)]
pub struct Indices {
    pub pos: Pos,
    pub indices: Vec<Expr>,
}

/// A call: its number, where `call` and the procedure's name stand, and the variables that take the results.
#[derive(Drop)]
pub struct Call {
    pub pos: Pos,
    pub site: u32,
    pub name_pos: Pos,
    pub procedure: u32,
    pub args: Vec<Expr>,
    pub takes: Vec<Placed>,
}

/// A statement, or a label. Labels are numbered in their implementation, loops and arms in the program.
/// The arms of a chain of `else if` have consecutive numbers.
#[derive(Drop)]
#[cycle(stmt)]
pub enum Stmt {
    Label(u32),
    Assert(Clause),
    Assume(Expr),
    Havoc(Vec<Placed>),
    Assign(Pos, Vec<Target>, Vec<Expr>),
    Invoke(Call),
    If(u32, Vec<Arm>, Vec<Stmt>),
    While(u32, Pos, Guard, Vec<Clause>, Vec<Stmt>),
    Break(u32),
    Goto(Vec<u32>),
    Return,
}

/// A guard and the block that it guards.
#[derive(Drop)]
#[cycle(stmt)]
pub struct Arm {
    pub guard: Guard,
    pub body: Vec<Stmt>,
}

/// A type that is declared, and what it stands for where it is a synonym.
#[derive(Drop)]
pub struct TypeName {
    pub name: Name,
    pub synonym: Option<WrittenType>,
}

/// A variable's declaration.
#[derive(Drop)]
pub struct Declared {
    pub name: Name,
    pub ty: WrittenType,
}

/// A constant that is no candidate.
#[derive(Drop)]
pub struct Constant {
    pub name: Name,
    pub is_unique: bool,
    pub ty: WrittenType,
}

/// A function, with its body where it has one; the arguments are the frame of the body.
#[derive(Drop)]
pub struct Function {
    pub name: Name,
    pub params: Vec<WrittenType>,
    pub result: WrittenType,
    pub body: Option<Expr>,
}

/// A procedure; its clauses speak of parameters and results by their places in the frame.
#[derive(Drop)]
pub struct Procedure {
    pub pos: Pos,
    pub name: Name,
    pub params: Vec<Declared>,
    pub results: Vec<Declared>,
    pub modifies: Vec<u32>,
    pub requires_: Vec<Clause>,
    pub ensures_: Vec<Clause>,
}

/// An implementation, with its own names for the parameters and results.
#[derive(Drop)]
pub struct Implementation {
    pub pos: Pos,
    pub name: Name,
    pub procedure: u32,
    pub params: Vec<Declared>,
    pub results: Vec<Declared>,
    pub locals: Vec<Declared>,
    pub body: Vec<Stmt>,
}

/// A program: the declarations of each kind, in the order of the text.
#[derive(Drop)]
pub struct Resolved {
    pub types: Vec<TypeName>,
    pub constants: Vec<Constant>,
    pub candidates: Vec<Name>,
    pub globals: Vec<Declared>,
    pub functions: Vec<Function>,
    pub axioms: Vec<Expr>,
    pub procedures: Vec<Procedure>,
    pub implementations: Vec<Implementation>,
}
