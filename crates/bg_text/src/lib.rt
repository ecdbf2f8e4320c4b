//! Texts as data: tokens, and programs as they are written.
#![tactic(auto)]

mod expr;
pub mod laws;
mod token;
mod tree;

pub use expr::{InfixSign, Name, PrefixSign, TreeBracket, TreeExpr, TreeLink, TreePrefix};
pub use token::{Kind, Token};
pub use tree::{
    Attribute, AttributeArg, Body, Constants, Decl, Formals, Function, FunctionArg, FunctionResult,
    Implementation, Procedure, Signature, Spec, TreeArm, TreeCall, TreeClause, TreeGuard,
    TreeIndices, TreeStmt, TreeTarget, TreeType, TypeBracket, TypeDecl, Variables,
};
