//! Certificates as their text has them: candidates by name, all numbers as they are written.
use bg_cert::Named;
use bg_rows::Step;

/// A term of a row, with what it is multiplied by.
#[derive(Clone, Copy)]
pub struct Term {
    pub term: u128,
    pub by: i128,
}

/// A row of a table: the sum of its terms, each times its factor, is at most the bound.
#[derive(Drop)]
pub struct TextRow {
    pub bound: i128,
    pub terms: Vec<Term>,
}

/// A node of a case tree, as `bg_cert` has it, but for a unit, which names its candidate. The nodes
/// stand before their children, the child that decides true first.
#[derive(Drop)]
pub enum TextNode<'a> {
    Split(u128),
    Bound(u128, i128),
    Cut(u128),
    Lemma(Vec<Named>),
    Clause(u128),
    Unit(&'a [u8]),
    Known(u128),
    Rows(Vec<Step>),
}

/// A line of a place's terms and instances, by numbers of terms: two lines that add terms (the select of a map term at the index of a
/// select or an update; the parts of an index at which two maps differ), the four forms of instances, and that two unique constants
/// differ.
#[derive(Clone, Copy)]
pub enum Stated {
    Pick(u128, u128),
    Names(u128, u128),
    Congruent(u128, u128),
    AtIndex(u128, u128),
    Elsewhere(u128, u128, u128),
    Apart(u128, u128),
    Unequal(u128, u128),
}

/// The certificate of one place: the number of its implementation and its own, from 0, the lines of
/// its terms and instances, the rows of the certificate's table, and the nodes of its tree.
#[derive(Drop)]
pub struct Section<'a> {
    pub implementation: u128,
    pub place: u128,
    pub stated: Vec<Stated>,
    pub table: Vec<TextRow>,
    pub nodes: Vec<TextNode<'a>>,
}

/// A part of a map's index; an element has the name of its type and its number.
#[derive(Clone, Copy)]
pub enum Part<'a> {
    Number(i128),
    Element(&'a [u8], i128),
}

/// The value of a constant, or one in a function's table; an element has the name of its type and its number, and a map its slots, in
/// the order of their indices, and its default, what it gives elsewhere.
#[derive(Drop)]
#[cycle(value)]
pub enum Value<'a> {
    Truth(bool),
    Number(i128),
    Element(&'a [u8], i128),
    Map(Vec<Slot<'a>>, Box<Value<'a>>),
}

/// The value of a map at an index, which has a part for each of its index types.
#[derive(Drop)]
#[cycle(value)]
pub struct Slot<'a> {
    pub index: Vec<Part<'a>>,
    pub value: Value<'a>,
}

/// A constant's name and the value that the interpretation gives it.
#[derive(Drop)]
pub struct Given<'a> {
    pub name: &'a [u8],
    pub value: Value<'a>,
}

/// A function's value for these arguments.
#[derive(Drop)]
pub struct Entry<'a> {
    pub key: Vec<Value<'a>>,
    pub value: Value<'a>,
}

/// A function's name and its table: what it gives for the arguments that have an entry, and for others.
#[derive(Drop)]
pub struct Function<'a> {
    pub name: &'a [u8],
    pub entries: Vec<Entry<'a>>,
    pub default: Value<'a>,
}

/// An interpretation: the values of constants and the tables of functions.
#[derive(Drop)]
pub struct Interp<'a> {
    pub constants: Vec<Given<'a>>,
    pub functions: Vec<Function<'a>>,
}

/// The certificate of a program: the interpretation, where it has one, the names of the retained
/// candidates, and the certificates of places.
#[derive(Drop)]
pub struct CertText<'a> {
    pub interp: Option<Interp<'a>>,
    pub retained: Vec<&'a [u8]>,
    pub sections: Vec<Section<'a>>,
}
