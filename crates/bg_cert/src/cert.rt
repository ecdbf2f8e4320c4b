//! Certificates.
ghost use Rattle.std.specs.Prelude.{◌≡◌, map};
ghost use Rattle.bg_cert.specs.Certs.{node_of, cert_of, bare};

use bg_formula::Linear;
use bg_rows::Step;
use std::alloc::Global;

/// What a path has decided.
#[derive(Clone, Copy)]
pub enum Decision {
    /// An atom, by its place among the formula's, with its sign.
    Atom(usize, bool),
    /// `AtMost(x, k, s)`: whether term x is at most k.
    AtMost(u32, i128, bool),
}

/// A literal of a lemma: an atom of the formula or a row of the certificate's table, by its number,
/// with the sign that it is to have.
#[derive(Clone, Copy)]
pub enum Named {
    OfAtom(u128, bool),
    OfRow(u128, bool),
}

/// A node of a case tree, its numbers any that fit in 128 bits. The nodes stand before their
/// children, the child that decides true first.
#[derive(Drop)]
pub enum Node {
    /// Decides an atom, both ways. The rows of the table are atoms too, behind the formula's.
    Split(u128),
    /// `Bound(x, k)` decides whether term x is at most k, both ways.
    Bound(u128, i128),
    /// Decides a row of the certificate's table, both ways.
    Cut(u128),
    /// In the first child each of these literals is decided the other way, in this order; in the
    /// second they are a clause more, the path's next lemma.
    Lemma(Vec<Named>),
    /// Closes the path: each literal of this clause is decided the other way.
    Clause(u128),
    /// Closes the path: the atom of this candidate, a member of the set, is decided false.
    Unit(u128),
    /// Closes the path: each literal of its lemma of this number is decided the other way.
    Known(u128),
    /// Closes the path: the steps make a false row of the path's rows.
    Rows(Vec<Step>),
}

/// A certificate: rows of its own, each with its denial, and the nodes of one case tree.
#[derive(Drop)]
pub struct Cert {
    pub table: Vec<Linear>,
    pub nodes: Vec<Node>,
}

/// The certificate of these nodes without rows of its own.
pub fn bare(alloc: Global, nodes: Vec<Node>) -> Cert
    ensures { cert_of result ≡ bare (map node_of nodes.items) }
{
    Cert {
        table: Vec::new(alloc),
        nodes,
    }
}
