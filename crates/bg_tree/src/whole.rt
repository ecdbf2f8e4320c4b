//! A finished tree, as a certificate.
ghost use Rattle.std.specs.Prelude.{◌≡◌, ◌++◌, ◌∷◌, [], map, IfOk, OnOk};
ghost use Rattle.bg_cert.specs.Certs.{Bounds, node_of, cert_of, bare};
ghost use Rattle.bg_tree.specs.Trees.{nodes_of};

use crate::part::Part;
use bg_cert::{Cert, Node, bare};
use bg_point::Gap;
use std::alloc::{AllocError, Global};

/// The node that splits the bound at a gap.
fn bound_at(gap: &Gap) -> Node
    ensures { node_of result ≡ Bounds gap.now.variable gap.now.below }
{
    Node::Bound(gap.variable as u128, gap.below)
}

/// The node of a part behind those made. An open leaf has none.
fn push_part(nodes: &mut Vec<Node>, part: Part) -> Result<(), AllocError>
    ensures { OnOk result (map node_of nodes.new.items ≡ map node_of nodes.old.items ++ nodes_of (part ∷ [])) }
{
    match part {
        Part::Open => Ok(()),
        Part::Plain(node) => {
            nodes.push(node)?;
            Ok(())
        }
        Part::Bound(kept) => {
            let node = bound_at(&kept.gap);
            nodes.push(node)?;
            Ok(())
        }
    }
}

/// The certificate of a tree's nodes. Open leaves have none.
pub fn whole(alloc: Global, parts: Vec<Part>) -> Result<Cert, AllocError>
    ensures { IfOk result (λ made. cert_of made ≡ bare (nodes_of parts.items)) }
{
    let mut nodes = Vec::new(alloc);
    for part in parts {
        push_part(&mut nodes, part)?;
    }
    Ok(bare(alloc, nodes))
}
