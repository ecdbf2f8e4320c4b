//! What is read so far.
ghost use Rattle.std.specs.Prelude.{◌≡◌, OnOk};
ghost use Rattle.bg_certtext.specs.Views.{given_of, function_of, row_of, node_of};
ghost use Rattle.bg_certtext.specs.Spellable.{children};
ghost use Rattle.bg_certtext.specs.Machine.{draft_of, start, HasRoom, with_given, with_function, with_stated, with_section, with_node, with_step, with_row};

use crate::text::{Function, Given, Interp, Section, Stated, TextNode, TextRow};
use bg_rows::Step;
use std::alloc::{AllocError, Global};
use std::mem::replace;

/// What may stand in the next line.
#[derive(Clone, Copy, PartialEq, Eq)]
pub(crate) enum Stage {
    Version,
    Interp,
    /// A constant, a function, a name, a place or the end.
    Givens,
    /// A function, a name, a place or the end.
    Functions,
    /// A name, a place or the end.
    Retained,
    /// An instance, a table or a node.
    Table,
    Rows,
    Nodes,
    Steps,
    /// A place or the end.
    Sections,
    End,
}

/// What is finished, the place that is open with its instances, its table, nodes and steps, how
/// many trees of it are still to come, and how many rows or steps.
#[derive(Drop)]
pub(crate) struct Draft<'a> {
    pub(crate) stage: Stage,
    pub(crate) interp: Option<Interp<'a>>,
    pub(crate) retained: Vec<&'a [u8]>,
    pub(crate) sections: Vec<Section<'a>>,
    pub(crate) implementation: u128,
    pub(crate) place: u128,
    pub(crate) stated: Vec<Stated>,
    pub(crate) table: Vec<TextRow>,
    pub(crate) nodes: Vec<TextNode<'a>>,
    pub(crate) steps: Vec<Step>,
    pub(crate) trees: usize,
    pub(crate) left: u128,
}

/// What is read before the first line.
pub(crate) fn first_draft<'a>(alloc: Global) -> Draft<'a>
    ensures { draft_of result ≡ start }
{
    Draft {
        stage: Stage::Version,
        interp: None,
        retained: Vec::new(alloc),
        sections: Vec::new(alloc),
        implementation: 0,
        place: 0,
        stated: Vec::new(alloc),
        table: Vec::new(alloc),
        nodes: Vec::new(alloc),
        steps: Vec::new(alloc),
        trees: 0,
        left: 0,
    }
}

/// One more constant of the interpretation, where there is one.
pub(crate) fn add_given<'a>(draft: &mut Draft<'a>, given: Given<'a>) -> Result<(), AllocError>
    ensures { OnOk result (draft_of draft.new ≡ with_given (given_of given.entry) (draft_of draft.old)) }
{
    if let Some(interp) = &mut draft.interp {
        interp.constants.push(given)?;
    }
    Ok(())
}

/// One more function of the interpretation, where there is one.
pub(crate) fn add_function<'a>(
    draft: &mut Draft<'a>,
    function: Function<'a>,
) -> Result<(), AllocError>
    ensures { OnOk result (draft_of draft.new ≡ with_function (function_of function.entry) (draft_of draft.old)) }
{
    if let Some(interp) = &mut draft.interp {
        interp.functions.push(function)?;
    }
    draft.stage = Stage::Functions;
    Ok(())
}

/// One more line of the open place's terms and instances.
pub(crate) fn add_stated(draft: &mut Draft<'_>, stated: Stated) -> Result<(), AllocError>
    ensures { OnOk result (draft_of draft.new ≡ with_stated stated (draft_of draft.old)) }
{
    draft.stated.push(stated)?;
    Ok(())
}

/// Finishes the open place.
pub(crate) fn finish(alloc: Global, draft: &mut Draft<'_>) -> Result<(), AllocError>
    ensures { OnOk result (draft_of draft.new ≡ with_section (draft_of draft.old)) }
{
    let stated = replace(&mut draft.stated, Vec::new(alloc));
    let table = replace(&mut draft.table, Vec::new(alloc));
    let nodes = replace(&mut draft.nodes, Vec::new(alloc));
    draft.stage = Stage::Sections;
    draft.sections.push(Section {
        implementation: draft.implementation,
        place: draft.place,
        stated,
        table,
        nodes,
    })?;
    Ok(())
}

/// How many children a node has.
pub(crate) fn children(node: &TextNode<'_>) -> usize
    ensures { result ≡ children (node_of node.now) }
{
    match node {
        TextNode::Split(_) => 2,
        TextNode::Bound(_, _) => 2,
        TextNode::Cut(_) => 2,
        TextNode::Lemma(_) => 2,
        TextNode::Clause(_) => 0,
        TextNode::Unit(_) => 0,
        TextNode::Known(_) => 0,
        TextNode::Rows(_) => 0,
    }
}

/// One more node of the open tree.
pub(crate) fn add_node<'a>(
    alloc: Global,
    draft: &mut Draft<'a>,
    node: TextNode<'a>,
) -> Result<(), AllocError>
    requires { HasRoom (draft_of draft.old) }
    ensures made { OnOk result (draft_of draft.new ≡ with_node (node_of node.entry) (draft_of draft.old)) }
    ensures room { OnOk result (HasRoom (draft_of draft.new)) }
{
    let trees = children(&node) + draft.trees.saturating_sub(1);
    draft.nodes.push(node)?;
    draft.trees = trees;
    if trees == 0 {
        finish(alloc, draft)
    } else {
        draft.stage = Stage::Nodes;
        Ok(())
    }
}

/// One more step; the last one closes its node.
pub(crate) fn add_step(alloc: Global, draft: &mut Draft<'_>, step: Step) -> Result<(), AllocError>
    requires { HasRoom (draft_of draft.old) }
    ensures made { OnOk result (draft_of draft.new ≡ with_step step (draft_of draft.old)) }
    ensures room { OnOk result (HasRoom (draft_of draft.new)) }
{
    draft.steps.push(step)?;
    draft.left = draft.left.saturating_sub(1);
    if draft.left > 0 {
        return Ok(());
    }
    let steps = replace(&mut draft.steps, Vec::new(alloc));
    add_node(alloc, draft, TextNode::Rows(steps))
}

/// One more row; behind the last one stands a node.
pub(crate) fn add_row(draft: &mut Draft<'_>, row: TextRow) -> Result<(), AllocError>
    ensures { OnOk result (draft_of draft.new ≡ with_row (row_of row) (draft_of draft.old)) }
{
    draft.table.push(row)?;
    draft.left = draft.left.saturating_sub(1);
    draft.stage = if draft.left == 0 {
        Stage::Nodes
    } else {
        Stage::Rows
    };
    Ok(())
}
