//! Makes the merged scopes of a table: sorts its nodes, computes their starts and ends, and builds the tree from its leaves up.

ghost use Rattle.std.specs.Prelude.{◌≡◌, ℕ, ◌<◌, ◌≤◌, ◌^◌, ◌/◌, ◌⊎◌, pos, FitsSigned, List, IfOk, IfErr, IsOkUnless};
ghost use Rattle.std.specs.Int.{w64};
ghost use Rattle.puffin_merge.specs.Merge.Occurrences.{Occurrence};
ghost use Rattle.puffin_merge.specs.Merge.{IsMerge};
ghost use Rattle.puffin_merge.specs.Merge.Tree.{MergedForest, merged};
ghost use Rattle.puffin_merge.specs.Merge.Refusals.{EndsFit};
ghost use Rattle.puffin_merge.specs.Merge.Scopes.{forest_in, scope_then};
ghost use Rattle.puffin_merge.specs.inner.Tables.{IsTableOf};
ghost use Rattle.puffin_merge.specs.inner.Places.{AreOrderedNodesOf, EachOf, EndFits, above_all, placement_after, placements_from, placed_node};
ghost use Rattle.puffin_merge.specs.declared.merge.table.Node.{Node};

use crate::merge::scope::MergeScope;
use crate::merge::starts::{earliest_start, end_from};
use crate::merge::table::{NodeNumber, PieceTotals, Table};
use puffin_data::data::ScopeId;
use puffin_data::{Error, NanoSecond, Result};
use std::alloc::Global;
use std::borrow::CowStr;
use std::mem;

/// A node, with the fields by which siblings are ordered.
#[derive(Clone, Copy, Debug, PartialEq, Eq, PartialOrd, Ord)]
struct OrderedNode<'t> {
    parent: NodeNumber,
    own_start: NanoSecond,
    id: u32,
    text: &'t str,
    number: NodeNumber,
}

/// Returns all nodes, sorted by parent and then in the order of siblings. So siblings are next to each other. Fails only with
/// `Memory`.
fn ordered_nodes(alloc: Global, table: &Table) -> Result<Vec<OrderedNode<'_>>>
    ensures ordered_nodes { IfOk result (λ ordered_nodes.
        AreOrderedNodesOf table.now.nodes.items ordered_nodes.items) }
    ensures err { IsOkUnless result Error.Memory }
{
    let mut ordered_nodes = Vec::with_capacity(alloc, table.nodes.len())?;
    for i in 0..table.nodes.len() {
        let node = &table.nodes[i];
        ordered_nodes.push(OrderedNode {
            parent: node.key.parent,
            own_start: node.sums.own_start,
            id: node.key.id,
            text: node.key.text.as_str(),
            number: NodeNumber { number: i + 1 },
        })?;
    }
    ordered_nodes.sort()?;
    Ok(ordered_nodes)
}

/// Returns the total divided by the number of frames, rounded down.
fn per_frame(sums: &PieceTotals, frames: usize) -> NanoSecond
    requires frames { 0 < frames }
    requires small { sums.now.total < 2 ^ 63 }
    ensures { result ≡ pos (sums.now.total / frames) }
{
    (sums.total / frames as u64) as i64
}

/// The place of a node among its siblings: its parent's number, its start and its end.
#[derive(Clone, Copy, Debug)]
struct Placement {
    parent: usize,
    start: NanoSecond,
    end: NanoSecond,
}

/// Starts a node as early as possible, after the end of the sibling before it if there is one. Fails with `TooLarge` if its end
/// doesn't fit.
fn place_node(
    sums: &PieceTotals,
    ordered: &OrderedNode,
    before: &Placement,
    frames: usize,
) -> Result<Placement>
    requires frames { 0 < frames }
    requires small { sums.now.total < 2 ^ 63 }
    ensures ok { IfOk result (λ placement.
        placement ≡ placement_after frames sums.now ordered.now before.now) }
    ensures fits { IfOk result (λ placement. FitsSigned w64 placement.end) }
    ensures err { IfErr result (λ e.
        (e ≡ Error.TooLarge)
        × (FitsSigned w64 (placement_after frames sums.now ordered.now before.now).end → ⊥)) }
{
    let free = if ordered.parent.number == before.parent {
        before.end
    } else {
        0
    };
    let start = earliest_start(ordered.own_start, free);
    let end = end_from(start, per_frame(sums, frames))?;
    Ok(Placement {
        parent: ordered.parent.number,
        start,
        end,
    })
}

/// Computes the start and the end of each node, in the given order. Fails with `TooLarge` if an end doesn't fit, and with
/// `Memory`.
fn place_nodes(
    alloc: Global,
    table: &Table,
    ordered_nodes: &[OrderedNode],
    frames: usize,
) -> Result<Vec<Placement>>
    requires frames { 0 < frames }
    requires table { (all : List Occurrence) × IsTableOf all table.now }
    requires ordered_nodes { AreOrderedNodesOf table.now.nodes.items ordered_nodes.now }
    ensures ok { IfOk result (λ placements.
        (d : Node) →
        placements.items
        ≡ placements_from table.now.nodes.items frames above_all ordered_nodes.now d) }
    ensures fit { IfOk result (λ placements. EachOf EndFits placements.items) }
    ensures err { IfErr result (λ e.
        (e ≡ Error.Memory)
        ⊎ ((e ≡ Error.TooLarge)
        × ((d : Node) →
        EachOf EndFits (
        placements_from table.now.nodes.items frames above_all ordered_nodes.now d) →
        ⊥))) }
{
    let mut placements = Vec::with_capacity(alloc, ordered_nodes.len())?;
    let mut last = Placement {
        parent: 0,
        start: 0,
        end: 0,
    };
    for ordered in ordered_nodes {
        let node = &table.nodes[ordered.number.number - 1];
        last = place_node(&node.sums, ordered, &last, frames)?;
        placements.push(last)?;
    }
    Ok(placements)
}

/// Makes the merged scope of a node with these children and its own copy of the text. Fails only with `Memory`.
fn make_scope<'s>(
    alloc: Global,
    ordered: &OrderedNode,
    sums: &PieceTotals,
    placement: &Placement,
    frames: usize,
    children: Vec<MergeScope<'s>>,
) -> Result<MergeScope<'s>>
    requires frames { 0 < frames }
    requires id { 0 < ordered.now.id }
    requires small { sums.now.total < 2 ^ 63 }
    requires greatest { sums.now.greatest < 2 ^ 63 }
    ensures ok { IfOk result (λ scope. (others : MergedForest) →
        scope_then scope others
        ≡ merged (placed_node frames sums.now ordered.now placement.now)
        (forest_in children.entry.items) others) }
    ensures err { IsOkUnless result Error.Memory }
{
    let text = ordered.text.to_string(alloc)?;
    Ok(MergeScope {
        relative_start_ns: placement.start,
        total_duration_ns: sums.total as i64,
        duration_per_frame_ns: per_frame(sums, frames),
        max_duration_ns: sums.greatest as i64,
        num_pieces: sums.number,
        id: ScopeId::new(ordered.id).unwrap(),
        text: CowStr::Owned(text),
        children,
    })
}

/// Makes the merged scopes of a table, and returns those of the top level. Fails with `TooLarge` if an end doesn't fit, and
/// with `Memory`.
pub(crate) fn tree_of<'s>(
    alloc: Global,
    table: &Table,
    frames: usize,
) -> Result<Vec<MergeScope<'s>>>
    requires frames { 0 < frames }
    requires table { (all : List Occurrence) × IsTableOf all table.now }
    ensures ok { IfOk result (λ merged.
        (all : List Occurrence) → IsTableOf all table.now →
        IsMerge all frames (forest_in merged.items) × EndsFit (forest_in merged.items)) }
    ensures err { IfErr result (λ e.
        (e ≡ Error.Memory)
        ⊎ ((e ≡ Error.TooLarge)
        × ((all : List Occurrence) → IsTableOf all table.now →
        (f : MergedForest) × IsMerge all frames f × (EndsFit f → ⊥)))) }
{
    let ordered_nodes = ordered_nodes(alloc, table)?;
    let placements = place_nodes(alloc, table, ordered_nodes.as_slice(), frames)?;
    // The merged scopes below each node so far, the last sibling first.
    let mut rows: Vec<Vec<MergeScope<'s>>> = Vec::with_capacity(alloc, ordered_nodes.len() + 1)?;
    let size = ordered_nodes.len() + 1;
    'empty: for _made in 0..size {
        rows.push(Vec::new(alloc))?;
    }
    // Children come after their parents, so backwards each node's row of children is whole before the node itself comes.
    'nodes: for i in (0..ordered_nodes.len()).rev() {
        let ordered = &ordered_nodes[i];
        let node = &table.nodes[ordered.number.number - 1];
        let mut children = mem::replace(&mut rows[ordered.number.number], Vec::new(alloc));
        children.reverse();
        let scope = make_scope(alloc, ordered, &node.sums, &placements[i], frames, children)?;
        rows[ordered.parent.number].push(scope)?;
    }
    let mut top = mem::replace(&mut rows[0], Vec::new(alloc));
    top.reverse();
    Ok(top)
}
