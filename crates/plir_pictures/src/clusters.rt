//! Regions as clusters, with the boxes of their blocks.
ghost use Rattle.std.specs.Prelude.{◌≡◌, IfOk, OnOk, string_bytes};
ghost use Rattle.plir_core.specs.ContextView.{IsLive};
ghost use Rattle.plir_core.specs.declared.ptr.IRNode.{IRNode as AnyNode};
ghost use Rattle.plir_data.specs.TextParts.{Puts};
ghost use Rattle.plir_pictures.specs.Clusters.{cluster_end, cluster_front, region_front, region_words};

use crate::boxes::put_block_box;
use crate::figure::Figure;
use crate::labels::put_label;
use crate::nodes::put_node;
use plir_core::{Context, IRNode, Ptr, Region};
use plir_data::put::put;
use plir_data::{Memory, OpSet};
use std::alloc::Global;
use std::fmt::Write;

/// What is drawn of the nodes of a graph: a cluster for each region, and in it a box for each block.
#[derive(Clone, Copy, Debug)]
pub(crate) struct Clusters;

// What a cluster is labelled with: the region, and the operation that it stands in.
fn words_of<D: OpSet>(
    alloc: Global,
    ctx: &Context<D>,
    region: Ptr<Region>,
) -> Result<String, Memory>
    requires { IsLive ctx.now (AnyNode.Region region) }
    ensures { IfOk result (λ t. string_bytes t ≡ region_words D.kind_id ctx.now region) }
{
    let mut words = String::new(alloc);
    write!(words, "{region}")?;
    if let Some(over) = IRNode::Region(region).parent(ctx) {
        put(&mut words, " of ")?;
        put_node(&mut words, ctx, over)?;
    }
    Ok(words)
}

// Puts what opens the cluster of a region.
fn put_region_front<D: OpSet>(
    out: &mut String,
    alloc: Global,
    ctx: &Context<D>,
    region: Ptr<Region>,
) -> Result<(), Memory>
    requires { IsLive ctx.now (AnyNode.Region region) }
    ensures { OnOk result (Puts out.old out.new (region_front D.kind_id ctx.now region)) }
{
    let words = words_of(alloc, ctx, region)?;
    put(out, "  subgraph cluster_")?;
    write!(out, "{region}")?;
    put(out, " {\n  label=<")?;
    put_label(out, words.as_str())?;
    put(out, ">;\n")?;
    Ok(())
}

impl<D: OpSet> Figure<D> for Clusters {
    ghost use Rattle.plir_pictures.specs.Clusters.{cluster_end as cluster_closes, cluster_front as cluster_opens};

    ghost opens = { λ _ s n. cluster_opens D.OpSet s n };

    ghost closes = { λ _ _ n. cluster_closes n };

    fn put_opening(
        &self,
        out: &mut String,
        alloc: Global,
        ctx: &Context<D>,
        node: IRNode,
    ) -> Result<(), Memory> {
        match node {
            IRNode::Operation(_) => Ok(()),
            IRNode::Region(region) => put_region_front(out, alloc, ctx, region),
            IRNode::BasicBlock(block) => put_block_box(out, alloc, ctx, block),
        }
    }

    fn put_closing(&self, out: &mut String, _ctx: &Context<D>, node: IRNode) -> Result<(), Memory> {
        match node {
            IRNode::Operation(_) => Ok(()),
            IRNode::Region(_) => put(out, "  }\n"),
            IRNode::BasicBlock(_) => Ok(()),
        }
    }
}
