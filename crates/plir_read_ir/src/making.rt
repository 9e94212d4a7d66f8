//! How own operations are made of what was read.
ghost use Rattle.std.specs.Prelude.{◌≡◌, All, List, [], ◌∷◌, IfErr, IfOk, OnErr, replicate};
ghost use Rattle.plir_data.specs.AttrLive.{HandlesLive};
ghost use Rattle.plir_data.specs.Types.{AllLive, TypeView};
ghost use Rattle.plir_core.specs.ContextView.{IsLive};
ghost use Rattle.plir_core.specs.Room.{IsFullFor, one_op};
ghost use Rattle.plir_core.specs.WellFormed.{IsWellFormed};
ghost use Rattle.plir_core.specs.declared.ptr.IRNode.{IRNode};
ghost use Rattle.plir_read.specs.Keeping.{IsNewLeaf, KeepsOlder};
ghost use Rattle.plir_read.specs.Slots.{AreGivenOut};
ghost use Rattle.plir_read.specs.Stopping.{IsRefusal};
ghost use Rattle.plir_read_ir.specs.OwnOps.{own_attributes, own_op, times};

use plir_attr_text::fault::Stop;
use plir_core::{BasicBlock, Context, Operation, Ptr};
use plir_data::keys::ATTR_KEY_GIVEN_NAMES;
use plir_data::{AttrObj, AttributeDict, GivenNamesAttr, Identifier, OpKind, OpSet, TypeHandle};
use plir_read::making::{all_unset, put_under, stop_of};
use std::alloc::Global;

// Entries with the names that are given to results, if one is set: they take the place of those among the entries.
fn named<D: OpSet>(
    alloc: Global,
    entries: AttributeDict<D>,
    names: Vec<Option<Identifier>>,
) -> Result<AttributeDict<D>, Stop>
    ensures value { IfOk result (λ es. es ≡ own_attributes names.items entries) }
    ensures live { IfOk result (λ es. (types : List (TypeView D.Ty)) → HandlesLive D.attr_handles types entries →
        HandlesLive D.attr_handles types es) }
    ensures refused { IfErr result (IsRefusal ⊥) }
{
    if all_unset(names.as_slice()) {
        return Ok(entries);
    }
    let mut attributes = entries;
    let given = AttrObj::GivenNames(GivenNamesAttr::from_names(names));
    put_under(alloc, &mut attributes, ATTR_KEY_GIVEN_NAMES, given)?;
    Ok(attributes)
}

// So many times one block.
fn repeated(
    alloc: Global,
    block: Ptr<BasicBlock>,
    count: usize,
) -> Result<Vec<Ptr<BasicBlock>>, Stop>
    ensures value { IfOk result (λ bs. bs.items ≡ replicate count block) }
    ensures refused { IfErr result (IsRefusal ⊥) }
{
    let mut blocks = Vec::new(alloc);
    'times: for _time in 0..count {
        blocks.push(block)?;
    }
    Ok(blocks)
}

// As many times one block, if there is one, as the successors of an operation until they are known.
pub fn stand_ins(
    alloc: Global,
    block: Option<Ptr<BasicBlock>>,
    count: usize,
) -> Result<Vec<Ptr<BasicBlock>>, Stop>
    ensures value { IfOk result (λ bs. bs.items ≡ times block count) }
    ensures refused { IfErr result (IsRefusal ⊥) }
{
    match block {
        Some(block) => repeated(alloc, block, count),
        None => Ok(Vec::new(alloc)),
    }
}

// A new own operation with no operand and no region.
pub fn make_own<D: OpSet>(
    alloc: Global,
    ctx: &mut Context<D>,
    kind: D::Kind,
    names: Vec<Option<Identifier>>,
    entries: AttributeDict<D>,
    results: Vec<TypeHandle>,
    successors: Vec<Ptr<BasicBlock>>,
) -> Result<Ptr<Operation>, Stop>
    requires results_live { AllLive ctx.old.types results.items }
    requires successors_live { All (λ b. IsLive ctx.old (IRNode.BasicBlock b)) successors.items }
    requires entries_live { HandlesLive D.attr_handles ctx.old.types entries }
    ensures made { IfOk result (λ p. IsNewLeaf ctx.old ctx.new p
        (own_op kind names.items entries results.items successors.items)) }
    ensures slots { IfOk result (λ p. AreGivenOut ctx.old.nodes (IRNode.Operation p ∷ []) ctx.new.nodes) }
    ensures kept { OnErr result (KeepsOlder ctx.old ctx.new) }
    ensures types { OnErr result (ctx.new.types ≡ ctx.old.types) }
    ensures refused { IfErr result (IsRefusal (IsFullFor ctx.old.nodes one_op)) }
    ensures whole { IsWellFormed D.attr_handles ctx.new }
{
    ctx.stands();
    let attributes = named(alloc, entries, names)?;
    let operands = Vec::new(alloc);
    match Operation::with_attributes(
        ctx,
        OpKind::Own(kind),
        results,
        operands,
        successors,
        attributes,
        0,
    ) {
        Ok(op) => Ok(op),
        Err(refused) => Err(stop_of(refused)),
    }
}
