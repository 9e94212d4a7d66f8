//! What passes leave of a tree of operations of both crates, by its text.
use super::building::{Place, add, add_constant, add_last, build, make_place};
use super::kinds::HasBoth;
use super::tasks::{Task, do_in_both};
use crate::view::ViewKind;
use joined_dialects::toy::ToyKind;
use plir_core::{Context, Operation, Ptr};
use plir_data::OpSet;
use plir_folding::{FoldSet, fold_constants};
use plir_passes::{EffectSet, eliminate_dead_code};
use plir_print::{is_printable, print_op};
use plir_scripts::Stop;
use std::alloc::Global;
use std::test::Fail;

// How many nodes were live before the tree is swept and behind, and what is left.
const SWEPT: &str = "9 nodes, then 7
builtin.module @m 
{
  ^block1v1():
    op2v1_res0 = toy.neg () [] []: <()->(builtin.integer si8)>;
    op3v1_res0 = view.same (op2v1_res0) [] []: <(builtin.integer si8)->(builtin.integer si8)>;
    op4v1_res0 = toy.add (op2v1_res0, op3v1_res0) [] []: <(builtin.integer si8, builtin.integer si8)->(builtin.integer si8)>;
    view.show (op4v1_res0) [] []: <(builtin.integer si8)->()>
}";

// What is left of a shown sum of two constants when it is folded and swept.
const FOLDED: &str = "builtin.module @m 
{
  ^block1v1():
    op6v1_res0 = builtin.constant <builtin.integer <5: si8>> : builtin.integer si8;
    view.show (op6v1_res0) [] []: <(builtin.integer si8)->()>
}";

// Adds what is dead: the same as a value, and a sum of that.
fn add_dead<D: HasBoth>(
    alloc: Global,
    ctx: &mut Context<D>,
    place: &Place,
    value: Ptr<Operation>,
) -> Result<(), Stop> {
    let same = add(alloc, ctx, place, D::view(ViewKind::Same), &[value])?;
    add(alloc, ctx, place, D::toy(ToyKind::Add), &[same, same])?;
    Ok(())
}

// Sweeps what is dead below an operation.
fn sweep<D: EffectSet>(
    alloc: Global,
    ctx: &mut Context<D>,
    root: Ptr<Operation>,
) -> Result<(), Stop> {
    if !root.is_live(ctx) {
        return Err(Stop::Refused);
    }
    Ok(eliminate_dead_code(alloc, ctx, root)?)
}

// The text of an operation.
fn text_of<D: OpSet>(alloc: Global, ctx: &Context<D>, op: Ptr<Operation>) -> Result<String, Stop> {
    if !op.is_live(ctx) || !is_printable(ctx, op) {
        return Err(Stop::Refused);
    }
    Ok(print_op(alloc, ctx, op)?)
}

/// Builds the tree with what is dead, and sweeps it: how many nodes were live before and behind, and the text of what
/// is left.
pub fn sweep_dead<D: EffectSet + HasBoth>(
    alloc: Global,
    ctx: &mut Context<D>,
) -> Result<String, Stop> {
    let (place, sum) = build(alloc, ctx)?;
    add_dead(alloc, ctx, &place, sum)?;
    let before = ctx.num_live();
    again!(sweep(alloc, ctx, place.module));
    let (left, text) = (ctx.num_live(), again!(text_of(alloc, ctx, place.module)));
    Ok(again!(format!(in alloc; "{before} nodes, then {left}\n{text}")))
}

#[test]
fn what_is_dead_of_either_crate_goes_where_memory_is_refused(rt: HostRuntime) -> Result<(), Fail> {
    assert!(rt; do_in_both(rt.alloc(), Task::Sweep)?.as_str() == SWEPT);
    Ok(())
}

// Folds constants below an operation.
fn fold<D: FoldSet>(alloc: Global, ctx: &mut Context<D>, root: Ptr<Operation>) -> Result<(), Stop> {
    if !root.is_live(ctx) {
        return Err(Stop::Refused);
    }
    let _any = fold_constants(alloc, ctx, root)?;
    Ok(())
}

/// Shows the sum of two constants, folds it, and sweeps what is dead then: the text of what is left.
pub fn fold_sum<D: EffectSet + FoldSet + HasBoth>(
    alloc: Global,
    ctx: &mut Context<D>,
) -> Result<String, Stop> {
    let place = make_place(alloc, ctx)?;
    let two = add_constant(alloc, ctx, &place, 2)?;
    let three = add_constant(alloc, ctx, &place, 3)?;
    let sum = add(alloc, ctx, &place, D::toy(ToyKind::Add), &[two, three])?;
    add_last(alloc, ctx, &place, D::view(ViewKind::Show), &[sum])?;
    again!(fold(alloc, ctx, place.module));
    again!(sweep(alloc, ctx, place.module));
    Ok(again!(text_of(alloc, ctx, place.module)))
}

#[test]
fn what_one_crate_sums_is_folded_where_memory_is_refused(rt: HostRuntime) -> Result<(), Fail> {
    assert!(rt; do_in_both(rt.alloc(), Task::Fold)?.as_str() == FOLDED);
    Ok(())
}
