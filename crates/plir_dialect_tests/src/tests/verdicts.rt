//! What the verifier says of a tree of operations of both crates.
use super::building::{add, add_last, build, erase};
use super::kinds::HasBoth;
use super::tasks::{Task, do_in_both};
use crate::view::ViewKind;
use joined_dialects::toy::ToyKind;
use plir_core::{Context, Operation, Ptr};
use plir_data::VerifyErr;
use plir_scripts::Stop;
use plir_verify::{VerifySet, verify_tree};
use std::alloc::Global;
use std::test::Fail;

// What the verifier says of a tree: `nothing` where it accepts, or the text of its refusal.
fn verdict<D: VerifySet>(
    alloc: Global,
    ctx: &Context<D>,
    root: Ptr<Operation>,
) -> Result<String, Stop> {
    if !root.is_live(ctx) {
        return Err(Stop::Refused);
    }
    match verify_tree(alloc, ctx, root) {
        Ok(()) => Ok(format!(in alloc; "nothing")?),
        Err(VerifyErr::Refused { err, .. }) => Ok(format!(in alloc; "{err}")?),
        Err(VerifyErr::Memory) => Err(Stop::Memory),
    }
}

// What the verifier says of a tree, and once an operation is taken away.
fn verdicts<D: VerifySet>(
    alloc: Global,
    ctx: &mut Context<D>,
    root: Ptr<Operation>,
    op: Ptr<Operation>,
) -> Result<String, Stop> {
    let found = again!(verdict(alloc, ctx, root));
    erase(ctx, op)?;
    let left = again!(verdict(alloc, ctx, root));
    Ok(again!(format!(in alloc; "{found}, then {left}")))
}

/// Builds the tree, and puts a wrong operation of each crate into it, one after another: what the verifier says of each,
/// and of the tree without it.
pub fn verify_wrong<D: VerifySet + HasBoth>(
    alloc: Global,
    ctx: &mut Context<D>,
) -> Result<String, Stop> {
    let (place, sum) = build(alloc, ctx)?;
    let root = place.module;
    let wrong = add(alloc, ctx, &place, D::toy(ToyKind::Add), &[sum])?;
    let of_sum = verdicts(alloc, ctx, root, wrong)?;
    let wrong = add_last(alloc, ctx, &place, D::view(ViewKind::Show), &[])?;
    let of_show = verdicts(alloc, ctx, root, wrong)?;
    let wrong = add_last(alloc, ctx, &place, D::view(ViewKind::Name), &[sum])?;
    let of_name = verdicts(alloc, ctx, root, wrong)?;
    Ok(again!(format!(in alloc; "{of_sum}\n{of_show}\n{of_name}")))
}

// What is said of the wrong operations: each is refused as its crate says, and the tree without it accepted.
const SAID: &str = "adds not two values, then nothing
shows not one value, then nothing
names with a value, then nothing";

#[test]
fn each_crate_verifies_its_own_where_memory_is_refused(rt: HostRuntime) -> Result<(), Fail> {
    assert!(rt; do_in_both(rt.alloc(), Task::Verify)?.as_str() == SAID);
    Ok(())
}
