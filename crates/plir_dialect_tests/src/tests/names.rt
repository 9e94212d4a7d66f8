//! What operations of both crates name.
use super::building::{add_func, add_last, make_place, set_name};
use super::kinds::HasBoth;
use super::tasks::{Task, do_in_both};
use crate::view::ViewKind;
use plir_builtin::SymbolTableCollection;
use plir_core::{Context, Operation, Ptr};
use plir_scripts::Stop;
use plir_symbols::{SymbolNames, call_graph};
use std::alloc::Global;
use std::test::Fail;

// What the first operation that names something below a root names: the operation, and what bears the name.
fn first_named<D: SymbolNames>(
    alloc: Global,
    ctx: &Context<D>,
    root: Ptr<Operation>,
) -> Result<(Ptr<Operation>, Option<Ptr<Operation>>), Stop> {
    if !root.is_live(ctx) {
        return Err(Stop::Refused);
    }
    let mut tables = SymbolTableCollection::new(alloc);
    let Ok(graph) = call_graph(alloc, ctx, &mut tables, root) else {
        return Err(Stop::Memory);
    };
    match graph.edges().first() {
        Some(edge) => Ok((edge.user, edge.symbol)),
        None => Err(Stop::Refused),
    }
}

/// Puts a function into a module, and an operation that names it: whether it is told to name the function.
pub fn find_name<D: SymbolNames + HasBoth>(
    alloc: Global,
    ctx: &mut Context<D>,
) -> Result<String, Stop> {
    let place = make_place(alloc, ctx)?;
    let func = add_func(alloc, ctx, &place, "f")?;
    let op = add_last(alloc, ctx, &place, D::view(ViewKind::Name), &[])?;
    again!(set_name(alloc, ctx, op, "f"));
    let (user, symbol) = again!(first_named(alloc, ctx, place.module));
    let is_named = user == op && symbol == Some(func);
    Ok(again!(format!(in alloc; "{is_named}")))
}

#[test]
fn an_operation_names_a_function_where_memory_is_refused(rt: HostRuntime) -> Result<(), Fail> {
    assert!(rt; do_in_both(rt.alloc(), Task::Name)?.as_str() == "true");
    Ok(())
}
