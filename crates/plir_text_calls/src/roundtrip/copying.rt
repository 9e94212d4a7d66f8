//! Callers of the laws: what a law says of a printed operation that is read is what a call here promises.
ghost use Rattle.std.specs.Prelude.{◌≡◌, IfErr, IfOk, string_bytes};
ghost use Rattle.plir_core.specs.declared.ptr.IRNode.{IRNode as AnyNode};
ghost use Rattle.plir_core.specs.ContextView.{IsLive};
ghost use Rattle.plir_attr_text.specs.Names.{Grows};
ghost use Rattle.plir_builtin.specs.BuiltinOps.{IsNewModule};
ghost use Rattle.plir_core.specs.WellFormed.{IsWellFormed};
ghost use Rattle.plir_print.specs.HeaderAttrs.{IsPrintable};
ghost use Rattle.plir_print.specs.OpText.{op_text};
ghost use Rattle.plir_roundtrip.specs.IrReadBack.{IsRoomWanting};
ghost use Rattle.plir_roundtrip.specs.IrReadable.{HasReadableText};
ghost use Rattle.plir_roundtrip.specs.IrReadableUses.{IsIrReadable};
ghost use Rattle.plir_roundtrip.specs.Readable.{IsReadable};
ghost use Rattle.plir_roundtrip.specs.SameIrTree.{IsSameIrTree};
ghost use Rattle.plir_roundtrip.specs.SameTree.{IsSameTree};
ghost use Rattle.plir_roundtrip.specs.UsesMeant.{UsesStand};
ghost use Rattle.plir_text_calls.specs.Copies.{IsCopyRefusal};

use plir_attr_text::Fault;
use plir_core::{Context, Operation, Ptr};
use plir_data::{Identifier, Memory, OpSet, TypeStore};
use plir_print::print_op;
use plir_read::read_op;
use plir_read_ir::{IrErr, IrFault, read_ir};
use plir_read_own::ReadSet;
use plir_roundtrip::laws::{
    ir_readable_can_be_printed, ir_tree_is_read_back, ir_uses_stand, new_modules_can_be_read_back,
    op_is_read_back,
};
use plir_roundtrip::{Obstacle, ir_obstacle};
use plir_scripts::Stop;
use std::alloc::Global;
use thiserror::Error;

/// Why an operation is not copied by its text.
#[derive(Clone, Copy, Debug, PartialEq, Eq, Error)]
pub enum CopyErr {
    /// This stands against reading it back.
    #[error("{0}")]
    Obstacle(Obstacle),
    /// Memory or room for a node is wanting.
    #[error("{0}")]
    Wanting(IrErr),
}

/// Copies an operation with all below it into another context, by its text.
pub fn copy_by_text<D: OpSet>(
    alloc: Global,
    from: &Context<D>,
    op: Ptr<Operation>,
    into: &mut Context<D>,
) -> Result<Ptr<Operation>, Stop>
    requires live { IsLive from.now (AnyNode.Operation op) }
    requires readable { IsReadable D.OpSet from.now op }
    requires types { Grows from.now.types into.old.types }
    ensures same { IfOk result (λ q. IsSameTree from.now into.new (AnyNode.Operation op) (AnyNode.Operation q)) }
{
    let printed = print_op(alloc, from, op)?;
    let text = printed.as_str();
    let read = read_op(alloc, into, text);
    op_is_read_back::<D>(text, &read);
    let _types = into.types();
    match read {
        Ok(copy) => Ok(copy),
        Err(found) => Err(Stop::from(found)),
    }
}

/// Copies a new module: of that nothing else is asked.
pub fn copy_new_module<D: OpSet>(
    alloc: Global,
    from: &Context<D>,
    op: Ptr<Operation>,
    name: &Identifier,
    into: &mut Context<D>,
) -> Result<Ptr<Operation>, Stop>
    requires live { IsLive from.now (AnyNode.Operation op) }
    requires new { IsNewModule from.now op name.now }
    requires types { Grows from.now.types into.old.types }
    ensures same { IfOk result (λ q. IsSameTree from.now into.new (AnyNode.Operation op) (AnyNode.Operation q)) }
{
    let _name = name.as_str();
    from.stands();
    new_modules_can_be_read_back::<D>();
    copy_by_text(alloc, from, op, into)
}

// The text of an operation of any kind.
fn text_of<D: ReadSet>(alloc: Global, ctx: &Context<D>, op: Ptr<Operation>) -> Result<String, IrErr>
    requires live { IsLive ctx.now (AnyNode.Operation op) }
    requires printable { IsPrintable ctx.now (AnyNode.Operation op) }
    ensures text { IfOk result (λ s. string_bytes s ≡ op_text D.OpSet ctx.now op) }
    ensures refused { IfErr result (λ e. e.fault ≡ IrFault.Text Fault.Memory) }
    ensures whole { IsWellFormed D.attr_handles ctx.now }
{
    match print_op(alloc, ctx, op) {
        Ok(printed) => Ok(printed),
        Err(Memory) => Err(IrErr {
            line: 0,
            column: 0,
            fault: IrFault::Text(Fault::Memory),
        }),
    }
}

/// Copies an operation of any kind with all below it into another context, by its text: only memory or room can be
/// wanting.
pub fn copy_ir_by_text<D: ReadSet>(
    alloc: Global,
    from: &Context<D>,
    op: Ptr<Operation>,
    into: &mut Context<D>,
) -> Result<Ptr<Operation>, IrErr>
    requires live { IsLive from.now (AnyNode.Operation op) }
    requires printable { IsPrintable from.now (AnyNode.Operation op) }
    requires readable { HasReadableText D.OpSet D.find_kind from.now op }
    requires uses { UsesStand D.OpSet D.is_isolated from.now op }
    requires types { Grows from.now.types into.old.types }
    ensures same { IfOk result (λ q. IsSameIrTree from.now into.new (AnyNode.Operation op) (AnyNode.Operation q)) }
    ensures wanting { IfErr result (λ e. IsRoomWanting e.fault) }
{
    let printed = text_of(alloc, from, op)?;
    let text = printed.as_str();
    let read = read_ir(alloc, into, text);
    ir_tree_is_read_back::<D>(text, &read);
    let _types = into.types();
    read
}

// Copies an operation against which nothing stands, by its text, into its own context.
fn copy_readable<D: ReadSet>(
    alloc: Global,
    ctx: &mut Context<D>,
    op: Ptr<Operation>,
) -> Result<Ptr<Operation>, IrErr>
    requires live { IsLive ctx.old (AnyNode.Operation op) }
    requires readable { IsIrReadable D.OpSet D.find_kind D.is_isolated ctx.old op }
    ensures same { IfOk result (λ q. IsSameIrTree ctx.old ctx.new (AnyNode.Operation op) (AnyNode.Operation q)) }
    ensures wanting { IfErr result (λ e. IsRoomWanting e.fault) }
{
    ir_readable_can_be_printed::<D>();
    ir_uses_stand::<D>();
    let printed = text_of(alloc, ctx, op)?;
    let text = printed.as_str();
    let read = read_ir(alloc, ctx, text);
    ir_tree_is_read_back::<D>(text, &read);
    let _types = ctx.types();
    read
}

/// Copies an operation of any kind with all below it, by its text, into its own context, where nothing stands against
/// that: then only memory or room can be wanting.
pub fn copy_beside<D: ReadSet>(
    alloc: Global,
    ctx: &mut Context<D>,
    op: Ptr<Operation>,
) -> Result<Ptr<Operation>, CopyErr>
    requires { IsLive ctx.old (AnyNode.Operation op) }
    ensures same { IfOk result (λ q. IsSameIrTree ctx.old ctx.new (AnyNode.Operation op) (AnyNode.Operation q)) }
    ensures refused { IfErr result (IsCopyRefusal D.OpSet D.find_kind D.is_isolated ctx.old op) }
{
    if let Some(why) = ir_obstacle(ctx, op) {
        return Err(CopyErr::Obstacle(why));
    }
    match copy_readable(alloc, ctx, op) {
        Ok(copy) => Ok(copy),
        Err(found) => Err(CopyErr::Wanting(found)),
    }
}
