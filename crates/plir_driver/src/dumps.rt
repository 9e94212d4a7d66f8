//! The operation as it stands in front of a pass and behind it.
ghost use Rattle.std.specs.Prelude.{◌≡◌, ◌↔◌, ◌++◌, false, true, IsSome, IsTrue, Ok, OnOk, string_bytes};
ghost use Rattle.plir_core.specs.ContextView.{IsLive};
ghost use Rattle.plir_core.specs.declared.ptr.IRNode.{IRNode as AnyNode};
ghost use Rattle.plir_driver.specs.Dumps.{IsDumped, IsShown, dump_head};
ghost use Rattle.plir_pipelines.specs.Passes.{bearer};

use crate::choices::Reports;
use plir_core::{Context, Operation, Ptr};
use plir_data::{Memory, OpSet};
use plir_pipelines::{Offered, pass_of};
use plir_print::{is_printable, print_op};
use std::alloc::{AllocError, Global};

/// Whether the operation is dumped in front of passes of a name.
pub fn is_dumped_before<P: Offered>(reports: &Reports<P>, name: &str) -> bool
    ensures { IsTrue result ↔ IsSome (bearer P.pass_name reports.now.before.items name.now) }
{
    pass_of(reports.before.as_slice(), name).is_some()
}

// Puts the text of the operation, or that it has none.
fn put_shown<D: OpSet>(
    log: &mut String,
    alloc: Global,
    ctx: &Context<D>,
    root: Ptr<Operation>,
) -> Result<(), Memory>
    requires { IsLive ctx.now (AnyNode.Operation root) }
    ensures { OnOk result ((shown : _) × IsShown D.OpSet root ctx.now shown ×
        (string_bytes log.new ≡ string_bytes log.old ++ shown)) }
{
    if !is_printable(ctx, root) {
        log.push_str("an operation lacks an attribute that its text tells")?;
        return Ok(());
    }
    let text = print_op(alloc, ctx, root)?;
    log.push_str(text.as_str())?;
    Ok(())
}

// Puts the line that names a moment and a pass.
fn put_head(log: &mut String, moment: &str, name: &str) -> Result<(), AllocError>
    ensures { OnOk result (string_bytes log.new ≡ string_bytes log.old ++ dump_head moment.now name.now) }
{
    writeln!(log, "// -----// IR Dump {moment} {name} //----- //")
}

/// Puts the operation under a line that names a moment and a pass, and an empty line behind it, where that is asked
/// for.
pub fn put_dump<D: OpSet>(
    log: &mut String,
    alloc: Global,
    is_asked: bool,
    moment: &str,
    name: &str,
    ctx: &Context<D>,
    root: Ptr<Operation>,
) -> Result<(), Memory>
    requires { IsLive ctx.now (AnyNode.Operation root) }
    ensures asked { is_asked ≡ true → OnOk result (IsDumped D.OpSet root moment.now name.now ctx.now
        (string_bytes log.old) (string_bytes log.new)) }
    ensures unasked { is_asked ≡ false → (result ≡ Ok tt) × (log.new ≡ log.old) }
{
    if !is_asked {
        return Ok(());
    }
    put_head(log, moment, name)?;
    put_shown(log, alloc, ctx, root)?;
    log.push_str("\n\n")?;
    Ok(())
}
