//! Operations as values of types of their own.
//!
//! An interface of operations is a trait over `Op` with a `verify`. To add one: its rule, a definition in `specs/` that
//! is named after it; its error, with the numbers that the rule compares; and the trait, whose `verify` ends in
//! `accept_if` (`verdict.rt`) or, for a rule of types, in one of the three verifiers of `misfits.rt`. The two clauses
//! `ok` and `refused` of `verify` read the same everywhere: it accepts exactly where the rule holds, and else reports
//! the error at the operation's location.
ghost use Rattle.std.specs.Prelude.{◌≡◌, Some};
ghost use Rattle.plir_core.specs.ContextView.{IsLive, location_of};
ghost use Rattle.plir_core.specs.declared.ptr.IRNode.{IRNode as AnyNode};
ghost use Rattle.plir_core.specs.declared.ptr.Ptr.{Ptr as PtrTo};
ghost use Rattle.plir_core.specs.declared.ptr.Operation.{Operation as OperationKind};

use plir_core::{Context, Operation, Ptr};
use plir_data::{Location, OpSet};

/// What stands for an operation of the op set `D`: each interface of operations is a trait over this one.
pub trait Op<D: OpSet> {
    // The operation.
    ghost pointer: { Self → PtrTo OperationKind };

    /// The operation.
    fn get_operation(&self) -> Ptr<Operation>
        ensures { result ≡ pointer self.now };

    /// Where the operation stands in a source text.
    final fn loc(&self, ctx: &Context<D>) -> Location
        requires { IsLive ctx.now (AnyNode.Operation (pointer self.now)) }
        ensures { location_of ctx.now (pointer self.now) ≡ Some result }
    {
        self.get_operation().loc(ctx)
    }
}
