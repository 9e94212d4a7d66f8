//! Why a builtin operation is not right.
ghost use Rattle.std.specs.Prelude.{◌≡◌};
ghost use Rattle.plir_builtin.specs.Reported.{IsReportedAs};

use crate::constant_op::ConstantOpVerifyErr;
use crate::forward_ref_op::ForwardRefOpExistenceErr;
use crate::func_op::FuncOpTypeErr;
use crate::symbol_table_op::SymbolTableInterfaceErr;
use crate::symbols::SymbolOpInterfaceErr;
use plir_data::VerifyErr;
use plir_iface::{
    NOpdsVerifyErr, NRegionsVerifyErr, NResultsVerifyErr, SingleBlockRegionVerifyErr,
};
use std::error::Error as StdError;
use thiserror::Error;

/// Why a builtin operation is not right: the refusal of the first interface that refuses it, of those that it declares,
/// or of its own rule. The text is that refusal's.
#[derive(Debug, Drop, Error)]
#[error_bound(E: StdError)]
pub enum OpVerifyErr<E> {
    /// The number of regions is another.
    #[error("{0}")]
    NRegions(NRegionsVerifyErr),
    /// A region has no block, or more than one.
    #[error("{0}")]
    SingleBlockRegion(SingleBlockRegionVerifyErr),
    /// The symbol table is not right.
    #[error("{0}")]
    SymbolTable(SymbolTableInterfaceErr<E>),
    /// The symbol has no name.
    #[error("{0}")]
    SymbolOp(SymbolOpInterfaceErr),
    /// The number of operands is another.
    #[error("{0}")]
    NOpds(NOpdsVerifyErr),
    /// The number of results is another.
    #[error("{0}")]
    NResults(NResultsVerifyErr),
    /// The function has no type of functions.
    #[error("{0}")]
    FuncType(FuncOpTypeErr),
    /// The constant's value is not right.
    #[error("{0}")]
    ConstantValue(ConstantOpVerifyErr),
    /// A forward reference is left.
    #[error("{0}")]
    ForwardRefExistence(ForwardRefOpExistenceErr),
}

impl<E> From<NRegionsVerifyErr> for OpVerifyErr<E> {
    ghost use Rattle.plir_builtin.specs.declared.op_verify_err.OpVerifyErr.TheVariants.{NRegions as Told};

    ghost from_gives = { λ a b. b ≡ Told a };

    fn from(err: NRegionsVerifyErr) -> OpVerifyErr<E> {
        OpVerifyErr::NRegions(err)
    }
}

impl<E> From<SingleBlockRegionVerifyErr> for OpVerifyErr<E> {
    ghost use Rattle.plir_builtin.specs.declared.op_verify_err.OpVerifyErr.TheVariants.{SingleBlockRegion as Told};

    ghost from_gives = { λ a b. b ≡ Told a };

    fn from(err: SingleBlockRegionVerifyErr) -> OpVerifyErr<E> {
        OpVerifyErr::SingleBlockRegion(err)
    }
}

impl<E> From<SymbolTableInterfaceErr<E>> for OpVerifyErr<E> {
    ghost use Rattle.plir_builtin.specs.declared.op_verify_err.OpVerifyErr.TheVariants.{SymbolTable as Told};

    ghost from_gives = { λ a b. b ≡ Told a };

    fn from(err: SymbolTableInterfaceErr<E>) -> OpVerifyErr<E> {
        OpVerifyErr::SymbolTable(err)
    }
}

impl<E> From<SymbolOpInterfaceErr> for OpVerifyErr<E> {
    ghost use Rattle.plir_builtin.specs.declared.op_verify_err.OpVerifyErr.TheVariants.{SymbolOp as Told};

    ghost from_gives = { λ a b. b ≡ Told a };

    fn from(err: SymbolOpInterfaceErr) -> OpVerifyErr<E> {
        OpVerifyErr::SymbolOp(err)
    }
}

impl<E> From<NOpdsVerifyErr> for OpVerifyErr<E> {
    ghost use Rattle.plir_builtin.specs.declared.op_verify_err.OpVerifyErr.TheVariants.{NOpds as Told};

    ghost from_gives = { λ a b. b ≡ Told a };

    fn from(err: NOpdsVerifyErr) -> OpVerifyErr<E> {
        OpVerifyErr::NOpds(err)
    }
}

impl<E> From<NResultsVerifyErr> for OpVerifyErr<E> {
    ghost use Rattle.plir_builtin.specs.declared.op_verify_err.OpVerifyErr.TheVariants.{NResults as Told};

    ghost from_gives = { λ a b. b ≡ Told a };

    fn from(err: NResultsVerifyErr) -> OpVerifyErr<E> {
        OpVerifyErr::NResults(err)
    }
}

impl<E> From<FuncOpTypeErr> for OpVerifyErr<E> {
    ghost use Rattle.plir_builtin.specs.declared.op_verify_err.OpVerifyErr.TheVariants.{FuncType as Told};

    ghost from_gives = { λ a b. b ≡ Told a };

    fn from(err: FuncOpTypeErr) -> OpVerifyErr<E> {
        OpVerifyErr::FuncType(err)
    }
}

impl<E> From<ConstantOpVerifyErr> for OpVerifyErr<E> {
    ghost use Rattle.plir_builtin.specs.declared.op_verify_err.OpVerifyErr.TheVariants.{ConstantValue as Told};

    ghost from_gives = { λ a b. b ≡ Told a };

    fn from(err: ConstantOpVerifyErr) -> OpVerifyErr<E> {
        OpVerifyErr::ConstantValue(err)
    }
}

impl<E> From<ForwardRefOpExistenceErr> for OpVerifyErr<E> {
    ghost use Rattle.plir_builtin.specs.declared.op_verify_err.OpVerifyErr.TheVariants.{ForwardRefExistence as Told};

    ghost from_gives = { λ a b. b ≡ Told a };

    fn from(err: ForwardRefOpExistenceErr) -> OpVerifyErr<E> {
        OpVerifyErr::ForwardRefExistence(err)
    }
}

/// The answer of a verifier, with its refusal as that of another type, at the same location: so the verifier of an
/// operation answers what those of its interfaces answer.
pub fn reported<A, B: From<A>>(answer: Result<(), VerifyErr<A>>) -> Result<(), VerifyErr<B>>
    ensures { IsReportedAs B.from_gives answer result }
{
    match answer {
        Ok(()) => Ok(()),
        Err(VerifyErr::Refused { loc, err }) => Err(VerifyErr::Refused {
            loc,
            err: B::from(err),
        }),
        Err(VerifyErr::Memory) => Err(VerifyErr::Memory),
    }
}
