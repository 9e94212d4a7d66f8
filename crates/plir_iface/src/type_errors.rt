//! Refusals of types. An id is a type's id alone, as `dialect.name`.
ghost use Rattle.plir_iface.specs.TypeRefusals.{ReportsFewOperands, ReportsFewResults, ReportsOtherOperand};
ghost use Rattle.plir_iface.specs.TypeRefusals.{ReportsOtherResult};
ghost use Rattle.plir_iface.specs.TypeRefusals.{ReportsImpls, ReportsOperandN, ReportsResultN, ReportsOperandsMN};
ghost use Rattle.plir_iface.specs.TypeRefusals.{ReportsResultsMN, ReportsRule};

use crate::counts::{NotEnoughOperandsErr, NotEnoughResultsErr};
use crate::side::Side;
use std::fmt::Display;
use thiserror::Error;

/// There are too few values: how many there are, and how many are needed.
#[derive(Clone, Copy)]
pub struct TooFew {
    pub found: usize,
    pub needed: usize,
}

/// A value has a type that fails a test: where it is, the name of what is asked for, and the id of its type.
#[derive(Clone, Copy)]
pub struct TypeMismatch {
    pub side: Side,
    pub place: usize,
    pub wanted: &'static str,
    pub found: &'static str,
}

/// How types break a rule.
#[derive(Clone, Copy)]
pub enum TypeFault {
    /// There are too few values.
    Few(TooFew),
    /// A value has a wrong type.
    Wrong(TypeMismatch),
}

/// A value has a type of another kind than is asked for: the name of that kind, and the type's text.
#[derive(Drop)]
pub struct OtherKind {
    pub wanted: &'static str,
    pub found: String,
}

impl From<TooFew> for NotEnoughOperandsErr {
    ghost from_gives = { ReportsFewOperands };

    fn from(few: TooFew) -> NotEnoughOperandsErr {
        NotEnoughOperandsErr(few.found, few.needed)
    }
}

impl From<TooFew> for NotEnoughResultsErr {
    ghost from_gives = { ReportsFewResults };

    fn from(few: TooFew) -> NotEnoughResultsErr {
        NotEnoughResultsErr(few.found, few.needed)
    }
}

/// An operand has a type of another kind: the id that is asked for, and the type's text.
#[derive(PartialEq, Eq, Drop, Debug, Error)]
#[error("Expected operand type {0}, but found {1}")]
pub struct AllOperandsOfTypeVerifyErr(pub &'static str, pub String);

impl From<OtherKind> for AllOperandsOfTypeVerifyErr {
    ghost from_gives = { ReportsOtherOperand };

    fn from(other: OtherKind) -> AllOperandsOfTypeVerifyErr {
        AllOperandsOfTypeVerifyErr(other.wanted, other.found)
    }
}

/// A result has a type of another kind: the id that is asked for, and the type's text.
#[derive(PartialEq, Eq, Drop, Debug, Error)]
#[error("Expected result type {0}, but found {1}")]
pub struct AllResultsOfTypeVerifyErr(pub &'static str, pub String);

impl From<OtherKind> for AllResultsOfTypeVerifyErr {
    ghost from_gives = { ReportsOtherResult };

    fn from(other: OtherKind) -> AllResultsOfTypeVerifyErr {
        AllResultsOfTypeVerifyErr(other.wanted, other.found)
    }
}

/// A value has a type that does not implement an interface: its index, the interface's name and the type's id.
#[derive(Clone, Copy, PartialEq, Eq, Debug, Error)]
pub enum TypeInterfaceImplsErr {
    /// The operand at an index.
    #[error("Expected operand {0} to implement {1}, but {2} does not")]
    Operand(usize, &'static str, &'static str),
    /// The result at an index.
    #[error("Expected result {0} to implement {1}, but {2} does not")]
    Result(usize, &'static str, &'static str),
    /// An operand of the segment at an index.
    #[error("Expected operand segment {0} to implement {1}, but {2} does not")]
    Segment(usize, &'static str, &'static str),
}

impl From<TypeMismatch> for TypeInterfaceImplsErr {
    ghost from_gives = { ReportsImpls };

    fn from(m: TypeMismatch) -> TypeInterfaceImplsErr {
        match m.side {
            Side::Operands => TypeInterfaceImplsErr::Operand(m.place, m.wanted, m.found),
            Side::Results => TypeInterfaceImplsErr::Result(m.place, m.wanted, m.found),
        }
    }
}

/// The operand at an index has a type of another kind: the id that is asked for, and the one that is there.
#[derive(Clone, Copy, PartialEq, Eq, Debug, Error)]
pub enum OperandNOfTypeError {
    /// The ids.
    #[error("Expected operand type {0}, but found {1}")]
    AllOperandsOfTypeVerifyErr(&'static str, &'static str),
}

impl From<TypeMismatch> for OperandNOfTypeError {
    ghost from_gives = { ReportsOperandN };

    fn from(m: TypeMismatch) -> OperandNOfTypeError {
        OperandNOfTypeError::AllOperandsOfTypeVerifyErr(m.wanted, m.found)
    }
}

/// The result at an index has a type of another kind: the id that is asked for, and the one that is there.
#[derive(Clone, Copy, PartialEq, Eq, Debug, Error)]
pub enum ResultNOfTypeError {
    /// The ids.
    #[error("Expected result type {0}, but found {1}")]
    AllResultsOfTypeVerifyErr(&'static str, &'static str),
}

impl From<TypeMismatch> for ResultNOfTypeError {
    ghost from_gives = { ReportsResultN };

    fn from(m: TypeMismatch) -> ResultNOfTypeError {
        ResultNOfTypeError::AllResultsOfTypeVerifyErr(m.wanted, m.found)
    }
}

/// The operands in a range of indices are not as asked for.
#[derive(Clone, Copy, PartialEq, Eq, Debug, Error)]
pub enum OperandsMNOfTypeError {
    /// There are too few: how many there are, and how many are needed.
    #[error("Op has only {0} operands, but expected at least {1}")]
    NotEnoughOperands(usize, usize),
    /// One has a type of another kind: its index, the id that is asked for, and the one that is there.
    #[error("Expected operand {0} to be of type {1}, but found {2}")]
    UnexpectedType(usize, &'static str, &'static str),
}

impl From<TypeFault> for OperandsMNOfTypeError {
    ghost from_gives = { ReportsOperandsMN };

    fn from(fault: TypeFault) -> OperandsMNOfTypeError {
        match fault {
            TypeFault::Few(few) => {
                OperandsMNOfTypeError::NotEnoughOperands(few.found, few.needed)
            }
            TypeFault::Wrong(m) => {
                OperandsMNOfTypeError::UnexpectedType(m.place, m.wanted, m.found)
            }
        }
    }
}

/// The results in a range of indices are not as asked for.
#[derive(Clone, Copy, PartialEq, Eq, Debug, Error)]
pub enum ResultsMNOfTypeError {
    /// There are too few: how many there are, and how many are needed.
    #[error("Op has only {0} results, but expected at least {1}")]
    NotEnoughResults(usize, usize),
    /// One has a type of another kind: its index, the id that is asked for, and the one that is there.
    #[error("Expected result {0} to be of type {1}, but found {2}")]
    UnexpectedType(usize, &'static str, &'static str),
}

impl From<TypeFault> for ResultsMNOfTypeError {
    ghost from_gives = { ReportsResultsMN };

    fn from(fault: TypeFault) -> ResultsMNOfTypeError {
        match fault {
            TypeFault::Few(few) => ResultsMNOfTypeError::NotEnoughResults(few.found, few.needed),
            TypeFault::Wrong(m) => {
                ResultsMNOfTypeError::UnexpectedType(m.place, m.wanted, m.found)
            }
        }
    }
}

/// Why a rule of types was refused: there are too few values, by the error `F`, or a type is wrong, by the error `E`.
#[derive(Clone, Copy, PartialEq, Eq, Debug, Error)]
#[error_bound(F: Display, E: Display)]
pub enum TypeRuleErr<F, E> {
    /// There are too few values.
    #[error(transparent)]
    TooFew(F),
    /// A type is wrong.
    #[error(transparent)]
    WrongType(E),
}

impl<F: From<TooFew>, E: From<TypeMismatch>> From<TypeFault> for TypeRuleErr<F, E> {
    ghost from_gives = { ReportsRule F.from_gives E.from_gives };

    fn from(fault: TypeFault) -> TypeRuleErr<F, E> {
        match fault {
            TypeFault::Few(few) => TypeRuleErr::TooFew(F::from(few)),
            TypeFault::Wrong(m) => TypeRuleErr::WrongType(E::from(m)),
        }
    }
}
