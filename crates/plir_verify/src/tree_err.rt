//! Why a tree is not right.
ghost use Rattle.std.specs.Prelude.{◌≡◌};
ghost use Rattle.plir_verify.specs.RuleRefusals.{of_builtin, of_own};

use plir_builtin::OpVerifyErr;
use plir_data::{AttrVerifyErr, VerifyErr};
use std::error::Error as StdError;
use thiserror::Error;

/// Why an operation of a tree is not right: the refusal of its kind's verifier, or of an attribute that it holds. The
/// text is that refusal's.
#[derive(Debug, Drop, Error)]
#[error_bound(E: StdError)]
pub enum TreeVerifyErr<E: StdError> {
    /// A builtin operation breaks a rule of its kind.
    #[error("{0}")]
    Op(OpVerifyErr<E>),
    /// An operation of a kind of the user's own breaks the rule of its kind.
    #[error("{0}")]
    Own(E),
    /// An attribute in the dictionary of the operation is not valid.
    #[error("{0}")]
    Attr(AttrVerifyErr<E>),
}

/// The answer of the verifier of a builtin operation as that of an operation of a tree.
pub(crate) fn of_builtin<E: StdError>(
    answer: Result<(), VerifyErr<OpVerifyErr<E>>>,
) -> Result<(), VerifyErr<TreeVerifyErr<E>>>
    ensures { result ≡ of_builtin answer }
{
    match answer {
        Ok(()) => Ok(()),
        Err(VerifyErr::Refused { loc, err }) => Err(VerifyErr::Refused {
            loc,
            err: TreeVerifyErr::Op(err),
        }),
        Err(VerifyErr::Memory) => Err(VerifyErr::Memory),
    }
}

/// The answer of the verifier of an own operation as that of an operation of a tree.
pub(crate) fn of_own<E: StdError>(
    answer: Result<(), VerifyErr<E>>,
) -> Result<(), VerifyErr<TreeVerifyErr<E>>>
    ensures { result ≡ of_own answer }
{
    match answer {
        Ok(()) => Ok(()),
        Err(VerifyErr::Refused { loc, err }) => Err(VerifyErr::Refused {
            loc,
            err: TreeVerifyErr::Own(err),
        }),
        Err(VerifyErr::Memory) => Err(VerifyErr::Memory),
    }
}
