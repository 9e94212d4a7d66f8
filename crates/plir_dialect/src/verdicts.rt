//! Verdicts of parts, as verdicts of the whole.
ghost use Rattle.std.specs.Prelude.{◌≡◌};
ghost use Rattle.plir_dialect.specs.declared.one_of.OneOf.TheVariants as Sides;
ghost use Rattle.plir_dialect.specs.declared.dialect.DialectErr.TheVariants as Errors;
ghost use Rattle.plir_dialect.specs.Verdicts.{verdict_of};

use crate::dialect::DialectErr;
use crate::one_of::OneOf;
use plir_data::VerifyErr;

// The verdict of a kind of operations.
pub(crate) fn of_kind<K, A>(
    verdict: Result<(), VerifyErr<K>>,
) -> Result<(), VerifyErr<DialectErr<K, A>>>
    ensures { result ≡ verdict_of Errors.Kind verdict }
{
    match verdict {
        Ok(()) => Ok(()),
        Err(VerifyErr::Refused { loc, err }) => Err(VerifyErr::Refused {
            loc,
            err: DialectErr::Kind(err),
        }),
        Err(VerifyErr::Memory) => Err(VerifyErr::Memory),
    }
}

// The verdict of an attribute.
pub(crate) fn of_attr<K, A>(
    verdict: Result<(), VerifyErr<A>>,
) -> Result<(), VerifyErr<DialectErr<K, A>>>
    ensures { result ≡ verdict_of Errors.Attr verdict }
{
    match verdict {
        Ok(()) => Ok(()),
        Err(VerifyErr::Refused { loc, err }) => Err(VerifyErr::Refused {
            loc,
            err: DialectErr::Attr(err),
        }),
        Err(VerifyErr::Memory) => Err(VerifyErr::Memory),
    }
}

// The verdict of the first side.
pub(crate) fn of_first<A, B>(
    verdict: Result<(), VerifyErr<A>>,
) -> Result<(), VerifyErr<OneOf<A, B>>>
    ensures { result ≡ verdict_of Sides.First verdict }
{
    match verdict {
        Ok(()) => Ok(()),
        Err(VerifyErr::Refused { loc, err }) => Err(VerifyErr::Refused {
            loc,
            err: OneOf::First(err),
        }),
        Err(VerifyErr::Memory) => Err(VerifyErr::Memory),
    }
}

// The verdict of the second side.
pub(crate) fn of_second<A, B>(
    verdict: Result<(), VerifyErr<B>>,
) -> Result<(), VerifyErr<OneOf<A, B>>>
    ensures { result ≡ verdict_of Sides.Second verdict }
{
    match verdict {
        Ok(()) => Ok(()),
        Err(VerifyErr::Refused { loc, err }) => Err(VerifyErr::Refused {
            loc,
            err: OneOf::Second(err),
        }),
        Err(VerifyErr::Memory) => Err(VerifyErr::Memory),
    }
}
