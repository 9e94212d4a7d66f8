//! Refusals of numbers: each has the number that is asked for, and the one that is there.
use thiserror::Error;

/// An operation has another number of regions than is asked for.
#[derive(Clone, Copy, PartialEq, Eq, Debug, Error)]
#[error("Expected {0} regions, found {1}")]
pub struct NRegionsVerifyErr(pub usize, pub usize);

/// An operation has more regions than are allowed.
#[derive(Clone, Copy, PartialEq, Eq, Debug, Error)]
#[error("At most {0} regions expected, but found {1} regions")]
pub struct AtMostNRegionVerifyErr(pub usize, pub usize);

/// An operation has another number of results than is asked for.
#[derive(Clone, Copy, PartialEq, Eq, Debug, Error)]
#[error("Expected {0} result(s), but found {1} results")]
pub struct NResultsVerifyErr(pub usize, pub usize);

/// An operation has more results than are allowed.
#[derive(Clone, Copy, PartialEq, Eq, Debug, Error)]
#[error("At most {0} results expected, but found {1} results")]
pub struct AtMostNResultsVerifyErr(pub usize, pub usize);

/// An operation has fewer results than are needed.
#[derive(Clone, Copy, PartialEq, Eq, Debug, Error)]
#[error("Expected at least {0} results, but found {1} results")]
pub struct AtLeastNResultsVerifyErr(pub usize, pub usize);

/// An operation has another number of operands than is asked for.
#[derive(Clone, Copy, PartialEq, Eq, Debug, Error)]
#[error("Expected {0} operand(s), but found {1}")]
pub struct NOpdsVerifyErr(pub usize, pub usize);

/// An operation has more operands than are allowed.
#[derive(Clone, Copy, PartialEq, Eq, Debug, Error)]
#[error("At most {0} operands expected, but found {1} operands")]
pub struct AtMostNOpdsVerifyErr(pub usize, pub usize);

/// An operation has fewer operands than are needed.
#[derive(Clone, Copy, PartialEq, Eq, Debug, Error)]
#[error("Expected at least {0} operands, but found {1} operands")]
pub struct AtLeastNOpdsVerifyErr(pub usize, pub usize);

/// An operation has no result at an index: how many it has, and how many are needed.
#[derive(Clone, Copy, PartialEq, Eq, Debug, Error)]
#[error("Op has only {0} results, but expected at least {1}")]
pub struct NotEnoughResultsErr(pub usize, pub usize);

/// An operation has no operand at an index: how many it has, and how many are needed.
#[derive(Clone, Copy, PartialEq, Eq, Debug, Error)]
#[error("Op has only {0} operands, but expected at least {1}")]
pub struct NotEnoughOperandsErr(pub usize, pub usize);
