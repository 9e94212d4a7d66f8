//! Refusals of region edges.
use plir_data::TypeHandle;
use std::error::Error as StdError;
use thiserror::Error;

/// How the edges of an operation break their rule.
#[derive(Drop, Debug, Error)]
#[error_bound(E: StdError)]
pub enum RegionBranchOpInterfaceVerifyErr<E> {
    /// The operation is not laid out as its edges want it: the refusal of its own check.
    #[error("{0}")]
    Layout(E),
    /// Two edges with one target have other sets of receivers.
    #[error("region_edges must pass operands to the same receivers on all edges into a successor")]
    ReceiverSetMismatch,
    /// An edge starts at an operation that is no terminator, or that stands in no region of the operation itself.
    #[error("region_edges must only start at terminators in the regions of the op itself")]
    InvalidTerminator,
    /// What is read is an operand neither of the operation itself nor of the one at the edge's start.
    #[error("region_edges must only list operands of the op itself, or of the operation at the edge's source, as reads")]
    ReadNotOpOrSourceOperand,
    /// An edge leads to a region of another operation.
    #[error("region_edges must only target regions of the op itself")]
    ForeignRegionSuccessor,
    /// What flows is no operand of the operation at the edge's start.
    #[error("region_edges must only use operands of the operation at the edge's source as flow operands")]
    OperandNotAtBranchPoint,
    /// On an edge to a region, what receives is no argument of the region's entry block.
    #[error("region_edges must only use entry block arguments of the target region as receivers")]
    ReceiverNotRegionArgument,
    /// On an edge that leads behind the operation, what receives is no result of it.
    #[error("region_edges must only use results of the target op as receivers")]
    ReceiverNotResult,
    /// A value receives two operands on one edge.
    #[error("region_edges must not pass two operands of an edge to the same receiver")]
    DuplicateReceiver,
    /// An operand has another type than what receives it: the texts of the types.
    #[error("region_edges must pass operands to receivers of the same type, but {operand} flows into {receiver}")]
    FlowTypeMismatch { operand: String, receiver: String },
}

/// The point of the rule that an edge breaks.
#[derive(Clone, Copy)]
pub(crate) enum EdgeFault {
    /// It has another set of receivers than an edge with the same target.
    OtherReceivers,
    /// It starts at no terminator of the operation's regions.
    ForeignTerminator,
    /// It reads an operand of another operation.
    ForeignRead,
    /// It leads to a region of another operation.
    ForeignRegion,
    /// An operand of another operation flows.
    ForeignOperand,
    /// What receives is no argument of the entry block.
    NoArgument,
    /// What receives is no result.
    NoResult,
    /// A value receives twice.
    ReceivedTwice,
    /// An operand of the first type flows into a value of the second.
    OtherType(TypeHandle, TypeHandle),
}
