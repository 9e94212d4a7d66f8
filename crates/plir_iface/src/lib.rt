// SPDX-License-Identifier: Apache-2.0
//! What operations may be: interfaces of counts, regions and types, each a trait with a rule, the verifier of the rule,
//! and the calls that the rule makes good.
#![tactic(auto)]

mod blocks;
mod counts;
mod ids;
mod index_range;
mod kinds;
mod misfits;
mod op;
mod operand_types;
mod operands;
mod places;
mod regions;
mod result_types;
mod results;
mod same_types;
mod side;
mod type_errors;
mod type_tests;
mod verdict;

pub use blocks::{SingleBlockRegionInterface, SingleBlockRegionVerifyErr};
pub use counts::{
    AtLeastNOpdsVerifyErr, AtLeastNResultsVerifyErr, AtMostNOpdsVerifyErr, AtMostNRegionVerifyErr,
    AtMostNResultsVerifyErr, NOpdsVerifyErr, NRegionsVerifyErr, NResultsVerifyErr,
    NotEnoughOperandsErr, NotEnoughResultsErr,
};
pub use index_range::{IndexRange, resolve_index_range};
pub use kinds::{
    IsTerminatorInterface, IsolatedFromAboveInterface, NoTerminatorInterface, RegionKind,
    RegionKindInterface,
};
pub use misfits::id_at;
pub use op::Op;
pub use operand_types::{
    AllOperandsImplsTy, AllOperandsOfType, OperandNImplsTy, OperandNOfType, OperandsMNImplsTy,
    OperandsMNOfType,
};
pub use operands::{
    AtLeastNOpdsInterface, AtMostNOpdsInterface, NOpdsInterface, OneOpdInterface,
    OptionalOpdInterface, verify_get_operand_n,
};
pub use plir_core::LessThanN;
pub use regions::{
    AtMostNRegionsInterface, AtMostOneRegionInterface, NRegionsInterface, OneRegionInterface,
};
pub use result_types::{
    AllResultsImplsTy, AllResultsOfType, ResultNImplsTy, ResultNOfType, ResultsMNImplsTy,
    ResultsMNOfType,
};
pub use results::{
    AtLeastNResultsInterface, AtMostNResultsInterface, NResultsInterface, OneResultInterface,
    OptionalResultInterface, verify_get_result_n,
};
pub use same_types::{
    SameOperandsAndResultType, SameOperandsAndResultTypeVerifyErr, SameOperandsType,
    SameOperandsTypeVerifyErr, SameResultsType, SameResultsTypeVerifyErr,
};
pub use side::Side;
pub use type_errors::{
    AllOperandsOfTypeVerifyErr, AllResultsOfTypeVerifyErr, OperandNOfTypeError,
    OperandsMNOfTypeError, ResultNOfTypeError, ResultsMNOfTypeError, TypeInterfaceImplsErr,
    TypeRuleErr,
};
pub use type_tests::{Implementing, OfType, TypeTest, first_failing};
pub use verdict::{accept_if, refusal};
