//! An op set of own kinds alone, one of which uses symbols.
use crate::builtin::calls::BuiltinCalls;
use crate::builtin::link_set::{NotLinked, is_linked};
use plir_builtin::{SymbolTableCollection, SymbolUses};
use plir_core::{Context, Operation, Ptr};
use plir_data::{KindSet, Memory, OwnKind, VerifyErr};
use plir_scripts::{Mismatch, ScriptKind, play};
use std::alloc::Global;

/// The one kind: its operations name a symbol, which has to stand in the body of their parent operation.
#[derive(Clone, Copy)]
pub struct CallKind;

impl OwnKind for CallKind {
    ghost use Rattle.std.specs.Prelude.{false, true, codes};

    type Err = NotLinked;

    ghost is_terminator = { λ _. false };

    ghost is_symbol = { λ _. false };

    ghost is_symbol_table = { λ _. false };

    ghost is_symbol_user = { λ _. true };

    ghost id = { λ _. codes "test.call" };

    fn is_terminator(self) -> bool {
        false
    }

    fn is_symbol(self) -> bool {
        false
    }

    fn is_symbol_table(self) -> bool {
        false
    }

    fn is_symbol_user(self) -> bool {
        true
    }

    fn id(self) -> &'static str {
        "test.call"
    }
}

impl SymbolUses<KindSet<CallKind>> for CallKind {
    ghost use Rattle.std.specs.Prelude.{◌≡◌, Some, false};
    ghost use Rattle.plir_core.specs.ContextView.{location_of};
    ghost use Rattle.plir_builtin_calls.specs.Links.{IsLinked};

    ghost uses_hold = { λ s op. IsLinked (λ _. false) s op };

    ghost use_refusal = { λ s op loc e. location_of s op ≡ Some loc };

    fn verify_symbol_uses(
        ctx: &Context<KindSet<CallKind>>,
        op: Ptr<Operation>,
        tables: &mut SymbolTableCollection,
    ) -> Result<(), VerifyErr<NotLinked>> {
        match is_linked(ctx, tables, op) {
            Ok(true) => Ok(()),
            Ok(false) => Err(VerifyErr::Refused {
                loc: op.loc(ctx),
                err: NotLinked,
            }),
            Err(Memory) => Err(VerifyErr::Memory),
        }
    }
}

impl ScriptKind for CallKind {
    fn of_word(word: &str) -> Option<CallKind> {
        match word {
            "call" => Some(CallKind),
            _ => None,
        }
    }
}

/// Plays a script of tables and operations over own kinds alone in a context with room for so many nodes.
///
/// # Errors
///
/// The first line whose answer is another one.
pub fn play_own(alloc: Global, max_nodes: u32, script: &str) -> Result<(), Mismatch> {
    play::<KindSet<CallKind>, BuiltinCalls>(alloc, max_nodes, script)
}
