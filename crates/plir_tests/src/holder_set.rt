//! An op set whose types and attributes hold types: a tensor of elements of a type, a routine, which is a function with
//! effects, and an attribute that fills a tensor with one number.

ghost use Rattle.std.specs.Prelude.{◌≡◌, ◌++◌, ◌∷◌, [], IfOk, OnOk};
ghost use Rattle.std.specs.Fmt.{decimal};
ghost use Rattle.plir_data.specs.OwnParts.{chars};
ghost use Rattle.plir_tests.specs.Holders.{body_of, spaced_types};

use plir_data::{
    Memory, NeverRefused, NoMeaning, OpSet, OwnText, TypeHandle, TypeSig, TypeStore, VerifyErr,
};
use std::alloc::Global;

/// So many elements of a type.
#[derive(Clone, Copy, PartialEq, Eq, Hash, Debug)]
pub struct Tensor {
    /// How many elements.
    pub length: u32,
    /// The type of each.
    pub element: TypeHandle,
}

/// A type that holds types.
#[derive(PartialEq, Eq, Hash, Debug, Drop)]
pub enum HolderType {
    /// A tensor.
    Tensor(Tensor),
    /// A function with effects, by its arguments and results.
    Routine(TypeSig),
}

/// A tensor that is filled with one number.
#[derive(Clone, Copy, PartialEq, Eq, Hash, Debug)]
pub struct Dense {
    /// The number.
    pub value: u32,
    /// The type of the tensor.
    pub ty: TypeHandle,
}

/// The set.
#[derive(Clone, Copy, PartialEq, Eq, Debug)]
pub struct HolderSet;

// A number in decimal digits.
fn put_number(body: &mut OwnText, alloc: Global, n: u32) -> Result<(), Memory>
    ensures { OnOk result (body.new ≡ body.old ++ chars (decimal n) ∷ []) }
{
    let mut digits = String::new(alloc);
    write!(digits, "{n}")?;
    body.text(digits.as_str())
}

// Types, each behind a space.
fn put_types(body: &mut OwnText, handles: &[TypeHandle]) -> Result<(), Memory>
    ensures { OnOk result (body.new ≡ body.old ++ spaced_types handles.now) }
{
    'handles: for handle in handles {
        body.text(" ")?;
        body.type_of(*handle)?;
    }
    Ok(())
}

fn tensor_text(alloc: Global, tensor: Tensor) -> Result<OwnText, Memory>
    ensures { IfOk result (λ parts. parts ≡ body_of (HolderType.Tensor tensor)) }
{
    let mut body = OwnText::new(alloc);
    body.text("<")?;
    put_number(&mut body, alloc, tensor.length)?;
    body.text(" x ")?;
    body.type_of(tensor.element)?;
    body.text(">")?;
    Ok(body)
}

fn routine_text(alloc: Global, signature: &TypeSig) -> Result<OwnText, Memory>
    ensures { IfOk result (λ parts. parts ≡ body_of (HolderType.Routine signature.now)) }
{
    let mut body = OwnText::new(alloc);
    body.text("from")?;
    put_types(&mut body, signature.arguments.as_slice())?;
    body.text(" to")?;
    put_types(&mut body, signature.results.as_slice())?;
    Ok(body)
}

impl OpSet for HolderSet {
    ghost use Rattle.std.specs.Prelude.{[], ◌∷◌, Some, true, false, codes};
    ghost use Rattle.std.specs.Fmt.{decimal};
    ghost use Rattle.std.proofs.Common.{rules};
    ghost use Rattle.plir_data.specs.OwnParts.{chars, held};
    ghost use Rattle.plir_tests.specs.Holders.{body_of, handles_of, id_of, signature_of};

    type Kind = NoMeaning;

    type Attr = Dense;

    type Ty = HolderType;

    type Err = NeverRefused;

    ghost is_terminator = { λ _. false };

    ghost is_symbol = { λ _. false };

    ghost is_symbol_table = { λ _. false };

    ghost is_symbol_user = { λ _. false };

    ghost kind_id = { λ _. codes "none.meaning" };

    ghost attr_id = { λ _. codes "holder.dense" };

    ghost attr_text = { λ a. chars (codes "<") ∷ chars (decimal a.value) ∷ chars (codes "> : ") ∷ held a.ty ∷ [] };

    ghost attr_type = { λ a. Some a.ty };

    ghost attr_outlined = { λ _. false };

    ghost type_id = { id_of };

    ghost type_body_text = { body_of };

    ghost function_sig = { signature_of };

    ghost attr_is_valid = { λ _ _. true };

    ghost attr_refusal = { λ _ _ _. ⊥ };

    ghost attr_handles = { λ a. a.ty ∷ [] };

    ghost type_handles = { handles_of };

    fn is_terminator(_kind: NoMeaning) -> bool {
        false
    }

    fn is_symbol(_kind: NoMeaning) -> bool {
        false
    }

    fn is_symbol_table(_kind: NoMeaning) -> bool {
        false
    }

    fn is_symbol_user(_kind: NoMeaning) -> bool {
        false
    }

    fn kind_id(_kind: NoMeaning) -> &'static str {
        "none.meaning"
    }

    fn attr_id(_attr: &Dense) -> &'static str {
        "holder.dense"
    }

    fn attr_text(alloc: Global, attr: &Dense) -> Result<OwnText, Memory> {
        let mut body = OwnText::new(alloc);
        body.text("<")?;
        put_number(&mut body, alloc, attr.value)?;
        body.text("> : ")?;
        body.type_of(attr.ty)?;
        Ok(body)
    }

    fn attr_type(attr: &Dense) -> Option<TypeHandle> {
        Some(attr.ty)
    }

    fn attr_outlined(_attr: &Dense) -> bool {
        false
    }

    fn verify_attr<C: TypeStore<Self>>(
        _alloc: Global,
        _attr: &Dense,
        _ctx: &C,
    ) -> Result<(), VerifyErr<NeverRefused>> {
        Ok(())
    }

    fn clone_attr(_alloc: Global, attr: &Dense) -> Result<Dense, Memory> {
        Ok(*attr)
    }

    fn is_attr_live<C: TypeStore<Self>>(attr: &Dense, ctx: &C) -> bool {
        ctx.holds_type(attr.ty)
    }

    fn type_id(ty: &HolderType) -> &'static str {
        match ty {
            HolderType::Tensor(_) => "holder.tensor",
            HolderType::Routine(_) => "holder.routine",
        }
    }

    fn type_body_text(alloc: Global, ty: &HolderType) -> Result<OwnText, Memory> {
        match ty {
            HolderType::Tensor(tensor) => tensor_text(alloc, *tensor),
            HolderType::Routine(signature) => routine_text(alloc, signature),
        }
    }

    fn function_sig(ty: &HolderType) -> Option<(&[TypeHandle], &[TypeHandle])> {
        match ty {
            HolderType::Tensor(_) => None,
            HolderType::Routine(signature) => {
                Some((signature.arguments.as_slice(), signature.results.as_slice()))
            }
        }
    }

    fn is_type_live<C: TypeStore<Self>>(ty: &HolderType, ctx: &C) -> bool {
        match ty {
            HolderType::Tensor(tensor) => ctx.holds_type(tensor.element),
            HolderType::Routine(signature) => {
                ctx.holds_types(signature.arguments.as_slice())
                    && ctx.holds_types(signature.results.as_slice())
            }
        }
    }

    ghost use Rattle.plir_tests.specs.HolderLaws.{arguments_held, dense_held, results_held};
    ghost use Rattle.plir_tests.specs.HolderLaws.{body_held};

    ghost attr_eq_exact = { λ a b e. Prim.search rules };

    ghost type_eq_exact = { λ a b e. Prim.search rules };

    ghost attr_type_held = { λ a h e. dense_held a.ty h e };

    ghost arguments_held = { λ t p h e m. arguments_held t p h e m };

    ghost results_held = { λ t p h e m. results_held t p h e m };

    ghost attr_text_held = { λ a h m. m };

    ghost type_body_text_held = { λ t h m. body_held t h m };
}
