//! A dialect with a kind, an attribute and a type, as a crate of its own would have it: tensors, and what fills them.
ghost use Rattle.std.specs.Prelude.{◌≡◌, ◌++◌, ◌∷◌, [], OnOk};
ghost use Rattle.std.specs.Fmt.{decimal};
ghost use Rattle.plir_data.specs.OwnParts.{chars};
ghost use Rattle.joined_dialects.specs.declared.my.MyKind.{MyKind};

use plir_builtin::reported;
use plir_core::{Context, Operation, Ptr};
use plir_data::{IntegerAttr, Location, Memory, OpSet, OwnKind, OwnText, TypeHandle, VerifyErr};
use plir_dialect::{Dialect, LiveTypes, NamesAsBuiltin, NoUses, OwnAttr, OwnRules, OwnType};
use plir_folding::FoldKind;
use plir_iface::{NOpdsInterface, NOpdsVerifyErr, Op};
use plir_passes::EffectKind;
use std::alloc::Global;
use thiserror::Error;

/// The kinds.
#[derive(Clone, Copy, PartialEq, Eq, Debug)]
pub enum MyKind {
    /// Makes a tensor.
    Fill,
    /// Shows a value.
    Show,
    /// Carries out what its block holds.
    Batch,
}

/// A tensor that is filled with one number.
#[derive(Clone, Copy, PartialEq, Eq, Hash, Debug)]
pub struct Dense {
    /// The number, at most 255.
    pub value: u32,
    /// The type of the tensor.
    pub ty: TypeHandle,
}

/// A number that is more than 255.
#[derive(Clone, Copy, PartialEq, Eq, Debug, Error)]
#[error("more than 255")]
pub struct TooLarge;

/// An operation that shows a value has not one operand.
#[derive(Clone, Copy, PartialEq, Eq, Debug, Error)]
#[error("shows not one value")]
pub struct NotOneValue;

/// So many elements of a type.
#[derive(Clone, Copy, PartialEq, Eq, Hash, Debug)]
pub struct Tensor {
    /// How many elements.
    pub length: u32,
    /// The type of each.
    pub element: TypeHandle,
}

/// The dialect.
pub type My = Dialect<MyKind, Dense, Tensor>;

/// An op set that the dialect is a part of. The constructors of its operations are generic in it: so they serve each
/// set that the dialect is joined to.
pub trait HasMy: OpSet {
    // A kind of the dialect, as one of the set.
    ghost of_my: { MyKind → Self.Kind };

    /// A kind of the dialect, as one of the set.
    fn of_my(kind: MyKind) -> Self::Kind
        ensures { result ≡ of_my kind };
}

impl HasMy for My {
    ghost of_my = { λ kind. kind };

    fn of_my(kind: MyKind) -> MyKind {
        kind
    }
}

/// An operation that shows a value: its one operand.
#[derive(Clone, Copy)]
struct ShowOp {
    op: Ptr<Operation>,
}

impl<D: OpSet> Op<D> for ShowOp {
    ghost pointer = { λ it. it.op };

    fn get_operation(&self) -> Ptr<Operation> {
        self.op
    }
}

impl<D: OpSet> NOpdsInterface<D, 1> for ShowOp {}

impl From<NOpdsVerifyErr> for NotOneValue {
    ghost use Rattle.std.specs.Prelude.{⊤};

    ghost from_gives = { λ _ _. ⊤ };

    fn from(_err: NOpdsVerifyErr) -> NotOneValue {
        NotOneValue
    }
}

// A number in decimal digits.
fn put_number(body: &mut OwnText, alloc: Global, n: u32) -> Result<(), Memory>
    ensures { OnOk result (body.new ≡ body.old ++ chars (decimal n) ∷ []) }
{
    let mut digits = String::new(alloc);
    write!(digits, "{n}")?;
    body.text(digits.as_str())
}

impl OwnKind for MyKind {
    ghost use Rattle.std.specs.Prelude.{false};
    ghost use Rattle.joined_dialects.specs.My.{id_of};

    type Err = NotOneValue;

    ghost is_terminator = { λ _. false };

    ghost is_symbol = { λ _. false };

    ghost is_symbol_table = { λ _. false };

    ghost is_symbol_user = { λ _. false };

    ghost id = { id_of };

    fn is_terminator(self) -> bool {
        false
    }

    fn is_symbol(self) -> bool {
        false
    }

    fn is_symbol_table(self) -> bool {
        false
    }

    fn is_symbol_user(self) -> bool {
        false
    }

    fn id(self) -> &'static str {
        match self {
            MyKind::Fill => "my.fill",
            MyKind::Show => "my.show",
            MyKind::Batch => "my.batch",
        }
    }
}

impl EffectKind for MyKind {
    ghost use Rattle.joined_dialects.specs.My.{has_effect as has_effect_of};

    ghost has_effect = { has_effect_of };

    fn has_effect(self) -> bool {
        !matches!(self, MyKind::Fill)
    }
}

impl FoldKind for MyKind {
    ghost use Rattle.std.specs.Prelude.{None};

    ghost fold = { λ _ _ _. None };

    fn fold(self, _left: &IntegerAttr, _right: &IntegerAttr) -> Option<IntegerAttr> {
        None
    }
}

impl NoUses for MyKind {}

impl NamesAsBuiltin for MyKind {}

impl<D: OpSet> OwnRules<D> for MyKind {
    ghost use Rattle.std.specs.Prelude.{◌≡◌, Some};
    ghost use Rattle.plir_core.specs.ContextView.{location_of};
    ghost use Rattle.joined_dialects.specs.My.{IsRight};

    ghost rule = { IsRight };

    ghost rule_refusal = { λ _ s op loc _. location_of s op ≡ Some loc };

    fn verify_op(
        self,
        _alloc: Global,
        ctx: &Context<D>,
        op: Ptr<Operation>,
    ) -> Result<(), VerifyErr<NotOneValue>> {
        match self {
            MyKind::Show => reported(NOpdsInterface::<D, 1>::verify(&ShowOp { op }, ctx)),
            _ => Ok(()),
        }
    }
}

impl OwnAttr for Dense {
    ghost use Rattle.std.specs.Prelude.{◌≡◌, [], ◌∷◌, Some, false, codes, nat_lt};
    ghost use Rattle.std.specs.Fmt.{decimal};
    ghost use Rattle.std.proofs.Common.{rules};
    ghost use Rattle.plir_data.specs.OwnParts.{chars, held};
    ghost use Rattle.joined_dialects.specs.MyLaws.{itself_held};

    type Err = TooLarge;

    ghost id = { λ _. codes "my.dense" };

    ghost text = { λ a. chars (codes "<") ∷ chars (decimal a.value) ∷ chars (codes "> : ") ∷ held a.ty ∷ [] };

    ghost get_type = { λ a. Some a.ty };

    ghost is_outlined = { λ _. false };

    ghost is_valid = { λ a. nat_lt a.value 256 };

    ghost refusal = { λ _ _. Unit {0} };

    ghost handles = { λ a. a.ty ∷ [] };

    fn id(&self) -> &'static str {
        "my.dense"
    }

    fn text(&self, alloc: Global) -> Result<OwnText, Memory> {
        let mut body = OwnText::new(alloc);
        body.text("<")?;
        put_number(&mut body, alloc, self.value)?;
        body.text("> : ")?;
        body.type_of(self.ty)?;
        Ok(body)
    }

    fn get_type(&self) -> Option<TypeHandle> {
        Some(self.ty)
    }

    fn is_outlined(&self) -> bool {
        false
    }

    fn verify(&self, _alloc: Global) -> Result<(), VerifyErr<TooLarge>> {
        if self.value < 256 {
            return Ok(());
        }
        Err(VerifyErr::Refused {
            loc: Location::Unknown,
            err: TooLarge,
        })
    }

    fn try_clone(&self, _alloc: Global) -> Result<Dense, Memory> {
        Ok(*self)
    }

    fn is_live<L: LiveTypes>(&self, types: &L) -> bool {
        types.holds_type(self.ty)
    }

    ghost eq_exact = { λ a b e. Prim.search rules };

    ghost type_held = { λ a h e. itself_held a.ty h e };

    ghost text_held = { λ a h m. m };
}

impl OwnType for Tensor {
    ghost use Rattle.std.specs.Prelude.{[], ◌∷◌, None, codes};
    ghost use Rattle.std.specs.Fmt.{decimal};
    ghost use Rattle.std.proofs.Common.{rules};
    ghost use Rattle.std.proofs.lemmas.Option.{none-some};
    ghost use Rattle.plir_data.specs.OwnParts.{chars, held};

    ghost id = { λ _. codes "my.tensor" };

    ghost text = { λ t. chars (codes "<") ∷ chars (decimal t.length) ∷ chars (codes " x ") ∷ held t.element
        ∷ chars (codes ">") ∷ [] };

    ghost signature = { λ _. None };

    ghost handles = { λ t. t.element ∷ [] };

    fn id(&self) -> &'static str {
        "my.tensor"
    }

    fn text(&self, alloc: Global) -> Result<OwnText, Memory> {
        let mut body = OwnText::new(alloc);
        body.text("<")?;
        put_number(&mut body, alloc, self.length)?;
        body.text(" x ")?;
        body.type_of(self.element)?;
        body.text(">")?;
        Ok(body)
    }

    fn signature(&self) -> Option<(&[TypeHandle], &[TypeHandle])> {
        None
    }

    fn is_live<L: LiveTypes>(&self, types: &L) -> bool {
        types.holds_type(self.element)
    }

    ghost eq_exact = { λ a b e. Prim.search rules };

    ghost arguments_held = { λ t p h e m. absurd (none-some p e) };

    ghost results_held = { λ t p h e m. absurd (none-some p e) };

    ghost text_held = { λ t h m. m };
}
