//! What an own attribute or type is given to ask which handles name types.

ghost use Rattle.std.specs.Prelude.{ℕ, ◌↔◌, IsTrue, All};

use plir_data::TypeHandle;

/// Tells which handles name types of a context, whatever the op set of that context is.
pub trait LiveTypes {
    // It answers each question, and the same question never in two ways.
    ghost can_tell: { Self → Type 0 };

    // The handle names a type.
    ghost is_live: { Self → ℕ → Type 0 };

    /// Whether a handle names a type.
    fn holds_type(&self, handle: TypeHandle) -> bool
        requires { can_tell self.now }
        ensures { IsTrue result ↔ is_live self.now handle };

    /// Whether all of these handles name types.
    fn holds_types(&self, handles: &[TypeHandle]) -> bool
        requires { can_tell self.now }
        ensures { IsTrue result ↔ All (is_live self.now) handles.now };
}

// Tells it by a test of handles.
#[derive(Clone, Copy)]
pub(crate) struct ByTest<F> {
    pub(crate) test: F,
}

impl<F: Fn(TypeHandle) -> bool> LiveTypes for ByTest<F> {
    ghost use Rattle.plir_dialect.specs.Tests.{IsSure, Passes};

    ghost can_tell = { λ it. F.IsAlwaysCallable it.test × IsSure (F.post it.test) };

    ghost is_live = { λ it. Passes (F.post it.test) };

    fn holds_type(&self, handle: TypeHandle) -> bool {
        (self.test)(handle)
    }

    fn holds_types(&self, handles: &[TypeHandle]) -> bool {
        handles.iter().all(|&handle| self.holds_type(handle))
    }
}
