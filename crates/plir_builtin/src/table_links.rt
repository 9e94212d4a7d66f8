//! What the walk of a table reads of a context.
ghost use Rattle.std.specs.Prelude.{◌≡◌, Bool, true, length, [], ◌∷◌};
ghost use Rattle.plir_core.specs.declared.ptr.Operation.{Operation as OperationKind};
ghost use Rattle.plir_core.specs.declared.ptr.Ptr.{Ptr as AnyPtr};
ghost use Rattle.plir_core.specs.declared.ptr.IRNode.{IRNode as AnyNode};

use crate::symbols::is_table;
use plir_core::{Context, Operation, Ptr, Region};
use plir_data::OpSet;
use plir_walk::NodeLinks;

/// A context whose tables can be walked: [`Context`] is one, for every op set.
pub trait TableLinks: NodeLinks {
    // Which operations are of table kind.
    ghost is_table_of: { Self → AnyPtr OperationKind → Bool };

    /// Whether an operation is a symbol table.
    fn is_table(&self, op: Ptr<Operation>) -> bool
        requires { (Self.look self.now).live (AnyNode.Operation op) ≡ true }
        ensures { result ≡ is_table_of self.now op };

    /// The one region of an operation.
    fn one_region(&self, op: Ptr<Operation>) -> Ptr<Region>
        requires live { (Self.look self.now).live (AnyNode.Operation op) ≡ true }
        requires one { length ((Self.look self.now).children (AnyNode.Operation op)) ≡ 1 }
        ensures { (Self.look self.now).children (AnyNode.Operation op) ≡ AnyNode.Region result ∷ [] };
}

impl<D: OpSet> TableLinks for Context<D> {
    ghost use Rattle.plir_builtin.specs.TableWalks.{is_table_at};

    ghost is_table_of = { is_table_at D.is_symbol_table };

    fn is_table(&self, op: Ptr<Operation>) -> bool {
        is_table(self, op)
    }

    fn one_region(&self, op: Ptr<Operation>) -> Ptr<Region> {
        op.get_region(self, 0)
    }
}
