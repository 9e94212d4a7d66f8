//! Laws of texts of operations: each function does nothing, and its contract is the law. Those whose names begin with
//! `ir_` speak of operations of any kind, and of `read_ir`; the others of builtin operations, and of `read_op`.
ghost use Rattle.plir_roundtrip.specs.BuiltinTexts.{BuiltinTextsAreRead};
ghost use Rattle.plir_roundtrip.specs.IrReadBack.{IsIrReadBack};
ghost use Rattle.plir_roundtrip.specs.IrReadableUses.{ReadableUsesStand};
ghost use Rattle.plir_roundtrip.specs.OpAnswer.{IsReadBack, NewModulesReadable, TextsStand};
ghost use Rattle.plir_roundtrip.specs.SameReadBack.{IsSameReadBack};
ghost use Rattle.plir_roundtrip.specs.TextsStanding.{IrTextsArePrintable, IrTextsStand};

use plir_attr_text::ReadErr;
use plir_core::laws::contexts_stand;
use plir_core::{Operation, Ptr};
use plir_data::OpSet;
use plir_data::laws::dictionary_is_that_of_its_entries;
use plir_read::laws::text_stands_for_one_operation;
use plir_read_ir::IrErr;
use plir_read_own::ReadSet;

/// The text of an operation that can be read back stands for it, as it is written.
pub fn text_stands_for_its_operation<D: OpSet>()
    ensures { TextsStand D.OpSet }
{
    contexts_stand::<D>();
}

/// A new module can be read back from its text.
pub fn new_modules_can_be_read_back<D: OpSet>()
    ensures { NewModulesReadable D.OpSet }
{
    contexts_stand::<D>();
}

/// The text of an operation is read back as the same tree.
///
/// `text` is what `print_op` answered for an operation of a context `printed`, and `read` is what `read_op` answered to
/// that text, with a context `old` whose types have grown from those of `printed`, as `printed` itself later on; it
/// left the context `new`. So `read` is the root of the same tree in `new`, but for slots, versions and locations, or
/// memory was refused, or the context was full.
pub fn op_is_read_back<D: OpSet>(text: &str, read: &Result<Ptr<Operation>, ReadErr>)
    ensures { IsReadBack D.OpSet text.now read.now }
{
    contexts_stand::<D>();
    dictionary_is_that_of_its_entries::<D>();
    text_stands_for_one_operation();
}

/// The text that `print_op` writes of an operation that can be read stands for it, as it is written: so `read_ir` finds
/// nothing wrong with it but, maybe, with what it uses.
pub fn ir_text_stands_for_its_operation<D: ReadSet>()
    ensures { IrTextsStand D.OpSet D.find_kind }
{
    contexts_stand::<D>();
}

/// An operation whose text can be read can be printed: it has what `print_op` asks.
pub fn ir_readable_can_be_printed<D: ReadSet>()
    ensures { IrTextsArePrintable D.OpSet D.find_kind }
{}

/// The text of an operation is read back as it was written.
///
/// `text` is what `print_op` answered for an operation of a context `printed`, and `read` is what `read_ir` answered to
/// that text; it left the context `new`. So `read` is an operation that holds what was written of the first, with all
/// below it; or memory was refused, or the context was full, or a name that the text uses means none of its values.
pub fn ir_op_is_read_back<D: ReadSet>(text: &str, read: &Result<Ptr<Operation>, IrErr>)
    ensures { IsIrReadBack D.OpSet D.find_kind D.is_isolated text.now read.now }
{
    contexts_stand::<D>();
    plir_read_ir::laws::text_stands_for_one_operation::<D>();
}

/// The text of an operation is read back as the same tree, with what each operation in it uses.
///
/// `text` and `read` are as in [`ir_op_is_read_back`]; `read_ir` was called with a context `old` whose types have grown
/// from those of `printed`, as `printed` itself later on. Each name that the text uses means, by the rules of the
/// reader, the value or the block that it was written for. So `read` is the root of the same tree in `new`, but for
/// slots, versions and locations: an operand is the value of the same index from the same place, and a successor the
/// block at the same place; or memory was refused, or the context was full.
pub fn ir_tree_is_read_back<D: ReadSet>(text: &str, read: &Result<Ptr<Operation>, IrErr>)
    ensures { IsSameReadBack D.OpSet D.find_kind D.is_isolated text.now read.now }
{
    contexts_stand::<D>();
    dictionary_is_that_of_its_entries::<D>();
    plir_read_ir::laws::text_stands_for_one_operation::<D>();
}

/// What the laws of operations of any kind ask holds of each operation that `is_readable` accepts: its text can be read
/// by `read_ir` too, and each name in it stands, since it uses none.
pub fn builtin_texts_are_read<D: ReadSet>()
    ensures { BuiltinTextsAreRead D.OpSet D.find_kind D.is_isolated }
{
    contexts_stand::<D>();
}

/// What `ir_tree_is_read_back` asks holds of each live operation of a context whose text stands for it, and at or under
/// which each operation uses what it can name: results and arguments of nodes of the tree that stand inside the same
/// modules, functions and isolated operations of it, and blocks of the region in which its own block stands.
/// `ir_obstacle` tests that.
pub fn ir_uses_stand<D: ReadSet>()
    ensures { ReadableUsesStand D.OpSet D.find_kind D.is_isolated }
{
    contexts_stand::<D>();
}
