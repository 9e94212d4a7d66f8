//! Laws of passes: each function does nothing, and its contract is the law.
ghost use Rattle.plir_passes.specs.Replacing.{Replacements};

use plir_data::OpSet;
use plir_walk::laws::lawful_changes;

/// What a rewrite of an operation may do, told in the words of the node calls that make it.
pub fn replacements<D: OpSet>()
    ensures { Replacements D.Kind D.Attr D.Ty D.attr_handles }
{
    lawful_changes::<D>();
}
