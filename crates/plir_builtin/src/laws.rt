//! What callers of this crate may reason with: functions without effect, whose contracts are laws.
ghost use Rattle.std.specs.FinMap as map;
ghost use Rattle.plir_iface.specs.Counts.{HasNOpds, HasNRegions, HasNResults};
ghost use Rattle.plir_iface.specs.Regions.{HasSingleBlocks};
ghost use Rattle.plir_builtin.specs.Agree.{AllAgree, AreGivenOut};
ghost use Rattle.plir_builtin.specs.BuiltinOps.{HasConstantValue, HasFuncType};
ghost use Rattle.plir_builtin.specs.Lasting.{LastsOverNodes, LastsOverRefusals, LastsOverTables, LastsOverTypes};
ghost use Rattle.plir_core.specs.ContextView.{ContextView};
ghost use Rattle.plir_builtin.specs.OpRules.{HasConstantRules, HasFuncRules, HasModuleRules};
ghost use Rattle.plir_builtin.specs.Symbols.{HasSymbolName, IsGood};

use crate::constant_op::ConstantOp;
use crate::func_op::FuncOp;
use crate::module_op::ModuleOp;
use crate::symbol_users::SymbolUserSet;
use plir_core::Context;
use plir_core::laws::contexts_stand;
use plir_data::OpSet;

/// A collection that caches no table agrees with every context: so what the calls of a collection say of one that
/// agrees holds of what `SymbolTableCollection::new` answers.
pub fn no_tables_agree<D: OpSet>(ctx: &Context<D>)
    ensures agree { AllAgree D.is_symbol D.is_symbol_table ctx.now map.empty }
    ensures given { AreGivenOut ctx.now map.empty }
{
    ctx.stands();
}

/// Tables that agree still agree once a tree of new nodes was made, as by a constructor, once a constructor was
/// refused, and once a type was made: so a collection may serve before and after.
pub fn new_nodes_keep_agreement<D: OpSet>(ctx: &Context<D>)
    ensures made { LastsOverNodes D.is_symbol D.is_symbol_table D.attr_handles ctx.now }
    ensures refused { LastsOverRefusals D.is_symbol D.is_symbol_table D.attr_handles ctx.now }
    ensures types { LastsOverTypes D.is_symbol D.is_symbol_table D.attr_handles ctx.now }
{
    contexts_stand::<D>();
    ctx.stands();
}

/// Tables agree as they did over each change that leaves their operations the tables that they were: what else such a
/// change did, below symbols or beside them, is of no matter. So a collection may serve before and after it.
pub fn stayed_tables_agree<D: OpSet>()
    ensures { (s t : ContextView D.Kind D.Attr D.Ty) → LastsOverTables D.is_symbol D.is_symbol_table s t }
{}

/// A module that `verify_interfaces` accepts is what each call of its interfaces asks: its region and its body may be
/// taken, its symbols looked up, and its name read.
pub fn module_is_as_asked<D: SymbolUserSet>(ctx: &Context<D>, op: ModuleOp)
    requires { HasModuleRules D.is_symbol D.is_symbol_table D.is_symbol_user D.uses_hold ctx.now op.op }
    ensures region { HasNRegions 1 ctx.now op.op }
    ensures body { HasSingleBlocks ctx.now op.op }
    ensures table { IsGood D.is_symbol D.is_symbol_table ctx.now op.op }
    ensures name { HasSymbolName ctx.now op.op }
    ensures operands { HasNOpds 0 ctx.now op.op }
    ensures results { HasNResults 0 ctx.now op.op }
{
    ctx.stands();
}

/// A function that `verify_interfaces` accepts is what each call of its interfaces, and `get_type`, asks.
pub fn func_is_as_asked<D: OpSet>(ctx: &Context<D>, op: FuncOp)
    requires { HasFuncRules ctx.now op.op }
    ensures region { HasNRegions 1 ctx.now op.op }
    ensures name { HasSymbolName ctx.now op.op }
    ensures operands { HasNOpds 0 ctx.now op.op }
    ensures results { HasNResults 0 ctx.now op.op }
    ensures of_functions { HasFuncType ctx.now op.op }
{
    ctx.stands();
}

/// A constant that `verify_interfaces` accepts is what each call of its interfaces, and `get_value`, asks.
pub fn constant_is_as_asked<D: OpSet>(ctx: &Context<D>, op: ConstantOp)
    requires { HasConstantRules D.attr_type ctx.now op.op }
    ensures operands { HasNOpds 0 ctx.now op.op }
    ensures result { HasNResults 1 ctx.now op.op }
    ensures value { HasConstantValue D.attr_type ctx.now op.op }
{
    ctx.stands();
}
