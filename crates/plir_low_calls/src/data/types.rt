//! The calls on types.
use plir_data::put::{put, put_between};
use plir_data::{
    FunctionType, FunctionTypeInterface, FunctionTypeMark, IntegerType, OpSet, TypeInterfaceMark,
    TypeMark, TypeObj, TypeStore, TypedHandle,
};
use plir_scripts::{Bench, Line, OwnSet, Stop, put_type_name};

/// `own-type narrow` or `own-type wide`: writes the name of the type.
pub fn make_own<D: OwnSet>(bench: &mut Bench<D>, line: Line<'_>) -> Result<(), Stop> {
    bench.made.types.reserve(1)?;
    let value = TypeObj::Own(D::own_type(line.first == "wide"));
    if !value.is_live(&bench.ctx) {
        return Err(Stop::Refused);
    }
    let handle = bench.ctx.instantiate(value)?;
    put_type_name(&mut bench.made, &mut bench.answer, handle)
}

/// `types`: writes how many types the table has.
pub fn count<D: OpSet>(bench: &mut Bench<D>) -> Result<(), Stop> {
    let types = bench.ctx.types();
    bench
        .answer
        .put(if types.is_empty() { "none, " } else { "" });
    bench.answer.put_number(types.len());
    Ok(())
}

/// `parts TYPE`: writes the types of the arguments and of the results, or `none` where the type isn't one of functions.
pub fn show_parts<D: OpSet>(bench: &mut Bench<D>, line: Line<'_>) -> Result<(), Stop> {
    let handle = bench.made.type_named(&bench.ctx, line.first)?;
    let Some(function) = TypedHandle::<FunctionType>::from_handle(handle, &bench.ctx) else {
        bench.answer.put("none");
        return Ok(());
    };
    let function = function.deref(&bench.ctx);
    function.verify(&bench.ctx)?;
    for part in function.arg_types() {
        put_type_name(&mut bench.made, &mut bench.answer, *part)?;
    }
    bench.answer.put(" -> ");
    for part in function.res_types() {
        put_type_name(&mut bench.made, &mut bench.answer, *part)?;
    }
    Ok(())
}

/// `marks TYPE`: writes the kinds and the interfaces whose marks know the type.
pub fn show_marks<D: OpSet>(bench: &mut Bench<D>, line: Line<'_>) -> Result<(), Stop> {
    let handle = bench.made.type_named(&bench.ctx, line.first)?;
    let ty = bench.ctx.types().get(handle);
    if <IntegerType as TypeMark<D>>::project(ty).is_some() {
        bench.answer.put(" integer");
    }
    if <FunctionType as TypeMark<D>>::project(ty).is_some() {
        bench.answer.put(" function");
    }
    if <FunctionTypeMark as TypeInterfaceMark<D>>::is_implemented_by(ty) {
        bench.answer.put(" FunctionTypeInterface");
    }
    Ok(())
}

/// `put-parts TEXT`: writes the text twice, with a comma before the second and none before the first.
pub fn put_parts<D: OpSet>(bench: &mut Bench<D>, line: Line<'_>) -> Result<(), Stop> {
    let mut out = String::new(bench.alloc);
    put_between(&mut out, true, ", ")?;
    put(&mut out, line.text)?;
    put_between(&mut out, false, ", ")?;
    put(&mut out, line.text)?;
    bench.answer.put(out.as_str());
    Ok(())
}
