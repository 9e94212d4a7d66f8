//! The calls that ask whether an operation can be read back.
use plir_data::{AttrObj, Identifier, OpSet, TypeObj, TypeStore};
use plir_read::read_op;
use plir_roundtrip::is_readable;
use plir_scripts::{Bench, Line, OwnSet, Stop, nested_text, put_fault, put_type_name};

/// `readable OP`: writes `yes` where the operation can be read back from its text, else `no`.
pub fn readable<D: OpSet>(bench: &mut Bench<D>, line: Line<'_>) -> Result<(), Stop> {
    let op = bench.made.op(&bench.ctx, line.first)?;
    if is_readable(&bench.ctx, op) {
        bench.answer.put("yes");
    } else {
        bench.answer.put("no");
    }
    Ok(())
}

/// `nested COUNT HEAD | BEFORE | MIDDLE | BEHIND | END`: reads the head, so many times what is before, the middle, so
/// many times what is behind, and the end. Writes the name of the operation, or the fault.
pub fn read_nested<D: OpSet>(bench: &mut Bench<D>, line: Line<'_>) -> Result<(), Stop> {
    let mut text = nested_text(bench.alloc, line)?;
    text.push_str(line.text.split('|').nth(4).unwrap_or(""))?;
    bench.made.ops.reserve(1)?;
    let op = match read_op(bench.alloc, &mut bench.ctx, text.as_str()) {
        Ok(op) => op,
        Err(found) => return put_fault(&mut bench.answer, found),
    };
    bench.made.ops.push(op)?;
    bench.made.put_op(&mut bench.answer, Some(op));
    Ok(())
}

/// `own OPERATION KEY` or `own OPERATION KEY shown`: puts an own attribute under the key, one that texts leave out or
/// one that they show.
pub fn set_own<D: OwnSet>(bench: &mut Bench<D>, line: Line<'_>) -> Result<(), Stop> {
    let key = Identifier::try_new(bench.alloc, line.second)?;
    let op = bench.made.op(&bench.ctx, line.first)?;
    let value = AttrObj::Own(D::own_attr(line.third != "shown"));
    if !value.is_live(&bench.ctx) {
        return Err(Stop::Refused);
    }
    op.set_attr(&mut bench.ctx, key, value)?;
    Ok(())
}

/// `own-type`: writes the name of a type of the set's own.
pub fn make_own_type<D: OwnSet>(bench: &mut Bench<D>) -> Result<(), Stop> {
    bench.made.types.reserve(1)?;
    let value = TypeObj::Own(D::own_type(false));
    if !value.is_live(&bench.ctx) {
        return Err(Stop::Refused);
    }
    let handle = bench.ctx.instantiate(value)?;
    put_type_name(&mut bench.made, &mut bench.answer, handle)
}
