//! Attributes as scripts write them: one by its text, and those that no text has. `own` and `own marked` are the
//! attributes of the op set, `misfit TYPE` is an integer of 16 bits in an integer type, `list A ; B ..` a list, and
//! `under KEY A ; KEY B ..` the dictionary of these pairs, of which the last with a key counts.
use crate::bench::Bench;
use crate::line::split_word;
use crate::own_set::OwnSet;
use crate::stop::Stop;
use plir_attr_text::read_attr;
use plir_data::{
    APInt, AttrObj, DictAttr, Identifier, IntegerAttr, IntegerType, OpSet, TypedHandle, VecAttr,
};

// How an attribute is written.
#[derive(Clone, Copy)]
enum Form<'a> {
    // The attributes in a list.
    List(&'a str),
    // The pairs of a dictionary.
    Pairs(&'a str),
    // Neither.
    Single(Single<'a>),
}

// How any other one is written, and each that has a text.
#[derive(Clone, Copy)]
enum Single<'a> {
    // That of the op set, marked or not.
    Own(bool),
    // An integer in the type of a name.
    Misfit(&'a str),
    // The text.
    Text(&'a str),
}

// The form of what is written.
fn form_of(written: &str) -> Form<'_> {
    match split_word(written) {
        ("list", items) => Form::List(items),
        ("under", pairs) => Form::Pairs(pairs),
        _ => Form::Single(single_of(written)),
    }
}

fn single_of(written: &str) -> Single<'_> {
    match split_word(written) {
        ("own", mark) => Single::Own(mark == "marked"),
        ("misfit", name) => Single::Misfit(name),
        _ => Single::Text(written),
    }
}

/// The attribute that is written so.
pub fn value_of<D: OwnSet>(bench: &mut Bench<D>, written: &str) -> Result<AttrObj<D>, Stop> {
    match form_of(written) {
        Form::List(items) => list_of(bench, items),
        Form::Pairs(pairs) => pairs_of(bench, pairs),
        Form::Single(single) => attr_of(bench, single),
    }
}

fn attr_of<D: OwnSet>(bench: &mut Bench<D>, single: Single<'_>) -> Result<AttrObj<D>, Stop> {
    match single {
        Single::Own(is_marked) => Ok(AttrObj::Own(D::own_attr(is_marked))),
        Single::Misfit(name) => misfit(bench, name),
        Single::Text(text) => Ok(read_attr(bench.alloc, &mut bench.ctx, text)?),
    }
}

// An integer of 16 bits in the type of a name.
fn misfit<D: OpSet>(bench: &Bench<D>, name: &str) -> Result<AttrObj<D>, Stop> {
    let handle = bench.made.type_named(&bench.ctx, name)?;
    let ty = TypedHandle::<IntegerType>::from_handle(handle, &bench.ctx).ok_or(Stop::Refused)?;
    let value = APInt::from_u64(1, 16).ok_or(Stop::Refused)?;
    Ok(AttrObj::Integer(IntegerAttr::new(ty, value)))
}

fn list_of<D: OwnSet>(bench: &mut Bench<D>, written: &str) -> Result<AttrObj<D>, Stop> {
    let mut items = Vec::new(bench.alloc);
    for item in written.split(" ; ") {
        put_item(bench, &mut items, item)?;
    }
    Ok(AttrObj::Vec(VecAttr::new(items)))
}

fn put_item<D: OwnSet>(
    bench: &mut Bench<D>,
    items: &mut Vec<AttrObj<D>>,
    written: &str,
) -> Result<(), Stop> {
    let item = attr_of(bench, single_of(written))?;
    Ok(items.push(item)?)
}

fn pairs_of<D: OwnSet>(bench: &mut Bench<D>, written: &str) -> Result<AttrObj<D>, Stop> {
    let mut pairs = Vec::new(bench.alloc);
    for pair in written.split(" ; ") {
        put_pair(bench, &mut pairs, pair)?;
    }
    Ok(AttrObj::Dict(DictAttr::new(bench.alloc, pairs)?))
}

fn put_pair<D: OwnSet>(
    bench: &mut Bench<D>,
    pairs: &mut Vec<(Identifier, AttrObj<D>)>,
    written: &str,
) -> Result<(), Stop> {
    let (key, value) = split_word(written);
    let value = attr_of(bench, single_of(value))?;
    let key = Identifier::try_new(bench.alloc, key)?;
    Ok(pairs.push((key, value))?)
}
