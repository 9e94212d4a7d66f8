//! The calls that tell what a text can stand for, and of what attributes that no text has the texts are.
ghost use Rattle.std.specs.Prelude.{IfOk};
ghost use Rattle.plir_data.specs.AttrLive.{IsAttrLive};
ghost use Rattle.plir_data.specs.AttrSeen.{attr_view};

use plir_attr_text::laws::attr_is_read_back;
use plir_attr_text::{is_within_levels, is_writable, print_attr, read_attr};
use plir_data::{AttrObj, OpSet};
use plir_scripts::{Bench, Line, OwnSet, Stop, number, put_attr, split_word, value_of};

// The attribute that is written so.
fn live_value<D: OwnSet>(bench: &mut Bench<D>, written: &str) -> Result<AttrObj<D>, Stop>
    ensures { IfOk result (λ attr. IsAttrLive D.attr_handles bench.new.ctx.types (attr_view attr)) }
{
    let attr = value_of(bench, written)?;
    if attr.is_live(&bench.ctx) {
        Ok(attr)
    } else {
        Err(Stop::Refused)
    }
}

/// `writable ATTR`: writes whether a text can stand for it.
pub fn ask_writable<D: OwnSet>(bench: &mut Bench<D>, line: Line<'_>) -> Result<(), Stop> {
    let attr = live_value(bench, line.text)?;
    bench.answer.put_truth(is_writable(&bench.ctx, &attr));
    Ok(())
}

/// `written ATTR`: writes its text.
pub fn write<D: OwnSet>(bench: &mut Bench<D>, line: Line<'_>) -> Result<(), Stop> {
    let attr = live_value(bench, line.text)?;
    put_attr(bench.alloc, &bench.ctx, &mut bench.answer, &attr);
    Ok(())
}

/// `within COUNT ATTR`: writes whether it has no more than so many levels.
pub fn ask_levels<D: OwnSet>(bench: &mut Bench<D>, line: Line<'_>) -> Result<(), Stop> {
    let count = number(line.first)?;
    let (_, written) = split_word(line.text);
    let attr = live_value(bench, written)?;
    let is_within = is_within_levels(&bench.ctx, &attr, count);
    bench.answer.put_truth(is_within);
    Ok(())
}

/// `read-back ATTR`: writes whether its text is read as the same again.
pub fn read_back<D: OwnSet>(bench: &mut Bench<D>, line: Line<'_>) -> Result<(), Stop> {
    let attr = live_value(bench, line.text)?;
    let text = print_attr(bench.alloc, &bench.ctx, &attr)?;
    let is_same = stands_for(bench, text.as_str(), &attr);
    bench.answer.put_truth(is_same);
    Ok(())
}

// Whether a text that was printed is read as this attribute.
fn stands_for<D: OpSet>(bench: &mut Bench<D>, text: &str, attr: &AttrObj<D>) -> bool {
    let read = read_attr(bench.alloc, &mut bench.ctx, text);
    attr_is_read_back::<D>(attr, text, &read);
    match &read {
        Ok(read) => read == attr,
        Err(_) => false,
    }
}
