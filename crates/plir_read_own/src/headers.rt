//! Headers of own operations.
ghost use Rattle.std.specs.Prelude.{◌≡◌, ◌≢◌, Err, IfOk, IfErr, length};
ghost use Rattle.plir_attr_text.specs.Faults.{HasNoPlace};
ghost use Rattle.plir_attr_text.specs.Names.{Adds};
ghost use Rattle.plir_attr_text.specs.Reading.{Gives, Reads, ReadsFirst};
ghost use Rattle.plir_attr_text.specs.TypeGrammar.{IsText};
ghost use Rattle.plir_attr_text.specs.TypesWritten.{IsWrittenIn};
ghost use Rattle.plir_attr_text.specs.Wholes.{whole};
ghost use Rattle.plir_read_own.specs.OwnTerms.{Header, Signature, num_types};
ghost use Rattle.plir_read_own.specs.OwnGrammar.{HeaderWithin};
ghost use Rattle.plir_read_own.specs.OwnMeaning.{AreTyped, IsHeader, StandsForHeader, uses_of};
ghost use Rattle.plir_read_own.specs.OwnReading.{as_many_names, as_many_types, counted, header_at, typed_at};

use crate::openings::{Opening, read_opening};
use crate::read_set::ReadSet;
use crate::signatures::{OwnSignature, read_signature};
use crate::uses::{OwnUses, read_uses};
use plir_attr_text::attrs::read_entries;
use plir_attr_text::fault::Stop;
use plir_attr_text::place::{placed, read_end};
use plir_attr_text::read_types::MAX_LEVELS;
use plir_attr_text::tokens::left_at;
use plir_attr_text::words::read_sign;
use plir_attr_text::{Fault, ReadErr};
use plir_data::{AttributeDict, Identifier, OpSet, TypeStore};
use std::alloc::Global;

/// What the text of an own operation says before its regions.
#[derive(Drop)]
pub struct OwnHeader<D: OpSet> {
    /// The names of its results.
    pub names: Vec<Identifier>,
    /// Its kind.
    pub kind: D::Kind,
    /// The names of its operands and of its successors.
    pub uses: OwnUses,
    /// Its attributes.
    pub attributes: AttributeDict<D>,
    /// The types of its operands and of its results.
    pub signature: OwnSignature,
}

// Attributes and types, with this many bytes left where the types stand.
#[derive(Drop)]
pub struct Typed<D: OpSet> {
    pub attributes: AttributeDict<D>,
    pub signature: OwnSignature,
    pub left: usize,
}

// `[key = ATTR, key = ATTR]: <(TYPE, TYPE)->(TYPE)>`
#[tactic(auto, unfolding(crate::specs::OwnReading::typed_at, crate::specs::OwnReading::entries_at))]
pub fn read_typed<'a, D: OpSet, C: TypeStore<D>>(
    alloc: Global,
    ctx: &mut C,
    levels: usize,
    bytes: &'a [u8],
) -> Result<(Typed<D>, &'a [u8]), Stop>
    ensures read { ReadsFirst (λ x. AreTyped (C.types ctx.new) x.attributes x.signature) result
        (typed_at levels bytes.now) }
    ensures kept { Adds C.types C.same_besides (IsWrittenIn bytes.now) ctx.old ctx.new }
{
    let (attributes, rest) = match read_entries(alloc, ctx, levels, bytes) {
        Ok(read) => read,
        Err(stop) => return Err(stop),
    };
    let colon = read_sign(rest, b':')?;
    let left = left_at(colon);
    match read_signature(alloc, ctx, levels, colon) {
        Ok((signature, end)) => Ok((
            Typed {
                attributes,
                signature,
                left,
            },
            end,
        )),
        Err(stop) => Err(stop),
    }
}

// Whether there are as many types as operands, with this many bytes left where the types stand.
#[tactic(auto, unfolding(crate::specs::OwnReading::as_many_types))]
pub fn expect_types(operands: usize, types: usize, left: usize) -> Result<(), Stop>
    ensures { Gives (λ u. u) result (as_many_types operands types) }
{
    if operands == types {
        Ok(())
    } else {
        Err(Stop::At(Fault::Unexpected, left))
    }
}

// Whether there are as many names as results, with this many bytes left where the id stands.
#[tactic(auto, unfolding(crate::specs::OwnReading::as_many_names))]
pub fn expect_names(results: usize, names: usize, left: usize) -> Result<(), Stop>
    ensures { Gives (λ u. u) result (as_many_names results names) }
{
    if results == names {
        Ok(())
    } else {
        Err(Stop::At(Fault::NResultsVerifyErr(results, names), left))
    }
}

// Whether there is a type for each operand and for each name of a result.
#[tactic(auto, unfolding(crate::specs::OwnReading::counted))]
fn expect_counts<K, D: OpSet>(
    opening: &Opening<K>,
    uses: &OwnUses,
    typed: &Typed<D>,
) -> Result<(), Stop>
    ensures { (t : Signature) → num_types t.operand_types ≡ length typed.now.signature.operand_types.items →
        num_types t.result_types ≡ length typed.now.signature.result_types.items →
        Gives (λ u. u) result (counted opening.now.names.items (uses_of uses.now) t) }
{
    let signature = &typed.signature;
    expect_types(
        uses.operands.len(),
        signature.operand_types.len(),
        typed.left,
    )?;
    expect_names(
        signature.result_types.len(),
        opening.names.len(),
        opening.left,
    )
}

// A header, with at most this many levels in it.
#[tactic(auto, unfolding(crate::specs::OwnReading::header_at))]
fn read_header_at<'a, D: ReadSet, C: TypeStore<D>>(
    alloc: Global,
    ctx: &mut C,
    levels: usize,
    bytes: &'a [u8],
) -> Result<(OwnHeader<D>, &'a [u8]), Stop>
    ensures read { ReadsFirst (λ x. IsHeader (C.types ctx.new) x.names.items x.kind x.uses x.attributes x.signature)
        result (header_at D.find_kind levels bytes.now) }
    ensures kept { Adds C.types C.same_besides (IsWrittenIn bytes.now) ctx.old ctx.new }
{
    let (opening, rest) = read_opening::<D>(alloc, bytes)?;
    let (uses, behind) = read_uses(alloc, rest)?;
    let (typed, end) = match read_typed(alloc, ctx, levels, behind) {
        Ok(read) => read,
        Err(stop) => return Err(stop),
    };
    expect_counts(&opening, &uses, &typed)?;
    let Opening {
        names,
        kind,
        left: _,
    } = opening;
    let Typed {
        attributes,
        signature,
        left: _,
    } = typed;
    Ok((
        OwnHeader {
            names,
            kind,
            uses,
            attributes,
            signature,
        },
        end,
    ))
}

#[tactic(auto, unfolding(plir_attr_text::specs::Wholes::whole))]
fn whole_header<D: ReadSet, C: TypeStore<D>>(
    alloc: Global,
    ctx: &mut C,
    bytes: &[u8],
) -> Result<OwnHeader<D>, Stop>
    ensures read { Reads (λ x. IsHeader (C.types ctx.new) x.names.items x.kind x.uses x.attributes x.signature)
        result (whole (header_at D.find_kind 199) bytes.now) }
    ensures kept { Adds C.types C.same_besides (IsWrittenIn bytes.now) ctx.old ctx.new }
{
    let (header, rest) = match read_header_at(alloc, ctx, MAX_LEVELS - 1, bytes) {
        Ok(read) => read,
        Err(stop) => return Err(stop),
    };
    read_end(rest)?;
    Ok(header)
}

/// What a text says that is the header of an own operation, as
/// `x = flow.add (a, b) [] []: <(builtin.integer si32, builtin.integer si32)->(builtin.integer si32)>`: what
/// `print_op` writes before the regions of such an operation. The kind is one of the set; attributes and types are
/// builtin ones. Names are those that are written, with the suffixes that they are printed with, and of what bears them
/// nothing is asked. Types that the text names come into the table last, also where it is refused; nothing else
/// changes.
///
/// A fault is the first that the text meets. It stands at the text's end where the text ends within a token or before
/// one, and at the first character of a token that can't stand there; the first character of a level that is one too
/// many comes before any fault inside it. Where all is read and there are more or fewer types than operands it stands
/// where the types begin; where there is another number of names than of types of results it is `NResultsVerifyErr`,
/// with the number of types and that of names, and stands at the id.
pub fn read_own_header<D: ReadSet, C: TypeStore<D>>(
    alloc: Global,
    ctx: &mut C,
    text: &str,
) -> Result<OwnHeader<D>, ReadErr>
    ensures found { IfOk result (λ x. StandsForHeader D.find_kind 199 text.now (C.types ctx.new) x.names.items x.kind
        x.uses x.attributes x.signature) }
    ensures refused { IfErr result (λ e. e.fault ≢ Fault.Memory → (h : Header D.Kind) →
        IsText (HeaderWithin D.find_kind 199) text.now h → ⊥) }
    ensures met { IfErr result (λ e. e.fault ≢ Fault.Memory →
        whole (header_at D.find_kind 199) text.now ≡ Err e.fault) }
    ensures placeless { IfErr result HasNoPlace }
    ensures kept { Adds C.types C.same_besides (IsWrittenIn text.now) ctx.old ctx.new }
{
    let bytes = text.as_bytes();
    match whole_header(alloc, ctx, bytes) {
        Ok(header) => Ok(header),
        Err(stop) => Err(placed(bytes, stop)),
    }
}
