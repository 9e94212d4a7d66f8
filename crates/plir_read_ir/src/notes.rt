//! What is noted while a text is read: who bears which name, and what is used by its name.
ghost use Rattle.std.specs.Prelude.{◌≡◌, ◌<◌, ◌∷◌, ◌++◌, [], ℕ, List, length, option_map, OnOk, IfErr};
ghost use Rattle.plir_names.specs.Meanings.{Says};
ghost use Rattle.plir_names.specs.Tables.{meanings};
ghost use Rattle.plir_core.specs.ContextView.{IsLive, IsValueLive, arg_types_of, result_types_of};
ghost use Rattle.plir_core.specs.declared.ptr.IRNode.{IRNode};
ghost use Rattle.plir_read.specs.Stopping.{IsRefusal};
ghost use Rattle.plir_read_ir.specs.Mentions.{arguments_bear, results_bear, values_in};
ghost use Rattle.plir_read_ir.specs.Noting.{AddsUses, BearAll, Bears, IsPlaceOf, places, same_label, same_name};
ghost use Rattle.plir_read_ir.specs.Readings.{AddsNoted, AddsValues, noted_as, noted_operands, noted_successor};
ghost use Rattle.plir_read_ir.specs.Readings.{noted_successors, place_in};
ghost use Rattle.plir_read_ir.specs.Spelling.{words};

use crate::spelled::Spelled;
use crate::uses::SpelledUses;
use plir_attr_text::fault::Stop;
use plir_core::{BasicBlock, Context, Operation, Ptr, Region, Value};
use plir_data::{OpSet, TypeHandle};
use plir_names::{Meaning, NameTable};
use std::alloc::Global;

// A name in a body: the operation whose body it is, none outside all of them, and the word.
pub type ValueName<'a> = (Option<Ptr<Operation>>, &'a [u8]);

// A label in a region.
pub type LabelName<'a> = (Ptr<Region>, &'a [u8]);

// Where an operation is read: in the body of this operation, and in this block of this region.
#[derive(Clone, Copy)]
pub struct Place {
    pub body: Option<Ptr<Operation>>,
    pub block: Option<(Ptr<Region>, Ptr<BasicBlock>)>,
}

// What a name is to mean: the next operand of an operation, looked up in a body, with the place of its type as it is
// written in the table of types, and this many bytes left where the types stand; its successor at a place, a block of
// this region; or a successor of an operation that stands in no region.
#[derive(Clone, Copy)]
pub enum Wanted {
    Operand(Option<Ptr<Operation>>, usize, usize),
    Successor(Ptr<Region>, usize),
    Nothing,
}

// A use that is not known yet: who uses, by which name, and what that is to mean.
#[derive(Clone, Copy)]
pub struct PendingUse<'a> {
    pub op: Ptr<Operation>,
    pub name: Spelled<'a>,
    pub wanted: Wanted,
}

// What was noted so far.
#[derive(Drop)]
pub struct Notes<'a> {
    pub values: NameTable<ValueName<'a>, Value>,
    pub labels: NameTable<LabelName<'a>, Ptr<BasicBlock>>,
    pub uses: Vec<PendingUse<'a>>,
}

// The place of what stands in nothing.
pub const OUTSIDE: Place = Place {
    body: None,
    block: None,
};

// What a label of an operation's successors is to mean, by where the operation stands and the successor's place.
fn wanted_at(block: Option<(Ptr<Region>, Ptr<BasicBlock>)>, place: usize) -> Wanted
    ensures place { (n : ℕ) → place < n → IsPlaceOf (places block n) result }
    ensures noted { (w : List ℕ) → noted_as w result ≡ noted_successor (option_map (λ b. b.0) block, w)
        (place_in (option_map (λ b. b.0) block) place) }
{
    match block {
        Some((region, _)) => Wanted::Successor(region, place),
        None => Wanted::Nothing,
    }
}

// The block of a place.
pub fn block_of(at: Place) -> Option<Ptr<BasicBlock>>
    ensures { result ≡ option_map (λ b. b.1) at.block }
{
    match at.block {
        Some((_, block)) => Some(block),
        None => None,
    }
}

// An operation that stands in a body uses these values, with their types as they are written and this many bytes
// left where the types stand.
fn note_operands<'a>(
    uses: &mut Vec<PendingUse<'a>>,
    op: Ptr<Operation>,
    body: Option<Ptr<Operation>>,
    names: &[Spelled<'a>],
    types: &[TypeHandle],
    left: usize,
) -> Result<(), Stop>
    requires { length types.now ≡ length names.now }
    ensures added { OnOk result (AddsUses op 0 uses.old.items uses.new.items) }
    ensures noted { OnOk result (AddsNoted op (noted_operands body (words names.now) types.now) uses.old.items
        uses.new.items) }
    ensures refused { IfErr result (IsRefusal ⊥) }
{
    'names: for place in 0..names.len() {
        let wanted = Wanted::Operand(body, types[place].index(), left);
        let name = names[place];
        uses.push(PendingUse { op, name, wanted })?;
    }
    Ok(())
}

// An operation that stands in a block has these successors.
fn note_successors<'a>(
    uses: &mut Vec<PendingUse<'a>>,
    op: Ptr<Operation>,
    block: Option<(Ptr<Region>, Ptr<BasicBlock>)>,
    labels: &[Spelled<'a>],
) -> Result<(), Stop>
    ensures added { OnOk result (AddsUses op (places block (length labels.now)) uses.old.items
        uses.new.items) }
    ensures noted { OnOk result (AddsNoted op (noted_successors (option_map (λ b. b.0) block) 0 (words labels.now))
        uses.old.items uses.new.items) }
    ensures refused { IfErr result (IsRefusal ⊥) }
{
    'labels: for place in 0..labels.len() {
        let wanted = wanted_at(block, place);
        let name = labels[place];
        uses.push(PendingUse { op, name, wanted })?;
    }
    Ok(())
}

impl<'a> Notes<'a> {
    // Nothing is noted.
    pub fn new(alloc: Global) -> Notes<'a>
        ensures values { Says same_name
            (meanings same_name result.values) [] }
        ensures labels { Says same_label
            (meanings same_label result.labels) [] }
        ensures uses { result.uses.items ≡ [] }
    {
        Notes {
            values: NameTable::new(alloc),
            labels: NameTable::new(alloc),
            uses: Vec::new(alloc),
        }
    }

    // A value bears this name in a body.
    fn bear_value<D: OpSet>(
        &mut self,
        ctx: &Context<D>,
        body: Option<Ptr<Operation>>,
        name: Spelled<'a>,
        value: Value,
    ) -> Result<(), Stop>
        requires { IsValueLive ctx.now value }
        ensures borne { OnOk result (Bears same_name self.old.values self.new.values
            (((body, name.entry.word), value) ∷ [])) }
        ensures all { OnOk result (BearAll same_name (IsValueLive ctx.now) self.old.values →
            BearAll same_name (IsValueLive ctx.now) self.new.values) }
        ensures labels { self.new.labels ≡ self.old.labels }
        ensures uses { self.new.uses ≡ self.old.uses }
        ensures refused { IfErr result (IsRefusal ⊥) }
    {
        self.values.bear((body, name.word), value)?;
        Ok(())
    }

    // The results of an operation bear these names in a body.
    pub fn bear_results<D: OpSet>(
        &mut self,
        ctx: &Context<D>,
        body: Option<Ptr<Operation>>,
        op: Ptr<Operation>,
        names: &[Spelled<'a>],
    ) -> Result<(), Stop>
        requires live { IsLive ctx.now (IRNode.Operation op) }
        requires as_many { length names.now ≡ length (result_types_of ctx.now op) }
        ensures says { OnOk result (AddsValues self.old.values self.new.values
            (values_in (results_bear body (IRNode.Operation op) (words names.now)))) }
        ensures borne { OnOk result (BearAll same_name (IsValueLive ctx.now) self.old.values →
            BearAll same_name (IsValueLive ctx.now) self.new.values) }
        ensures labels { self.new.labels ≡ self.old.labels }
        ensures uses { self.new.uses ≡ self.old.uses }
        ensures refused { IfErr result (IsRefusal ⊥) }
    {
        'names: for place in 0..names.len() {
            self.bear_value(ctx, body, names[place], op.get_result(ctx, place))?;
        }
        Ok(())
    }

    // The arguments of a block bear these names in a body.
    pub fn bear_arguments<D: OpSet>(
        &mut self,
        ctx: &Context<D>,
        body: Option<Ptr<Operation>>,
        block: Ptr<BasicBlock>,
        names: &[Spelled<'a>],
    ) -> Result<(), Stop>
        requires live { IsLive ctx.now (IRNode.BasicBlock block) }
        requires as_many { length names.now ≡ length (arg_types_of ctx.now block) }
        ensures says { OnOk result (AddsValues self.old.values self.new.values
            (values_in (arguments_bear body (IRNode.BasicBlock block) (words names.now)))) }
        ensures borne { OnOk result (BearAll same_name (IsValueLive ctx.now) self.old.values →
            BearAll same_name (IsValueLive ctx.now) self.new.values) }
        ensures labels { self.new.labels ≡ self.old.labels }
        ensures uses { self.new.uses ≡ self.old.uses }
        ensures refused { IfErr result (IsRefusal ⊥) }
    {
        'names: for place in 0..names.len() {
            self.bear_value(ctx, body, names[place], block.get_argument(ctx, place))?;
        }
        Ok(())
    }

    // A block bears this label in its region.
    pub fn bear_label(
        &mut self,
        region: Ptr<Region>,
        block: Ptr<BasicBlock>,
        label: Spelled<'a>,
    ) -> Result<(), Stop>
        ensures borne { OnOk result (Bears same_label self.old.labels self.new.labels
            (((region, label.entry.word), block) ∷ [])) }
        ensures values { self.new.values ≡ self.old.values }
        ensures uses { self.new.uses ≡ self.old.uses }
        ensures refused { IfErr result (IsRefusal ⊥) }
    {
        self.labels.bear((region, label.word), block)?;
        Ok(())
    }

    // What an operation uses that stands at a place.
    pub fn note_uses(
        &mut self,
        op: Ptr<Operation>,
        at: Place,
        uses: &SpelledUses<'a>,
        types: &[TypeHandle],
        left: usize,
    ) -> Result<(), Stop>
        requires { length types.now ≡ length uses.now.operands.items }
        ensures added { OnOk result (AddsUses op (places at.block (length uses.now.successors.items))
            self.old.uses.items self.new.uses.items) }
        ensures noted { OnOk result (AddsNoted op (noted_operands at.body (words uses.now.operands.items) types.now ++
            noted_successors (option_map (λ b. b.0) at.block) 0 (words uses.now.successors.items))
            self.old.uses.items self.new.uses.items) }
        ensures values { self.new.values ≡ self.old.values }
        ensures labels { self.new.labels ≡ self.old.labels }
        ensures refused { IfErr result (IsRefusal ⊥) }
    {
        note_operands(
            &mut self.uses,
            op,
            at.body,
            uses.operands.as_slice(),
            types,
            left,
        )?;
        note_successors(&mut self.uses, op, at.block, uses.successors.as_slice())?;
        Ok(())
    }

    // What a name means in a body.
    pub fn find_value(&self, body: Option<Ptr<Operation>>, name: Spelled<'a>) -> Meaning<Value>
        ensures { result ≡ meanings same_name self.now.values (body, name.entry.word) }
    {
        self.values.find((body, name.word))
    }

    // What a label means in a region.
    pub fn find_block(&self, region: Ptr<Region>, label: Spelled<'a>) -> Meaning<Ptr<BasicBlock>>
        ensures { result ≡ meanings same_label self.now.labels (region, label.entry.word) }
    {
        self.labels.find((region, label.word))
    }
}
