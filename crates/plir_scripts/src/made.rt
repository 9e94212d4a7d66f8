//! The nodes that a script has made, and their names.
ghost use Rattle.std.specs.Prelude.{All, IfOk};
ghost use Rattle.plir_data.specs.Types.{AllLive, IsLive as IsTypeLive};
ghost use Rattle.plir_core.specs.ContextView.{IsLive, IsValueLive};
ghost use Rattle.plir_core.specs.declared.ptr.IRNode.{IRNode as AnyNode};

use crate::answer::Answer;
use crate::line::number;
use crate::stop::Stop;
use plir_core::{BasicBlock, Context, DefiningEntity, IRNode, Operation, Ptr, Region, Value};
use plir_data::{OpSet, TypeHandle};
use std::alloc::Global;

// Which node a name means: of which kind, and the place among those of its kind.
#[derive(Clone, Copy)]
enum NodeName {
    Op(usize),
    Region(usize),
    Block(usize),
}

impl NodeName {
    fn of(name: &str) -> Option<Self> {
        if let Some(place) = name.strip_prefix('o') {
            return Some(NodeName::Op(place.parse::<usize>().ok()?));
        }
        if let Some(place) = name.strip_prefix('r') {
            return Some(NodeName::Region(place.parse::<usize>().ok()?));
        }
        let place = name.strip_prefix('b')?;
        Some(NodeName::Block(place.parse::<usize>().ok()?))
    }
}

/// The nodes that a script has made and the types that it has named, in this order.
#[derive(Drop)]
pub struct Made {
    pub ops: Vec<Ptr<Operation>>,
    pub regions: Vec<Ptr<Region>>,
    pub blocks: Vec<Ptr<BasicBlock>>,
    pub types: Vec<TypeHandle>,
}

impl Made {
    /// No node.
    pub fn new(alloc: Global) -> Self {
        Made {
            ops: Vec::new(alloc),
            regions: Vec::new(alloc),
            blocks: Vec::new(alloc),
            types: Vec::new(alloc),
        }
    }

    /// The node of a name, live or not.
    pub fn node(&self, name: &str) -> Result<IRNode, Stop> {
        match self.find(name) {
            Some(node) => Ok(node),
            None => Err(Stop::Refused),
        }
    }

    fn find(&self, name: &str) -> Option<IRNode> {
        match NodeName::of(name)? {
            NodeName::Op(place) => self.ops.get(place).copied().map(IRNode::Operation),
            NodeName::Region(place) => self.regions.get(place).copied().map(IRNode::Region),
            NodeName::Block(place) => self.blocks.get(place).copied().map(IRNode::BasicBlock),
        }
    }

    /// The node of a name, which has to be live.
    pub fn live<D: OpSet>(&self, ctx: &Context<D>, name: &str) -> Result<IRNode, Stop>
        ensures { IfOk result (λ node. IsLive ctx.now node) }
    {
        let node = self.node(name)?;
        if node.is_live(ctx) {
            Ok(node)
        } else {
            Err(Stop::Refused)
        }
    }

    /// The operation of a name, which has to be live.
    pub fn op<D: OpSet>(&self, ctx: &Context<D>, name: &str) -> Result<Ptr<Operation>, Stop>
        ensures { IfOk result (λ op. IsLive ctx.now (AnyNode.Operation op)) }
    {
        match self.live(ctx, name)? {
            IRNode::Operation(op) => Ok(op),
            _ => Err(Stop::Refused),
        }
    }

    /// The block of a name, which has to be live.
    pub fn block<D: OpSet>(&self, ctx: &Context<D>, name: &str) -> Result<Ptr<BasicBlock>, Stop>
        ensures { IfOk result (λ block. IsLive ctx.now (AnyNode.BasicBlock block)) }
    {
        match self.live(ctx, name)? {
            IRNode::BasicBlock(block) => Ok(block),
            _ => Err(Stop::Refused),
        }
    }

    /// The value of a name, of a live node.
    pub fn value<D: OpSet>(&self, ctx: &Context<D>, name: &str) -> Result<Value, Stop>
        ensures { IfOk result (λ value. IsValueLive ctx.now value) }
    {
        let Some((owner, place)) = name.split_once('.') else {
            return Err(Stop::Refused);
        };
        let place = number(place)?;
        match self.live(ctx, owner)? {
            IRNode::Operation(op) if place < op.get_num_results(ctx) => {
                Ok(op.get_result(ctx, place))
            }
            IRNode::BasicBlock(block) if place < block.get_num_arguments(ctx) => {
                Ok(block.get_argument(ctx, place))
            }
            _ => Err(Stop::Refused),
        }
    }

    /// The type of a name.
    pub fn type_named<D: OpSet>(&self, ctx: &Context<D>, name: &str) -> Result<TypeHandle, Stop>
        ensures { IfOk result (λ handle. IsTypeLive ctx.now.types handle) }
    {
        let Some(place) = name.strip_prefix('t') else {
            return Err(Stop::Refused);
        };
        match self.types.get(number(place)?) {
            Some(handle) if ctx.is_live(*handle) => Ok(*handle),
            _ => Err(Stop::Refused),
        }
    }

    /// The types of these names, parted by spaces.
    pub fn types_named<D: OpSet>(
        &self,
        alloc: Global,
        ctx: &Context<D>,
        names: &str,
    ) -> Result<Vec<TypeHandle>, Stop>
        ensures { IfOk result (λ handles. AllLive ctx.now.types handles.items) }
    {
        let mut handles = Vec::new(alloc);
        for name in names.split_whitespace() {
            handles.push(self.type_named(ctx, name)?)?;
        }
        Ok(handles)
    }

    /// The values of these names, parted by spaces.
    pub fn values_named<D: OpSet>(
        &self,
        alloc: Global,
        ctx: &Context<D>,
        names: &str,
    ) -> Result<Vec<Value>, Stop>
        ensures { IfOk result (λ values. All (IsValueLive ctx.now) values.items) }
    {
        let mut values = Vec::new(alloc);
        for name in names.split_whitespace() {
            values.push(self.value(ctx, name)?)?;
        }
        Ok(values)
    }

    /// The blocks of these names, parted by spaces.
    pub fn blocks_named<D: OpSet>(
        &self,
        alloc: Global,
        ctx: &Context<D>,
        names: &str,
    ) -> Result<Vec<Ptr<BasicBlock>>, Stop>
        ensures { IfOk result (λ blocks. All (λ b. IsLive ctx.now (AnyNode.BasicBlock b)) blocks.items) }
    {
        let mut blocks = Vec::new(alloc);
        for name in names.split_whitespace() {
            blocks.push(self.block(ctx, name)?)?;
        }
        Ok(blocks)
    }

    /// Writes the name of a node.
    pub fn put_node(&self, answer: &mut Answer, node: IRNode) {
        match node {
            IRNode::Operation(op) => put_name(answer, " o", place_of(&self.ops, op)),
            IRNode::Region(region) => put_name(answer, " r", place_of(&self.regions, region)),
            IRNode::BasicBlock(block) => put_name(answer, " b", place_of(&self.blocks, block)),
        }
    }

    /// Writes the name of a node, or `-` for none.
    pub fn put(&self, answer: &mut Answer, node: Option<IRNode>) {
        match node {
            None => answer.put(" -"),
            Some(node) => self.put_node(answer, node),
        }
    }

    /// Writes the name of an operation, or `-` for none.
    pub fn put_op(&self, answer: &mut Answer, op: Option<Ptr<Operation>>) {
        self.put(answer, op.map(IRNode::Operation));
    }

    /// Writes the name of a region, or `-` for none.
    pub fn put_region(&self, answer: &mut Answer, region: Option<Ptr<Region>>) {
        self.put(answer, region.map(IRNode::Region));
    }

    /// Writes the name of a block, or `-` for none.
    pub fn put_block(&self, answer: &mut Answer, block: Option<Ptr<BasicBlock>>) {
        self.put(answer, block.map(IRNode::BasicBlock));
    }

    /// Writes the name of a value.
    pub fn put_value(&self, answer: &mut Answer, value: Value) {
        match value.defining_entity() {
            DefiningEntity::Op(op) => self.put_node(answer, IRNode::Operation(op)),
            DefiningEntity::Block(block) => self.put_node(answer, IRNode::BasicBlock(block)),
        }
        answer.put(".");
        answer.put_number(value.index());
    }
}

// The place of a pointer in a list.
fn place_of<T: Copy + PartialEq>(nodes: &[Ptr<T>], node: Ptr<T>) -> Option<usize> {
    nodes.iter().position(|other| *other == node)
}

fn put_name(answer: &mut Answer, letter: &str, place: Option<usize>) {
    match place {
        None => answer.put(" unknown"),
        Some(place) => {
            answer.put(letter);
            answer.put_number(place);
        }
    }
}
