//! What the callback of a walk does, as a text says it.
use plir_core::{BasicBlock, IRNode, Operation, Ptr};
use plir_data::OpSet;
use plir_scripts::{Bench, Stop, split_word};
use plir_walk::interruptible::{WalkResult, walk_advance, walk_break, walk_skip};

/// A change at a node or right below it.
#[derive(Clone, Copy)]
pub enum Change {
    /// The operation, which stands in the node, is erased.
    EraseOp(Ptr<Operation>),
    /// The operation, which stands below the node, is moved to the end of the block, which does too, or is the node.
    MoveOp(Ptr<Operation>, Ptr<BasicBlock>),
    /// A new function is put at the end of the node, a block.
    AppendFunc,
    /// A new block is put at the end of the node, a region.
    AppendBlock,
    /// A region is added to the node, an operation.
    AddRegion,
    /// The first region of the node, an operation, is erased.
    EraseRegion,
    /// The node, a block, is labelled `b`.
    Label,
}

/// At each node the changes that are listed for it, in order, and then the answer: `Break(7)` at `stop`, `Skip` at the
/// nodes of `skips`, and `Advance` elsewhere. The walk makes at most `limit` calls.
#[derive(Drop)]
pub struct Plan {
    pub changes: Vec<(IRNode, Change)>,
    pub skips: Vec<IRNode>,
    pub stop: Option<IRNode>,
    pub limit: u64,
}

impl Plan {
    /// The answer at a node.
    pub fn answer(&self, node: IRNode) -> WalkResult<u32> {
        if self.stop == Some(node) {
            walk_break(7)
        } else if self.skips.iter().any(|other| *other == node) {
            walk_skip()
        } else {
            walk_advance()
        }
    }
}

/// The plan of a text: `limit N`, `skip NODE`, `break NODE`, `at NODE erase OP`, `at NODE move OP BLOCK`, `at
/// NODE append`, `at NODE add`, `at NODE clear` and `at NODE label`, parted by `, `.
pub fn read_plan<D: OpSet>(bench: &Bench<D>, text: &str) -> Result<Plan, Stop> {
    let mut plan = Plan {
        changes: Vec::new(bench.alloc),
        skips: Vec::new(bench.alloc),
        stop: None,
        limit: u64::MAX,
    };
    for clause in text.split(", ") {
        let (word, rest) = split_word(clause);
        match word {
            "" => {}
            "limit" => plan.limit = rest.parse::<u64>().map_err(|_| Stop::Refused)?,
            "skip" => plan.skips.push(bench.made.node(rest)?)?,
            "break" => plan.stop = Some(bench.made.node(rest)?),
            "at" => plan.changes.push(read_change(bench, rest)?)?,
            _ => return Err(Stop::Refused),
        }
    }
    Ok(plan)
}

// A node and the change there.
fn read_change<D: OpSet>(bench: &Bench<D>, text: &str) -> Result<(IRNode, Change), Stop> {
    let (name, rest) = split_word(text);
    let node = bench.made.node(name)?;
    let (word, name) = split_word(rest);
    let change = match (word, node) {
        ("erase", _) => match bench.made.node(name)? {
            IRNode::Operation(op) => Change::EraseOp(op),
            _ => return Err(Stop::Refused),
        },
        ("move", _) => {
            let (op, block) = split_word(name);
            match (bench.made.node(op)?, bench.made.node(block)?) {
                (IRNode::Operation(op), IRNode::BasicBlock(block)) => Change::MoveOp(op, block),
                _ => return Err(Stop::Refused),
            }
        }
        ("append", IRNode::BasicBlock(_)) => Change::AppendFunc,
        ("append", IRNode::Region(_)) => Change::AppendBlock,
        ("add", _) => Change::AddRegion,
        ("clear", _) => Change::EraseRegion,
        ("label", _) => Change::Label,
        _ => return Err(Stop::Refused),
    };
    Ok((node, change))
}
