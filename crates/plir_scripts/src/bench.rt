//! How a script is played.
use crate::answer::Answer;
use crate::asking::ask;
use crate::contents::change;
use crate::line::{Line, read_line};
use crate::linking::link;
use crate::made::Made;
use crate::making::make;
use crate::node_call::NodeCall;
use crate::refusing::{grant_memory, refuse_memory};
use crate::script_set::ScriptSet;
use crate::showing::show;
use crate::stop::Stop;
use plir_core::{Context, IRNode};
use plir_data::OpSet;
use std::alloc::{AllocError, Global};
use std::mem::replace;

// The bytes that an answer takes at most. They are there before the call, so that no call is made twice.
const MAX_ANSWER: usize = 256;

// The nodes that a walk of a script calls at most without asking for memory.
const MAX_CALLED: usize = 32;

/// A context, the nodes that a script has made in it, and the answer of its last call.
#[derive(Drop)]
pub struct Bench<D: OpSet> {
    pub alloc: Global,
    pub ctx: Context<D>,
    pub made: Made,
    pub answer: Answer,
    /// The list of nodes that was given back last.
    pub spare: Vec<IRNode>,
}

/// The calls of a layer of the library.
pub trait Layer<D: OpSet> {
    /// Carries a call out and writes its answer. A call that is refused for want of memory has changed no node.
    fn run(bench: &mut Bench<D>, line: Line<'_>) -> Result<(), Stop>;
}

/// The calls on nodes.
pub struct NodeCalls;

impl<D: ScriptSet> Layer<D> for NodeCalls {
    fn run(bench: &mut Bench<D>, line: Line<'_>) -> Result<(), Stop> {
        match NodeCall::of(line.command)? {
            NodeCall::Make(making) => make(bench, making, line),
            NodeCall::Link(linking) => link(&mut bench.ctx, &bench.made, linking, line),
            NodeCall::Change(changing) => change(bench, changing, line),
            NodeCall::Ask(question) => ask(bench, question, line),
            NodeCall::RefuseMemory => refuse_memory(bench.alloc),
            NodeCall::GrantMemory => grant_memory(bench.alloc),
        }
    }
}

/// Why a script isn't played to its end.
#[derive(Debug, Drop)]
pub enum Mismatch {
    /// A line with the answer that it got.
    Answer { line: String, found: String },
    /// A call that was refused for want of memory has changed a node.
    Nodes,
    /// Memory was refused twice.
    Memory,
}

impl From<AllocError> for Mismatch {
    fn from(_error: AllocError) -> Mismatch {
        Mismatch::Memory
    }
}

impl From<Stop> for Mismatch {
    fn from(_error: Stop) -> Mismatch {
        Mismatch::Memory
    }
}

impl<D: OpSet> Bench<D> {
    fn new(alloc: Global, max_nodes: u32) -> Self {
        Bench {
            alloc,
            ctx: Context::with_limit(alloc, max_nodes),
            made: Made::new(alloc),
            answer: Answer::new(alloc),
            spare: Vec::new(alloc),
        }
    }

    /// An empty list with room for the nodes that a walk calls. A list that was given back is used again, so that no
    /// memory is taken twice.
    pub fn take_list(&mut self) -> Result<Vec<IRNode>, Stop> {
        let mut nodes = replace(&mut self.spare, Vec::new(self.alloc));
        nodes.reserve(MAX_CALLED)?;
        Ok(nodes)
    }

    /// Takes a list back.
    pub fn give_back(&mut self, nodes: Vec<IRNode>) {
        self.spare = nodes;
        self.spare.clear();
    }

    // Carries a call out; refused only for want of memory.
    fn run<L: Layer<D>>(&mut self, call: &str) -> Result<(), Stop> {
        self.answer.begin(MAX_ANSWER)?;
        match L::run(self, read_line(call)) {
            Err(Stop::Refused) => self.answer.put("refused"),
            Err(Stop::TooManyNodes) => self.answer.put("too many nodes"),
            Err(Stop::Memory) => return Err(Stop::Memory),
            Ok(()) => {}
        }
        self.answer.text()?;
        Ok(())
    }

    // Plays the lines of a script, each with its answer.
    fn play<L: Layer<D>>(&mut self, max_nodes: u32, script: &str) -> Result<(), Mismatch> {
        for (count, line) in script.lines().enumerate() {
            let (call, answer) = parts_of(line);
            if call.is_empty() {
                continue;
            }
            if self.run::<L>(call).is_err() {
                self.stays_as_after::<L>(max_nodes, script, count)?;
                self.run::<L>(call)?;
            }
            self.expect(line, answer)?;
        }
        Ok(())
    }

    // Asks whether the answer is this one.
    fn expect(&self, line: &str, answer: &str) -> Result<(), Mismatch> {
        let found = self.answer.text()?;
        if is_answer(found, answer) {
            return Ok(());
        }
        Err(Mismatch::Answer {
            line: String::from_str(self.alloc, line)?,
            found: String::from_str(self.alloc, found)?,
        })
    }

    // Asks whether all nodes are as they are after so many lines of the script.
    fn stays_as_after<L: Layer<D>>(
        &self,
        max_nodes: u32,
        script: &str,
        count: usize,
    ) -> Result<(), Mismatch> {
        let after = state_after::<D, L>(self.alloc, max_nodes, script, count)?;
        if self.state().is_same(&after)? {
            Ok(())
        } else {
            Err(Mismatch::Nodes)
        }
    }

    // Carries out the calls of so many lines of a script.
    fn run_lines<L: Layer<D>>(&mut self, script: &str, count: usize) -> Result<(), Stop> {
        for line in script.lines().take(count) {
            let (call, _answer) = parts_of(line);
            if !call.is_empty() {
                self.run::<L>(call)?;
            }
        }
        Ok(())
    }

    // What the getters answer after so many lines of a script.
    fn state_after<L: Layer<D>>(&mut self, script: &str, count: usize) -> Result<Answer, Stop> {
        self.run_lines::<L>(script, count)?;
        Ok(self.state())
    }

    // What the getters answer of all nodes that the script has made.
    fn state(&self) -> Answer {
        let mut answer = Answer::new(self.alloc);
        answer.put_number(self.ctx.num_live() as usize);
        for op in &self.made.ops {
            self.put_state(&mut answer, IRNode::Operation(*op));
        }
        for region in &self.made.regions {
            self.put_state(&mut answer, IRNode::Region(*region));
        }
        for block in &self.made.blocks {
            self.put_state(&mut answer, IRNode::BasicBlock(*block));
        }
        answer
    }

    fn put_state(&self, answer: &mut Answer, node: IRNode) {
        answer.put("\n");
        self.made.put_node(answer, node);
        if node.is_live(&self.ctx) {
            show(self.alloc, &self.ctx, &self.made, answer, node);
        }
    }
}

/// Plays a script in a context with room for so many live nodes. Where a call is refused for want of memory, all nodes
/// are as they are after the lines before it, and the call is made once more.
///
/// # Errors
///
/// The first line whose answer is another one.
pub fn play<D: OpSet, L: Layer<D>>(
    alloc: Global,
    max_nodes: u32,
    script: &str,
) -> Result<(), Mismatch> {
    let mut bench: Bench<D> = Bench::new(alloc, max_nodes);
    bench.play::<L>(max_nodes, script)
}

// What the getters answer after so many lines of a script in a new bench. A function that owns a bench takes long to
// prove, the more ways out it has: so this one and `play` have one each.
fn state_after<D: OpSet, L: Layer<D>>(
    alloc: Global,
    max_nodes: u32,
    script: &str,
    count: usize,
) -> Result<Answer, Stop> {
    let mut bench: Bench<D> = Bench::new(alloc, max_nodes);
    bench.state_after::<L>(script, count)
}

fn is_answer(found: &str, answer: &str) -> bool {
    found.trim_start() == answer
}

// The call and the answer of a line.
fn parts_of(line: &str) -> (&str, &str) {
    line.trim().split_once(" => ").unwrap_or((line.trim(), ""))
}
