//! The lowering, as scripts.
use crate::kinds::{ArithKind, ArithSet};
use crate::lowering::{LowerAdd, LowerErr};
use plir_passes::convert;
use plir_scripts::{Bench, Layer, Line, Mismatch, NodeCalls, ScriptKind, Stop, play};

impl ScriptKind for ArithKind {
    fn of_word(word: &str) -> Option<ArithKind> {
        match word {
            "add" => Some(ArithKind::Add),
            "neg" => Some(ArithKind::Neg),
            "sub" => Some(ArithKind::Sub),
            _ => None,
        }
    }
}

/// The calls `lower OP`, `name OP` for the operation that stands before OP, and those on nodes.
struct LowerCalls;

impl Layer<ArithSet> for LowerCalls {
    fn run(bench: &mut Bench<ArithSet>, line: Line<'_>) -> Result<(), Stop> {
        match line.command {
            "lower" => lower(bench, line.first),
            "name" => {
                let op = bench.made.op(&bench.ctx, line.first)?;
                if let Some(prev) = op.get_prev(&bench.ctx) {
                    bench.made.ops.push(prev)?;
                }
                Ok(())
            }
            _ => NodeCalls::run(bench, line),
        }
    }
}

// Lowers all sums below an operation.
fn lower(bench: &mut Bench<ArithSet>, word: &str) -> Result<(), Stop> {
    let op = bench.made.op(&bench.ctx, word)?;
    let lowering = LowerAdd { alloc: bench.alloc };
    match convert(&mut bench.ctx, &lowering, op) {
        Ok(()) => bench.answer.put("done"),
        Err(LowerErr::Malformed) => bench.answer.put("malformed"),
        Err(LowerErr::Node(refusal)) => return Err(Stop::from(refusal)),
    }
    Ok(())
}

#[test]
fn a_sum_becomes_a_negation_and_a_difference(rt: HostRuntime) -> Result<(), Mismatch> {
    let script = "
        type builtin.integer si32 => t0
        op func 1 => o0
        block - t0 t0 => b0
        back b0 r0
        op add 0 t0 < b0.0 b0.1 => o1
        op neg 0 t0 < o1.0 => o2
        back o1 b0
        back o2 b0
        count => 5
        lower o0 => done
        live o1 => no
        count => 6
        name o2
        name o3
        show o3 => sub Unknown, in b0 r0 o0, between o4 o2, regions, from - to -, operands b0.0 o4.0, successors, results 1
        show o4 => neg Unknown, in b0 r0 o0, between - o3, regions, from - to -, operands b0.1, successors, results 1
        show o2 => neg Unknown, in b0 r0 o0, between o3 -, regions, from - to -, operands o3.0, successors, results 1
        lower o0 => done
        count => 6";
    play::<ArithSet, LowerCalls>(rt.alloc(), 100, script)
}

#[test]
fn a_sum_of_three_values_is_refused(rt: HostRuntime) -> Result<(), Mismatch> {
    let script = "
        type builtin.integer si32 => t0
        op func 1 => o0
        block - t0 => b0
        back b0 r0
        op add 0 t0 < b0.0 b0.0 => o1
        op add 0 t0 < o1.0 o1.0 b0.0 => o2
        back o1 b0
        back o2 b0
        lower o0 => malformed
        live o1 => no
        live o2 => yes
        name o2
        name o3
        show o3 => sub Unknown, in b0 r0 o0, between o4 o2, regions, from - to -, operands b0.0 o4.0, successors, results 1";
    play::<ArithSet, LowerCalls>(rt.alloc(), 100, script)
}
