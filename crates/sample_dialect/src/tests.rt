//! Sums, as a script.
use crate::add_op::AddOp;
use crate::kinds::{SampleKind, SampleSet};
use dce::sweep;
use plir_scripts::{Bench, Layer, Line, Mismatch, NodeCalls, ScriptKind, Stop, play};

impl ScriptKind for SampleKind {
    fn of_word(word: &str) -> Option<SampleKind> {
        match word {
            "add" => Some(SampleKind::Add),
            "show" => Some(SampleKind::Show),
            _ => None,
        }
    }
}

/// The call `sweep OP`, and those on nodes.
struct SampleCalls;

impl Layer<SampleSet> for SampleCalls {
    fn run(bench: &mut Bench<SampleSet>, line: Line<'_>) -> Result<(), Stop> {
        match line.command {
            "sweep" => {
                let op = bench.made.op(&bench.ctx, line.first)?;
                let _end = sweep(&mut bench.ctx, op);
                Ok(())
            }
            "sum" => {
                let op = bench.made.op(&bench.ctx, line.first)?;
                let is_sum = AddOp::from_operation(&bench.ctx, op).is_some();
                bench.answer.put(if is_sum { "yes" } else { "no" });
                Ok(())
            }
            _ => NodeCalls::run(bench, line),
        }
    }
}

#[test]
fn a_sum_that_nothing_uses_goes(rt: HostRuntime) -> Result<(), Mismatch> {
    let script = "
        type builtin.integer si32 => t0
        op module 1 => o0
        block => b0
        back b0 r0
        op constant 0 t0 => o1
        op add 0 t0 < o1.0 o1.0 => o2
        op add 0 t0 < o1.0 o2.0 => o3
        op show 0 < o2.0 => o4
        back o1 b0
        back o2 b0
        back o3 b0
        back o4 b0
        sum o2 => yes
        sum o4 => no
        sweep o0
        live o3 => no
        live o2 => yes
        live o1 => yes";
    play::<SampleSet, SampleCalls>(rt.alloc(), 100, script)
}
