//! From the bytes of a text to what is printed.
ghost use Rattle.std.specs.Prelude.{◌≡◌, ◌++◌, ◌⊎◌, ◌||◌, false, true, codes, IfErr, IfOk, OnOk, string_bytes};
ghost use Rattle.plir_checks.specs.Comments.{blanked};
ghost use Rattle.plir_core.specs.ContextView.{IsLive};
ghost use Rattle.plir_core.specs.declared.ptr.IRNode.{IRNode as AnyNode};
ghost use Rattle.plir_print.specs.OpText.{op_text};
ghost use Rattle.plir_verify.specs.Rules.{AllHaveRules};
ghost use Rattle.plir_driver.specs.Dumps.{AreLogged, IsLogged, IsPassLogged};
ghost use Rattle.plir_driver.specs.PassEnds.{IsEnd};
ghost use Rattle.plir_driver.specs.Passed.{AreRun};
ghost use Rattle.plir_driver.specs.Reading.{no_nodes};
ghost use Rattle.plir_driver.specs.Stopped.{IsNoText, IsStopped, IsStoppedAt, IsStoppedIn, IsUnprinted};
ghost use Rattle.plir_driver.specs.Transformed.{IsTransformed, IsPrintedAs};

use crate::choices::{Choices, Form, Reports};
use crate::counts::{count_if, put_counts};
use crate::dumps::{is_dumped_before, put_dump};
use crate::listing::list_nodes;
use crate::locating::list_locations;
use crate::log::Log;
use crate::pass::Pass;
use crate::pass_end::PassEnd;
use crate::progress::Watch;
use crate::stop::Stop;
use crate::text_reader::TextReader;
use crate::timing::{nanos_since, put_time, started};
use crate::tracing::trace_walk;
use plir_checks::blank_comments;
use plir_core::{Context, Operation, Ptr};
use plir_pictures::{draw, draw_calls};
use plir_pipelines::PassTime;
use plir_print::{is_printable, print_op};
use plir_symbols::SymbolNames;
use plir_verify::{VerifySet, verify_tree};
use std::alloc::Global;
use std::rt::Clock;

/// What is printed for the bytes of a text: they are read as an operation, but for lines that are comments, which count
/// as blanks; it is verified, taken through the passes, and printed. What is told of the passes as they run is put
/// behind the log.
///
/// # Errors
///
/// The first that holds of these: the bytes are no text, or a text that can't be read; an operation is refused, once
/// all is read, or behind a pass; a pass stops; the operation, or its call graph, can't be printed; or memory or room
/// for a node is wanting.
pub fn transform<D: VerifySet + SymbolNames, P: Pass<D>, T: TextReader<D>, R: Clock + Watch>(
    rt: &R,
    alloc: Global,
    choices: &Choices<P>,
    bytes: &[u8],
    log: &mut Log,
) -> Result<String, Stop<D::Err>>
    ensures transformed { IfOk result (λ t. IsTransformed D.OpSet D.uses_hold D.rule D.names_used T.stands
        P.has_passed choices.now.verify choices.now.passes.items choices.now.form (blanked bytes.now)
        (string_bytes t)) }
    ensures stopped { IfErr result (λ e. IsNoText bytes.now e ⊎ IsStopped D.OpSet D.uses_hold D.use_refusal D.rule
        D.rule_refusal D.names_used T.stands T.refuses P.has_passed P.may_stop choices.now.verify
        choices.now.passes.items choices.now.form (blanked bytes.now) e) }
    ensures logged { OnOk result (IsLogged D.OpSet P.pass_name P.has_passed choices.now.reports T.stands
        choices.now.passes.items (blanked bytes.now) log.old log.new) }
{
    match str::from_utf8(bytes) {
        Ok(text) => {
            let text = blank_comments(alloc, text)?;
            transform_text::<D, P, T, R>(rt, alloc, choices, text.as_str(), log)
        }
        Err(_) => Err(Stop::NoText),
    }
}

// The same of a text.
fn transform_text<D: VerifySet + SymbolNames, P: Pass<D>, T: TextReader<D>, R: Clock + Watch>(
    rt: &R,
    alloc: Global,
    choices: &Choices<P>,
    text: &str,
    log: &mut Log,
) -> Result<String, Stop<D::Err>>
    ensures transformed { IfOk result (λ t. IsTransformed D.OpSet D.uses_hold D.rule D.names_used T.stands
        P.has_passed choices.now.verify choices.now.passes.items choices.now.form text.now (string_bytes t)) }
    ensures stopped { IfErr result (IsStopped D.OpSet D.uses_hold D.use_refusal D.rule D.rule_refusal D.names_used
        T.stands T.refuses P.has_passed P.may_stop choices.now.verify choices.now.passes.items choices.now.form
        text.now) }
    ensures logged { OnOk result (IsLogged D.OpSet P.pass_name P.has_passed choices.now.reports T.stands
        choices.now.passes.items text.now log.old log.new) }
{
    let mut ctx = Context::<D>::new(alloc);
    transform_in::<D, P, T, R>(rt, alloc, choices, text, &mut ctx, log)
}

// The same in a context in which nothing was made yet.
fn transform_in<D: VerifySet + SymbolNames, P: Pass<D>, T: TextReader<D>, R: Clock + Watch>(
    rt: &R,
    alloc: Global,
    choices: &Choices<P>,
    text: &str,
    ctx: &mut Context<D>,
    log: &mut Log,
) -> Result<String, Stop<D::Err>>
    requires { ctx.old.nodes ≡ no_nodes }
    ensures transformed { IfOk result (λ t. IsTransformed D.OpSet D.uses_hold D.rule D.names_used T.stands
        P.has_passed choices.now.verify choices.now.passes.items choices.now.form text.now (string_bytes t)) }
    ensures stopped { IfErr result (IsStopped D.OpSet D.uses_hold D.use_refusal D.rule D.rule_refusal D.names_used
        T.stands T.refuses P.has_passed P.may_stop choices.now.verify choices.now.passes.items choices.now.form
        text.now) }
    ensures logged { OnOk result (IsLogged D.OpSet P.pass_name P.has_passed choices.now.reports T.stands
        choices.now.passes.items text.now log.old log.new) }
{
    rt.begin("reading");
    let root = T::read(alloc, ctx, text)?;
    rt.begin("verifying");
    verify_tree(alloc, ctx, root)?;
    run_passes::<D, P, R>(
        rt,
        alloc,
        choices.verify,
        choices.passes.as_slice(),
        &choices.reports,
        ctx,
        root,
        log,
    )?;
    rt.begin("printing");
    print(alloc, choices.form, ctx, root)
}

// Runs passes, one after another.
fn run_passes<D: VerifySet + SymbolNames, P: Pass<D>, R: Clock + Watch>(
    rt: &R,
    alloc: Global,
    verify: bool,
    passes: &[P],
    reports: &Reports<P>,
    ctx: &mut Context<D>,
    root: Ptr<Operation>,
    log: &mut Log,
) -> Result<(), Stop<D::Err>>
    requires live { IsLive ctx.old (AnyNode.Operation root) }
    requires right { verify ≡ true → AllHaveRules D.OpSet D.uses_hold D.rule ctx.old root }
    ensures live { IsLive ctx.new (AnyNode.Operation root) }
    ensures passed { OnOk result (AreRun D.OpSet P.has_passed root D.uses_hold D.rule verify passes.now ctx.old
        ctx.new) }
    ensures stopped { IfErr result (IsStoppedIn D.OpSet D.uses_hold D.use_refusal D.rule D.rule_refusal P.has_passed
        P.may_stop root verify passes.now ctx.old) }
    ensures logged { OnOk result (AreLogged D.OpSet P.pass_name P.has_passed reports.now root passes.now ctx.old
        ctx.new log.old log.new) }
{
    for pass in passes {
        run_told::<D, P, R>(rt, alloc, verify, *pass, reports, ctx, root, log)?;
    }
    Ok(())
}

// Whether operations are counted in front of passes and behind them.
fn are_counted<P>(reports: &Reports<P>) -> bool
    ensures { result ≡ (reports.now.stats || reports.now.timing) }
{
    reports.stats || reports.timing
}

// Runs a pass, and tells what is asked for in front of it and behind it.
fn run_told<D: VerifySet + SymbolNames, P: Pass<D>, R: Clock + Watch>(
    rt: &R,
    alloc: Global,
    verify: bool,
    pass: P,
    reports: &Reports<P>,
    ctx: &mut Context<D>,
    root: Ptr<Operation>,
    log: &mut Log,
) -> Result<(), Stop<D::Err>>
    requires live { IsLive ctx.old (AnyNode.Operation root) }
    requires right { verify ≡ true → AllHaveRules D.OpSet D.uses_hold D.rule ctx.old root }
    ensures live { IsLive ctx.new (AnyNode.Operation root) }
    ensures passed { OnOk result (P.has_passed pass root ctx.old ctx.new) }
    ensures verified { OnOk result (verify ≡ true → AllHaveRules D.OpSet D.uses_hold D.rule ctx.new root) }
    ensures stopped { IfErr result (IsStoppedAt D.OpSet D.uses_hold D.use_refusal D.rule D.rule_refusal P.has_passed
        P.may_stop root verify pass ctx.old) }
    ensures logged { OnOk result (IsPassLogged D.OpSet P.pass_name root reports.now pass ctx.old ctx.new
        log.old log.new) }
{
    let name = pass.name();
    rt.begin(name);
    let before = is_dumped_before(reports, name);
    put_dump(&mut log.text, alloc, before, "Before", name, ctx, root)?;
    let are_counted = are_counted(reports);
    let before = count_if(are_counted, ctx, root);
    let start = started(reports.timing, rt);
    let end = run_one::<D, P>(alloc, verify, pass, ctx, root)?;
    let nanos = nanos_since(rt, start);
    let after = count_if(are_counted, ctx, root);
    put_dump(
        &mut log.text,
        alloc,
        reports.after_all,
        "After",
        name,
        ctx,
        root,
    )?;
    put_counts(&mut log.text, reports.stats, name, before, after, end)?;
    put_time(
        &mut log.times,
        reports.timing,
        PassTime {
            name,
            nanos,
            before,
            after,
        },
    )?;
    Ok(())
}

// Whether it is verified behind a pass that ends so, where that is asked for: what has not changed is right still.
fn is_verified_behind(verify: bool, end: PassEnd) -> bool
    ensures asked { result ≡ true → verify ≡ true }
    ensures left_out { result ≡ false → verify ≡ true → end ≡ PassEnd.Unchanged }
{
    match end {
        PassEnd::Changed => verify,
        PassEnd::Unchanged => false,
    }
}

// Runs a pass, and verifies behind it what it may have changed, if that is asked for.
fn run_one<D: VerifySet + SymbolNames, P: Pass<D>>(
    alloc: Global,
    verify: bool,
    pass: P,
    ctx: &mut Context<D>,
    root: Ptr<Operation>,
) -> Result<PassEnd, Stop<D::Err>>
    requires live { IsLive ctx.old (AnyNode.Operation root) }
    requires right { verify ≡ true → AllHaveRules D.OpSet D.uses_hold D.rule ctx.old root }
    ensures live { IsLive ctx.new (AnyNode.Operation root) }
    ensures passed { OnOk result (P.has_passed pass root ctx.old ctx.new) }
    ensures end { IfOk result (IsEnd ctx.old ctx.new) }
    ensures verified { OnOk result (verify ≡ true → AllHaveRules D.OpSet D.uses_hold D.rule ctx.new root) }
    ensures stopped { IfErr result (IsStoppedAt D.OpSet D.uses_hold D.use_refusal D.rule D.rule_refusal P.has_passed
        P.may_stop root verify pass ctx.old) }
{
    let end = pass.run(alloc, ctx, root)?;
    if is_verified_behind(verify, end) {
        verify_tree(alloc, ctx, root)?;
    }
    Ok(end)
}

// An operation with all below it, as it is to be printed.
fn print<D: SymbolNames>(
    alloc: Global,
    form: Form,
    ctx: &Context<D>,
    root: Ptr<Operation>,
) -> Result<String, Stop<D::Err>>
    requires { IsLive ctx.now (AnyNode.Operation root) }
    ensures printed { IfOk result (λ t. IsPrintedAs D.OpSet D.names_used ctx.now root form (string_bytes t)) }
    ensures unprinted { IfErr result (IsUnprinted D.OpSet D.names_used root form ctx.now) }
{
    match form {
        Form::Text => print_text(alloc, ctx, root),
        Form::Walk => Ok(list_nodes(alloc, ctx, root)?),
        Form::Locations => Ok(list_locations(alloc, ctx, root)?),
        Form::View { uses } => Ok(draw(alloc, ctx, root, uses)?),
        Form::CallGraph => Ok(draw_calls(alloc, ctx, root)?),
        Form::Trace { order, direction } => Ok(trace_walk(alloc, ctx, order, direction, root)?),
    }
}

// The text of an operation with all below it, and a line feed.
fn print_text<D: SymbolNames>(
    alloc: Global,
    ctx: &Context<D>,
    root: Ptr<Operation>,
) -> Result<String, Stop<D::Err>>
    requires { IsLive ctx.now (AnyNode.Operation root) }
    ensures text { IfOk result (λ t. string_bytes t ≡ op_text D.OpSet ctx.now root ++ codes "\n") }
    ensures unprinted { IfErr result (IsUnprinted D.OpSet D.names_used root Form.Text ctx.now) }
{
    if !is_printable(ctx, root) {
        return Err(Stop::Unprintable);
    }
    let mut text = print_op(alloc, ctx, root)?;
    text.push_str("\n")?;
    Ok(text)
}
