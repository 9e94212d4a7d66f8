//! How long passes took, as a table.
ghost use Rattle.std.specs.Prelude.{◌≡◌, ◌++◌, ◌<◌, OnOk, string_bytes};
ghost use Rattle.plir_pipelines.specs.Times.{aligned, counts, right, seconds, share, share_of, time_line, time_lines};
ghost use Rattle.plir_pipelines.specs.Times.{table_of, times_table, total_nanos};

use std::alloc::{AllocError, Global};

/// How long one run of a pass took, and how many operations there were in front of it and behind it.
#[derive(Clone, Copy, Debug)]
pub struct PassTime {
    /// The pass's name.
    pub name: &'static str,
    /// The time, in billionths of a second.
    pub nanos: u64,
    /// How many operations there were in front of it.
    pub before: usize,
    /// How many there were behind it.
    pub after: usize,
}

const HEAD: &str = "      seconds    share    before     after  pass\n";

// Puts a text at the right end of so many columns, with a character in those that it leaves.
fn put_right(out: &mut String, fill: char, width: usize, text: &str) -> Result<(), AllocError>
    requires { fill < 128 }
    ensures { OnOk result (string_bytes out.new ≡ string_bytes out.old ++ right fill width text.now) }
{
    for _ in 0..width.saturating_sub(text.len()) {
        out.push(fill)?;
    }
    out.push_str(text)
}

// Puts a number at the right end of so many columns.
fn put_number(
    alloc: Global,
    out: &mut String,
    fill: char,
    width: usize,
    number: u64,
) -> Result<(), AllocError>
    requires { fill < 128 }
    ensures { OnOk result (string_bytes out.new ≡ string_bytes out.old ++ aligned fill width number) }
{
    let digits = number.to_string(alloc)?;
    put_right(out, fill, width, digits.as_str())
}

// Puts a time as seconds, with six places behind the point.
fn put_seconds(alloc: Global, out: &mut String, nanos: u64) -> Result<(), AllocError>
    ensures { OnOk result (string_bytes out.new ≡ string_bytes out.old ++ seconds nanos) }
{
    put_number(alloc, out, ' ', 6, nanos / 1_000_000_000)?;
    out.push_str(".")?;
    put_number(alloc, out, '0', 6, nanos / 1000 % 1_000_000)
}

// The thousandths of a time that another one is; none of no time.
fn share_of(nanos: u64, total: u64) -> u64
    ensures { result ≡ share_of nanos total }
{
    if total == 0 {
        0
    } else {
        nanos.saturating_mul(1000) / total
    }
}

// Puts a share of a time in percent, with one place behind the point.
fn put_share(alloc: Global, out: &mut String, nanos: u64, total: u64) -> Result<(), AllocError>
    ensures { OnOk result (string_bytes out.new ≡ string_bytes out.old ++ share nanos total) }
{
    let thousandths = share_of(nanos, total);
    put_number(alloc, out, ' ', 6, thousandths / 10)?;
    out.push_str(".")?;
    put_number(alloc, out, '0', 1, thousandths % 10)?;
    out.push_str("%")
}

// Puts two numbers of operations.
fn put_counts(
    alloc: Global,
    out: &mut String,
    before: usize,
    after: usize,
) -> Result<(), AllocError>
    ensures { OnOk result (string_bytes out.new ≡ string_bytes out.old ++ counts before after) }
{
    put_number(alloc, out, ' ', 10, before as u64)?;
    put_number(alloc, out, ' ', 10, after as u64)
}

// Puts the line of a run of a pass, of so many billionths of a second in all.
fn put_line(alloc: Global, out: &mut String, total: u64, time: PassTime) -> Result<(), AllocError>
    ensures { OnOk result (string_bytes out.new ≡ string_bytes out.old ++ time_line total time) }
{
    put_seconds(alloc, out, time.nanos)?;
    put_share(alloc, out, time.nanos, total)?;
    put_counts(alloc, out, time.before, time.after)?;
    out.push_str("  ")?;
    out.push_str(time.name)?;
    out.push_str("\n")
}

// Puts the lines of runs, in their order.
fn put_lines(
    alloc: Global,
    out: &mut String,
    total: u64,
    times: &[PassTime],
) -> Result<(), AllocError>
    ensures { OnOk result (string_bytes out.new ≡ string_bytes out.old ++ time_lines total times.now) }
{
    for time in times {
        put_line(alloc, out, total, *time)?;
    }
    Ok(())
}

// How long all runs took.
fn total_nanos(times: &[PassTime]) -> u64
    ensures { result ≡ total_nanos times.now }
{
    let mut total = 0u64;
    for time in times {
        total = total.saturating_add(time.nanos);
    }
    total
}

// Puts the table of some runs, of which the first and the last are named.
fn put_table(
    alloc: Global,
    out: &mut String,
    times: &[PassTime],
    first: PassTime,
    last: PassTime,
) -> Result<(), AllocError>
    ensures { OnOk result (string_bytes out.new ≡ string_bytes out.old ++ table_of times.now first last) }
{
    let nanos = total_nanos(times);
    out.push_str(HEAD)?;
    put_lines(alloc, out, nanos, times)?;
    put_line(
        alloc,
        out,
        nanos,
        PassTime {
            name: "total",
            nanos,
            before: first.before,
            after: last.after,
        },
    )
}

/// Puts a table behind a text: a line for each run of a pass, in their order, with its seconds, its share of the time
/// of all, how many operations there were in front of it and behind it, and its name; and under them a line of the
/// time of all, with the operations in front of the first and behind the last. Nothing, where no pass was run.
pub fn put_times(alloc: Global, out: &mut String, times: &[PassTime]) -> Result<(), AllocError>
    ensures { OnOk result (string_bytes out.new ≡ string_bytes out.old ++ times_table times.now) }
{
    if times.is_empty() {
        return Ok(());
    }
    put_table(alloc, out, times, times[0], times[times.len() - 1])
}
