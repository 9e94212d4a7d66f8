//! How long passes take.
ghost use Rattle.std.specs.Prelude.{◌≡◌, ◌++◌, ◌∷◌, [], false, true, Ok, OnOk};

use plir_pipelines::PassTime;
use std::alloc::AllocError;
use std::rt::Clock;
use std::time::{Duration, Instant};

/// When a pass began to run, if that is to be told and the clock could be read.
pub fn started<R: Clock>(is_asked: bool, rt: &R) -> Option<Instant> {
    if is_asked {
        Instant::now(rt).ok()
    } else {
        None
    }
}

// A time in billionths of a second.
fn nanos_of(time: Duration) -> u64 {
    let seconds = time.as_secs().saturating_mul(1_000_000_000);
    seconds.saturating_add(u64::from(time.subsec_nanos()))
}

/// How long it has run since then, in billionths of a second; none, where the clock can't be read.
pub fn nanos_since<R: Clock>(rt: &R, start: Option<Instant>) -> u64 {
    match start {
        None => 0,
        Some(start) => match start.elapsed(rt) {
            Ok(time) => nanos_of(time),
            Err(_) => 0,
        },
    }
}

/// Puts how long a run of a pass took behind what is told of others, where that is asked for.
pub fn put_time(times: &mut Vec<PassTime>, is_asked: bool, time: PassTime) -> Result<(), AllocError>
    ensures asked { is_asked ≡ true → OnOk result (times.new.items ≡ times.old.items ++ time ∷ []) }
    ensures unasked { is_asked ≡ false → (result ≡ Ok tt) × (times.new ≡ times.old) }
{
    if !is_asked {
        return Ok(());
    }
    times.push(time)?;
    Ok(())
}
