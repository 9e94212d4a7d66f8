// SPDX-License-Identifier: Apache-2.0
//! Plays the scripts of the files that its words name, each in a context of its own. A line `== LAYER NODES NAME`
//! begins a script: whose calls it makes, how many live nodes its context has room for, and what it shows; a line that
//! begins with `#` ends it, and is for readers. For each file it prints how many scripts were played; a script with a
//! line whose answer is another one is told, and the status is 1 then. Behind `--only NAME` the script of this name
//! alone is played.
#![tactic(auto)]

mod layers;
mod playing;
mod script;

use playing::play_files;
use std::process::ExitCode;

fn main(rt: HostRuntime) -> ExitCode {
    match play_files(&rt) {
        Ok(true) => ExitCode::SUCCESS,
        Ok(false) => ExitCode::FAILURE,
        Err(error) => {
            let _told = eprintln!(&rt; "plir_play: {error}");
            ExitCode::FAILURE
        }
    }
}
