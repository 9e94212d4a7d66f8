//! From the words of the command line to scripts that are played.
use crate::layers::play_script;
use crate::script::{MARK, Script, script_of};
use plir_scripts::Mismatch;
use std::env::{self, Args};
use std::fs;
use std::io::{self, Write};

/// What is played of each file.
#[derive(Clone, Copy)]
enum Chosen<'a> {
    All,
    Only(&'a str),
}

/// Plays the scripts of the files that the command line names; answers whether each is as it says.
pub fn play_files(rt: &HostRuntime) -> io::Result<bool> {
    let mut words = env::args(rt)?;
    let _program = words.next();
    let Some(first) = words.next() else {
        let _told = eprintln!(rt; "plir_play: no file is named");
        return Ok(false);
    };
    if first.as_str() == "--only" {
        let name = words.next().unwrap_or(String::new(rt.alloc()));
        return play_each(rt, words, Chosen::Only(name.as_str()));
    }
    let is_right = play_file(rt, first.as_str(), Chosen::All)?;
    Ok(play_each(rt, words, Chosen::All)? && is_right)
}

// The same for these files.
fn play_each(rt: &HostRuntime, files: Args, chosen: Chosen<'_>) -> io::Result<bool> {
    let mut are_right = true;
    for path in files {
        are_right = play_file(rt, path.as_str(), chosen)? && are_right;
    }
    Ok(are_right)
}

// Plays the scripts of a file, and prints how many there were.
fn play_file(rt: &HostRuntime, path: &str, chosen: Chosen<'_>) -> io::Result<bool> {
    let bytes = fs::read(rt, path)?;
    let Ok(text) = str::from_utf8(bytes.as_slice()) else {
        let _told = eprintln!(rt; "{path}: no text");
        return Ok(false);
    };
    let (mut count, mut are_right) = (0usize, true);
    for part in text.split(MARK).skip(1) {
        let Some(script) = script_of(part) else {
            let _told = eprintln!(rt; "{path}: no head of a script: {part}");
            are_right = false;
            continue;
        };
        if is_chosen(chosen, script.name) {
            are_right = play_one(rt, path, &script) && are_right;
            count = count.saturating_add(1);
        }
    }
    writeln!(io::writer(rt), "{path}: {count} scripts")?;
    Ok(are_right)
}

// Whether the script of a name is to be played.
fn is_chosen(chosen: Chosen<'_>, name: &str) -> bool {
    match chosen {
        Chosen::All => true,
        Chosen::Only(wanted) => name == wanted,
    }
}

// Plays a script, and tells what is not as it says.
fn play_one(rt: &HostRuntime, path: &str, script: &Script<'_>) -> bool {
    let name = script.name;
    match play_script(rt.alloc(), script) {
        Some(Ok(())) => return true,
        Some(Err(Mismatch::Answer { line, found })) => {
            let _told = eprintln!(rt; "{path}: {name}: {line}: found {found}");
        }
        Some(Err(Mismatch::Nodes)) => {
            let _told = eprintln!(rt; "{path}: {name}: a refused call has changed a node");
        }
        Some(Err(Mismatch::Memory)) => {
            let _told = eprintln!(rt; "{path}: {name}: out of memory");
        }
        None => {
            let _told = eprintln!(rt; "{path}: {name}: there is no such layer");
        }
    }
    false
}
