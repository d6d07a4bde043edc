// The depot program: plays session files, and packs them from lines of order texts.
#![tactic(auto)]

use anyhow::anyhow;
use index::file::MOST;
use packer::pack::pack;
use session::play::play;
use std::io::Write;
use std::process::ExitCode;
use std::{env, fs};

const HELP: &str = "depot plays a session of a parcel depot's dispatch board.

  depot FILE             play the session file FILE and print its lines
  depot pack LINES FILE  make the session file FILE from the order texts in LINES, one to a line
  depot                  print this help

Order texts:
  R      lay a queue
  C      lay a stack
  N c    start with a crew of c scanners
";

// Room for the lines of any session.
const ROOM: usize = 131072;

// The bytes of a file; an error names the file.
fn read_file(rt: &HostRuntime, path: &str) -> anyhow::Result<Vec<u8>> {
    fs::read(rt, path).map_err(|error| anyhow!("{path}: {error}"))
}

// Plays a session file and prints what it writes.
fn play_file(rt: &HostRuntime, path: &str) -> anyhow::Result<()> {
    let bytes = read_file(rt, path)?;
    if bytes.len() > MOST {
        return Err(anyhow!("the session file is longer than 16,384 bytes"));
    }
    let mut out = vec![in rt.alloc(); 0u8; ROOM]?;
    let played = play(&bytes, &mut out);
    rt.stdout().write_all(&out[..played.written])?;
    match played.fault {
        None => Ok(()),
        Some(fault) => Err(fault.into()),
    }
}

// Packs the lines of a text into a session file.
fn pack_file(rt: &HostRuntime, lines: &str, path: &str) -> anyhow::Result<()> {
    let text = read_file(rt, lines)?;
    let bytes = pack(rt.alloc(), &text)?;
    fs::write(rt, path, &bytes)?;
    Ok(())
}

fn run(rt: &HostRuntime) -> anyhow::Result<()> {
    let words: Vec<String> = env::args(rt)?.skip(1).collect(rt.alloc())?;
    match words.as_slice() {
        [] => {
            rt.print(HELP)?;
            Ok(())
        }
        [path] => play_file(rt, path.as_str()),
        [word, lines, path] if word.as_str() == "pack" => {
            pack_file(rt, lines.as_str(), path.as_str())
        }
        _ => Err(anyhow!("depot takes FILE, or pack LINES FILE; depot alone prints help")),
    }
}

// An error is printed on standard error, and the program ends with status 1.
fn main(rt: HostRuntime) -> ExitCode {
    match run(&rt) {
        Ok(()) => ExitCode::SUCCESS,
        Err(error) => {
            // where standard error cannot be written, the status alone says it
            let _ = eprintln!(rt; "depot: {error}");
            ExitCode::FAILURE
        }
    }
}
