//! The program `coap` until the whole of it is built: `answer` and `show` alone, over the few crates that these need.
#![tactic(auto)]

use coap_answers::{answer, show};
use coap_status::{Status, Stop};
use coap_types::{Path, PathRefusal};
use hex::FromHexError;
use std::alloc::Global;
use std::io::Write;
use std::process::ExitCode;
use std::rt::Env;
use std::{env, io};

// What is said where the words are neither those of `answer` nor those of `show`.
const USAGE: &str =
    "usage: coap answer PATH BODY HEX, or coap show HEX; what else there is comes with the whole program";

// The words of the command line, the program's own name first.
fn arguments<R: Env + AllocGlobal>(rt: &R) -> io::Result<Vec<String>> {
    Ok(env::args(rt)?.collect(rt.alloc())?)
}

// The word at this place, empty where there is none.
fn word(words: &[String], place: usize) -> &str {
    match words.get(place) {
        Some(word) => word.as_str(),
        None => "",
    }
}

// The path that a text says: its segments are joined by `/`, and one leading `/` is dropped.
fn path_of(alloc: Global, text: &str) -> Result<Path, PathRefusal> {
    let rest = text.strip_prefix('/').unwrap_or(text);
    let mut path = Path::new(alloc);
    if rest.is_empty() {
        return Ok(path);
    }
    for segment in rest.split('/') {
        path.push(segment.as_bytes())?;
    }
    Ok(path)
}

// The bytes of a datagram that a text has in hex; none where it is no hex.
fn datagram_of(alloc: Global, text: &str) -> Result<Option<Vec<u8>>, Stop> {
    match hex::decode(alloc, text) {
        Ok(datagram) => Ok(Some(datagram)),
        Err(FromHexError::OutOfMemory) => Err(Stop::Memory),
        Err(_) => Ok(None),
    }
}

// Says that a datagram is no hex.
fn refuse_hex<W: Write>(out: &mut W) -> Result<Status, Stop> {
    writeln!(out, "bad hex")?;
    Ok(Status::Words)
}

// `coap show HEX`
fn show_words<W: Write>(alloc: Global, hex: &str, out: &mut W) -> Result<Status, Stop> {
    match datagram_of(alloc, hex)? {
        Some(datagram) => show(alloc, datagram.as_slice(), out),
        None => refuse_hex(out),
    }
}

// `coap answer PATH BODY HEX`, behind its path.
fn answer_words<W: Write>(
    alloc: Global,
    path: &Path,
    body: &str,
    hex: &str,
    out: &mut W,
) -> Result<Status, Stop> {
    match datagram_of(alloc, hex)? {
        Some(datagram) => answer(alloc, path, body, datagram.as_slice(), out),
        None => refuse_hex(out),
    }
}

// Runs the words.
fn run<O: Write, E: Write>(
    alloc: Global,
    words: &[String],
    out: &mut O,
    err: &mut E,
) -> Result<Status, Stop> {
    if words.len() == 3 && word(words, 1) == "show" {
        return show_words(alloc, word(words, 2), out);
    }
    if words.len() == 5 && word(words, 1) == "answer" {
        return match path_of(alloc, word(words, 2)) {
            Ok(path) => answer_words(alloc, &path, word(words, 3), word(words, 4), out),
            Err(PathRefusal::Memory) => Err(Stop::Memory),
            Err(refusal) => {
                let _ = writeln!(err, "PATH has {refusal}");
                Ok(Status::Words)
            }
        };
    }
    let _ = writeln!(err, "{USAGE}");
    Ok(Status::Words)
}

// Says why a run stopped, where it did.
fn close<E: Write>(ended: Result<Status, Stop>, err: &mut E) -> Status {
    match ended {
        Ok(status) => status,
        Err(Stop::Failed) => {
            let _ = writeln!(err, "failed");
            Status::Failed
        }
        Err(Stop::Memory) => {
            let _ = writeln!(err, "no memory");
            Status::Memory
        }
    }
}

fn main(rt: HostRuntime) -> ExitCode {
    let mut out = io::writer(&rt);
    let mut err = rt.stderr();
    let status = match arguments(&rt) {
        Ok(words) => {
            let ended = run(rt.alloc(), words.as_slice(), &mut out, &mut err);
            close(ended, &mut err)
        }
        Err(_) => {
            let _ = writeln!(err, "an argument is no UTF-8 text");
            Status::Words
        }
    };
    ExitCode::from(status.number())
}
