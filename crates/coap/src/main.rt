//! The program `coap`: a client and a server of CoAP (RFC 7252) on the command line.
#![tactic(auto)]

use coap_commands::{Terminal, Terminals, command_on, without_words};
use std::io::IsTerminal;
use std::process::ExitCode;
use std::rt::Env;
use std::{env, io};

// The words of the command line, the program's own name first.
fn arguments<R: Env + AllocGlobal>(rt: &R) -> io::Result<Vec<String>> {
    Ok(env::args(rt)?.collect(rt.alloc())?)
}

// Whether NO_COLOR says that nothing is to be in colour (no-color.org).
fn is_colourless<R: Env + AllocGlobal>(rt: &R) -> bool {
    match env::var(rt, "NO_COLOR") {
        Ok(text) => !text.is_empty(),
        Err(_) => false,
    }
}

// What standard output or standard error is.
fn terminal(is_terminal: bool, is_colourless: bool) -> Terminal {
    match (is_terminal, is_colourless) {
        (false, _) => Terminal::Absent,
        (true, true) => Terminal::Plain,
        (true, false) => Terminal::Coloured,
    }
}

fn main(rt: HostRuntime) -> ExitCode {
    let mut out = io::writer(&rt);
    let mut err = rt.stderr();
    let is_colourless = is_colourless(&rt);
    let terminals = Terminals {
        out: terminal(rt.stdout().is_terminal(), is_colourless),
        err: terminal(err.is_terminal(), is_colourless),
    };
    let status = match arguments(&rt) {
        Ok(words) => command_on(&rt, words.as_slice(), terminals, &mut out, &mut err),
        Err(error) => without_words(&error, &mut err),
    };
    ExitCode::from(status)
}
