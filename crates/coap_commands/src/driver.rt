//! One run of the program, over the writers that it is handed.
ghost use Rattle.std.specs.Prelude.{◌≡◌, ◌≢◌, ◌≤◌, ◌⊎◌, ◌↔◌, IfOk, map, string_bytes};
ghost use Rattle.std.specs.IoError.{error_kind};
ghost use Rattle.coap_commands.specs.Statuses.{CarriesOut, Ends, IsAnswered, IsCarriedTo, IsTold, ReadsText};
ghost use Rattle.coap_status.specs.StatusNumbers.{status_number};
ghost use Rattle.coap_commands.specs.Statuses.{status_of};
ghost use Rattle.coap_arguments.specs.Words.{AsksFor, IsWrong};
ghost use Rattle.coap_arguments.specs.declared.orders.Order.{Order};
ghost use Rattle.coap_arguments.specs.declared.orders.Wrong.{Wrong};
ghost use Rattle.coap_arguments.specs.declared.orders.Wrong.TheVariants as wrongs;

use crate::pair::pair;
use crate::version::version;
use coap_answers::{answer, show};
use coap_arguments::{Order, Wrong, order};
use coap_asking::{ask, discover, ping};
use coap_common::put_away;
use coap_print::Printing;
use coap_run::Addresses;
use coap_scripts::sim_file;
use coap_serving::serve;
use coap_showing::{dump, dump_capture};
use coap_status::{Status, Stop};
use coap_wires::{NO_TERMINALS, Terminals};
use std::fs::File;
use std::io;
use std::io::{ErrorKind, Write};
use std::net::Net;
use std::random::RandomSource;
use std::rt::{Clock, Files};

// Carries an order out. Standard output and standard error may be terminals.
fn perform<R: AllocGlobal + Files<File = File> + Net + Clock + RandomSource, O: Write, E: Write>(
    rt: &R,
    order: &Order<'_>,
    terminals: Terminals,
    out: &mut O,
    err: &mut E,
) -> Result<Status, Stop>
    ensures { IfOk result (CarriesOut (O.contents out.old) (O.contents out.new) order.now) }
{
    let alloc = rt.alloc();
    match order {
        Order::Version => version(out),
        Order::Show { datagram } => show(alloc, datagram.as_slice(), out),
        Order::Dump => dump(rt, out),
        Order::DumpCapture { file, chart } => {
            let printing = Printing::of(*chart, terminals.out.ink());
            dump_capture(rt, file, printing, out)
        }
        Order::Answer {
            path,
            body,
            datagram,
        } => answer(alloc, path, body, datagram.as_slice(), out),
        Order::Pair {
            path,
            body,
            word,
            limit,
            remembered,
        } => pair(rt, path, body, *word, *limit, *remembered, out),
        Order::Serve {
            port,
            count,
            options,
            script,
            pcap,
            journal,
        } => serve(
            rt,
            *port,
            *count,
            options,
            *script,
            *journal,
            terminals.err.showing(*pcap),
            out,
            err,
        ),
        Order::Ask {
            server,
            path,
            what,
            options,
            pcap,
        } => {
            let showing = terminals.err.showing(*pcap);
            ask(rt, *server, path, *what, options, showing, out, err)
        }
        Order::Discover {
            server,
            options,
            pcap,
        } => discover(rt, *server, options, terminals.err.showing(*pcap), out, err),
        Order::Ping {
            server,
            options,
            pcap,
        } => ping(rt, *server, options, terminals.err.showing(*pcap), out, err),
        Order::Sim {
            file,
            store,
            plains,
            remembered,
            chart,
            client,
            server,
            pcap,
        } => {
            let ends = Addresses {
                client: *client,
                server: *server,
            };
            let plains = plains.as_slice();
            let printing = Printing::of(*chart, terminals.out.ink());
            sim_file(
                rt,
                file,
                *store,
                plains,
                *remembered,
                ends,
                printing,
                *pcap,
                out,
            )
        }
    }
}

/// Says why the words give no order.
pub fn refuse<O: Write, E: Write>(wrong: Wrong, out: &mut O, err: &mut E) -> Result<Status, Stop>
    // What is wrong in the words is told with its status.
    ensures { IsTold wrong result }
{
    match wrong {
        Wrong::Memory => Err(Stop::Memory),
        Wrong::Hex => {
            writeln!(out, "{wrong}")?;
            Ok(Status::Words)
        }
        Wrong::Words(_)
        | Wrong::Path(_)
        | Wrong::Number(_)
        | Wrong::Word
        | Wrong::Address(_)
        | Wrong::Size
        | Wrong::Tags(_)
        | Wrong::Setting(_)
        | Wrong::Body
        | Wrong::Store
        | Wrong::Plains
        | Wrong::Ends(_)
        | Wrong::Together(_)
        | Wrong::NoPath
        | Wrong::Uri(_)
        | Wrong::Beside(_) => {
            let _ = writeln!(err, "{wrong}");
            Ok(Status::Words)
        }
    }
}

// Runs the words. Standard output and standard error may be terminals.
fn run<R: AllocGlobal + Files<File = File> + Net + Clock + RandomSource, O: Write, E: Write>(
    rt: &R,
    words: &[String],
    terminals: Terminals,
    out: &mut O,
    err: &mut E,
) -> Result<Status, Stop>
    ensures { Ends (O.contents out.old) (O.contents out.new) (map string_bytes words.now) result }
{
    match order(rt.alloc(), words) {
        Ok(order) => {
            let ended = perform(rt, &order, terminals, out, err);
            put_away(order);
            ended
        }
        Err(wrong) => refuse(wrong, out, err),
    }
}

/// Says why a run stopped, where it did.
pub fn close<E: Write>(ended: Result<Status, Stop>, err: &mut E) -> Status
    // The status is that of how the run ended.
    ensures { result ≡ status_of ended }
{
    match ended {
        Ok(status) => status,
        Err(Stop::Failed) => {
            let _ = writeln!(err, "failed");
            Status::Failed
        }
        Err(Stop::Memory) => {
            let _ = writeln!(err, "no memory");
            Status::Memory
        }
    }
}

/// Runs the words of one run, the program's own name first, and answers the exit status. What a
/// subcommand prints goes to `out`; help, usage, `failed` and `no memory` go to `err`.
pub fn command<
    R: AllocGlobal + Files<File = File> + Net + Clock + RandomSource,
    O: Write,
    E: Write,
>(rt: &R, words: &[String], out: &mut O, err: &mut E) -> u8
    // No status is over 4.
    ensures most { result ≤ 4 }
    // What is wrong in the words is answered with 2, unless that can't be told ..
    ensures wrong { (wrong : Wrong) → IsWrong (map string_bytes words.now) wrong → IsAnswered wrong result }
    // .. and nothing else is, but for a script that can't be read, or a line of standard input that is no hex.
    ensures words { result ≡ 2 → ((wrong : Wrong) × IsWrong (map string_bytes words.now) wrong
        × (wrong ≢ wrongs.Memory)) ⊎ ((order : Order) × AsksFor (map string_bytes words.now) order × ReadsText order) }
    // An order is carried out only where the words ask for it, and to that end: what an answer, a pair, a server, a
    // request, its readings, an observation and pings print, and a discovery in words, is then on standard output,
    // behind what was there, and nothing else of them is.
    ensures done { result ≤ 1 → (order : Order) × AsksFor (map string_bytes words.now) order
        × IsCarriedTo (O.contents out.old) (O.contents out.new) order result }
{
    command_on(rt, words, NO_TERMINALS, out, err)
}

/// The same where standard output and standard error may be terminals, on which a person reads at once: there standard
/// error says, too, where nothing comes for long, and a chart may be in colours. Nothing else that is printed changes,
/// nor the exit status.
pub fn command_on<
    R: AllocGlobal + Files<File = File> + Net + Clock + RandomSource,
    O: Write,
    E: Write,
>(rt: &R, words: &[String], terminals: Terminals, out: &mut O, err: &mut E) -> u8
    // On terminals, too, no status is over 4.
    ensures most { result ≤ 4 }
    // On a terminal, too, wrong words are answered with 2, unless that can't be told ..
    ensures wrong { (wrong : Wrong) → IsWrong (map string_bytes words.now) wrong → IsAnswered wrong result }
    // .. and on one, too, only these are, and a script that can't be read, or a line of standard input that is no hex.
    ensures words { result ≡ 2 → ((wrong : Wrong) × IsWrong (map string_bytes words.now) wrong
        × (wrong ≢ wrongs.Memory)) ⊎ ((order : Order) × AsksFor (map string_bytes words.now) order × ReadsText order) }
    // Whether an output is a terminal counts for no order: one is carried out only where the words ask for it, and to
    // that end.
    ensures done { result ≤ 1 → (order : Order) × AsksFor (map string_bytes words.now) order
        × IsCarriedTo (O.contents out.old) (O.contents out.new) order result }
{
    let ended = run(rt, words, terminals, out, err);
    close(ended, err).number()
}

/// Says why the words of the command line can't be read, and answers the exit status.
pub fn without_words<E: Write>(error: &io::Error, err: &mut E) -> u8
    // Where the words themselves can't be had, the status is 2 or 4.
    ensures answered { (result ≡ 2) ⊎ (result ≡ 4) }
    // .. which is 4 exactly where memory was refused.
    ensures memory { (result ≡ 4) ↔ (error_kind error.now ≡ ErrorKind.OutOfMemory) }
{
    let status = if error.kind() == ErrorKind::OutOfMemory {
        let _ = writeln!(err, "no memory");
        Status::Memory
    } else {
        let _ = writeln!(err, "an argument is no UTF-8 text");
        Status::Words
    };
    status.number()
}
