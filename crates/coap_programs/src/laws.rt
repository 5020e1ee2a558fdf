//! A turn of a loop over a link, and what two programs did.
ghost use Rattle.std.specs.Prelude.{ℕ, List, Option};
ghost use Rattle.coap_links.specs.Turning.{Turns};
ghost use Rattle.coap_links.specs.declared.tally.Tally.{Tally};
ghost use Rattle.coap_client.specs.Trace.{Request};
ghost use Rattle.coap_server.specs.Led.{State};
ghost use Rattle.coap_promise.specs.Clocks.{Clocks};
ghost use Rattle.coap_order.specs.Run.{LegalRun, RunOf};
ghost use Rattle.coap_programs.specs.Loop.{TurnCalls, feeds, gives, quiet_feed, quiet_tick, ticks, waiting};
ghost use Rattle.coap_programs.specs.Programs.{Got, Served, WasHeldAt};
ghost use Rattle.coap_record.specs.Events.{Config};
ghost use Rattle.coap_record.specs.Record.{Entry, client_of, server_of};

use coap_links::Link;
use coap_order::order_law;

/// What `get` prints, where the server is a `serve`: two programs, each with a loop of its own.
pub fn programs_law()
    // What both did is a run, in whatever order it was done.
    ensures run_of { (config : Config) (run : List Entry) (number : ℕ) (request : Request) (tag : Option (List ℕ))
        (format : Option ℕ) (body : List ℕ) → Served config (server_of run)
        → Got config number request tag format body (client_of run) → RunOf config run }
    // The body that a `get` was told was held by the server at the path that it asks, between the call and the report.
    ensures got { (c : Clocks) (config : Config) (run : List Entry) (number : ℕ) (request : Request)
        (tag : Option (List ℕ)) (format : Option ℕ) (body : List ℕ) → Served config (server_of run)
        → Got config number request tag format body (client_of run) → LegalRun config c run
        → WasHeldAt config number request tag format body run }
{
    order_law();
}

/// A turn of a server's loop over a link.
pub fn loop_law<L: Link>()
    // What a turn does is calls of the server that lead from one state to the other, each at its moment: what is taken
    // waited before, what is fed came of the link, and all else are ticks.
    ensures turn { (e : State) (l : L) (now : ℕ) (t : Tally) (f : State) (m : L) (u : Tally)
        → Turns waiting gives L.sends L.receives L.fault_count quiet_feed feeds quiet_tick ticks e l now t f m u
        → TurnCalls L.receives e now f m }
{}
