//! What the calls of each of many clients come to, where its loss is fair.
ghost use Rattle.std.specs.Prelude.{List, ℕ};
ghost use Rattle.coap_fair_many.specs.EachIsAnswered.{EachIsAnswered, HaveOneClock};
ghost use Rattle.coap_many.specs.Clients.{Config};
ghost use Rattle.coap_many.specs.Clocks.{Clocks};
ghost use Rattle.coap_many.specs.Entries.{Turn};
ghost use Rattle.coap_many.specs.Events.{Event};
ghost use Rattle.coap_many.specs.Legal.{Legal};
ghost use Rattle.coap_many.specs.Record.{RecordOf};

use coap_fair::fair_law;
use coap_many::view_law;

/// Runs of many clients, whose clocks and the server's show the same.
pub fn fair_many_law()
    // What is promised of a run with fair loss, each client has that in whose view of the run the loss is fair: the
    // messages of all clients that come to the server are counted together (RFC 7252, sections 4.2, 4.8 and 5.2).
    ensures { (c : Clocks) (config : Config) (events : List Event) (turns : List Turn)
        → RecordOf config events turns → Legal c config turns → HaveOneClock config c → (ms : ℕ)
        → EachIsAnswered ms config turns }
{
    view_law();
    fair_law();
}
