//! Of many clients, each by its own clock.
ghost use Rattle.std.specs.Prelude.{List, ℕ};
ghost use Rattle.coap_given_back.specs.EachGivesBack.{EachGivesBack};
ghost use Rattle.coap_many.specs.Clients.{Config};
ghost use Rattle.coap_many.specs.Clocks.{Clocks};
ghost use Rattle.coap_many.specs.Entries.{Turn};
ghost use Rattle.coap_many.specs.Events.{Event};
ghost use Rattle.coap_many.specs.Legal.{Legal};
ghost use Rattle.coap_many.specs.Record.{RecordOf};

use coap_client_laws::client_law;
use coap_many::view_law;

/// What each client that keeps up comes to, whatever the others do, and the server.
pub fn many_law()
    // Each call of a client that keeps up by its own clock since it was taken is reported in time, by that clock.
    ensures { (c : Clocks) (config : Config) (events : List Event) (turns : List Turn)
        → RecordOf config events turns → Legal c config turns → (late : ℕ) → EachGivesBack c config late turns }
{
    client_law();
    view_law();
}
