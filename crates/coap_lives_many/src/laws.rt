//! What holds of many clients through the server's restarts.
ghost use Rattle.std.specs.Prelude.{◌<◌, ◌^◌, ◌∷◌, length, List};
ghost use Rattle.coap_lives_many.specs.Lives.{Deed, IsPromisedOfLives, LegalLives, LivesOf, Stops};
ghost use Rattle.coap_many.specs.Clients.{Config};
ghost use Rattle.coap_many.specs.Clocks.{Clocks};

use coap_order_many::order_of_many_law;

/// A run of lives with any number of clients: the server stops at any moment, its calls since the last sync of its
/// journal are no more, and it goes on from there.
pub fn lives_of_many_law()
    // Without the calls that were lost it is a legal run of many of a server that never stopped, by the same clocks; so
    // all that `order_of_many_law` promises is promised of it.
    ensures promised { (c : Clocks) (config : Config) (deeds : List Deed) → LivesOf config deeds
        → LegalLives config c deeds
        → IsPromisedOfLives config c deeds }
    // What is promised holds of the run of many in which the server stops now, too: where any client was told of
    // success, a synced call applied its request.
    ensures durable { (c : Clocks) (config : Config) (deeds : List Deed) → LivesOf config deeds
        → LegalLives config c deeds
        → c.server (length deeds) < 2 ^ 64 → IsPromisedOfLives config c (Stops ∷ deeds) }
{
    order_of_many_law();
}
