//! What becomes of a Confirmable message of which one copy comes at least.
ghost use Rattle.std.specs.Prelude.{List};
ghost use Rattle.coap_fair.specs.FiveCopies.{GoOutFiveTimes};
ghost use Rattle.coap_fair.specs.LaterCopies.{AreOverByThem, AreReplayed, ConsTakenSoon};
ghost use Rattle.coap_layer.specs.Channel.{Hop};
ghost use Rattle.coap_layer.specs.OneClock.{ChannelLaw};
ghost use Rattle.coap_layer.specs.Rows.{LayerLaw};
ghost use Rattle.coap_layer.specs.Trace.{Entry};
ghost use Rattle.coap_layer.specs.declared.setup.Setup.{Setup};
ghost use Rattle.coap_types.specs.declared.endpoint.Endpoint.{Endpoint};

use coap_layer::channel_law;

/// What a layer sends of a Confirmable message, what the other one takes of it, and when it is over.
pub fn copies_law()
    // Where no copy is overdue by more than 1,000 ms, one that is outstanding 46,000 ms behind its first sending went
    // out five times (RFC 7252, sections 4.2 and 4.8).
    ensures five { (setup : Setup) (t : List Entry) → LayerLaw setup t → GoOutFiveTimes t }
    // One of which a copy comes soon, and where few messages come, is taken soon, by that copy or by one before it
    // (sections 4.2 and 4.5).
    ensures taken { (one other : Setup) (near far : Endpoint) (all : List Hop) → ChannelLaw one other near far all
        → ConsTakenSoon other.remembered near all }
    // To a copy that comes behind the reply, in EXCHANGE_LIFETIME, that very reply goes out again (section 4.5).
    ensures replayed { (setup : Setup) (t : List Entry) → LayerLaw setup t → AreReplayed t }
    // One is over where any Empty acknowledgement or Reset of it comes (section 4.2).
    ensures over { (setup : Setup) (t : List Entry) → LayerLaw setup t → AreOverByThem t }
{
    channel_law();
}
