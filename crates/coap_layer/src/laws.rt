//! The laws of one message layer, and of two with a network between them.
ghost use Rattle.std.specs.Prelude.{ℕ, List, [], ◌∷◌, ◌++◌};
ghost use Rattle.coap_layer.specs.Trace.{Setup, Call, Answer, Entry};
ghost use Rattle.coap_layer.specs.Rows.{LayerLaw};
ghost use Rattle.coap_layer.specs.Sendable.{IsSendableWhenShort};
ghost use Rattle.coap_layer.specs.Machine.State.{State, Step, made, start};
ghost use Rattle.coap_layer.specs.Machine.LayerLed.{LayerLed};
ghost use Rattle.coap_layer.specs.Rested.{RestedSince};
ghost use Rattle.coap_layer.specs.Follows.{HandedUpOnce, CopiesInTime, IdsApart, OneOutstanding, EndsOutstanding};
ghost use Rattle.coap_layer.specs.Follows.{IsExact, RemembersFew, IdsSmall, ResponsesSpelled};
ghost use Rattle.coap_types.specs.declared.endpoint.Endpoint.{Endpoint};
ghost use Rattle.coap_layer.specs.Channel.{Hop, HandedAsSpelled, AcksHeard, ArrivesAsSent, ConsBegun};
ghost use Rattle.coap_layer.specs.Channel.{NonsSent, AcksReplied};
ghost use Rattle.coap_layer.specs.OneClock.{ChannelLaw};
ghost use Rattle.coap_layer.specs.Words.{numbers};
ghost use Rattle.coap_layer.specs.Taking.{AllTakeAcks, AreOver, ConsTaken, ConsTakenWithin, HeldIsMany, IdsAreFree};
ghost use Rattle.coap_layer.specs.Taking.{NonsTaken, NonsTakenWithin, OverWithin, RepliedOnce, ResetsMeant};
ghost use Rattle.coap_layer.specs.Sends.{FiveAtMost, AllAlike, ConsSpelled, OneOpen, LastBegun, EachGoesOut, InOrder};
ghost use Rattle.coap_layer.specs.Sends.{TakenSent, TakenSince};
ghost use Rattle.coap_layer.specs.Machine.Steps.{Asked, Steps, entries};
ghost use Rattle.coap_layer.specs.Clocks.{Clocks};
ghost use Rattle.coap_layer.specs.Paced as paced;
ghost use Rattle.coap_layer.specs.AtAnyTime as any_time;
ghost use Rattle.coap_layer.specs.Examples.{FiveTimes, IsAcknowledged};

/// What leads to a layer's state stands in the law, and what follows from that.
pub fn layer_law()
    // No call at all leads to the first state of a layer.
    ensures start { (setup : Setup) → LayerLed setup [] (start setup) }
    // A step of a layer lengthens the calls that led to the state before it.
    ensures step { (setup : Setup) (t : List Entry) (old new : State) (now : ℕ) (call : Call) (answer : Answer)
        → LayerLed setup t old → Step old now call answer new → LayerLed setup (made old now call ∷ t) new }
    // What several steps lengthen leads on as what one does.
    ensures steps { (setup : Setup) (t : List Entry) (old new : State) (calls : List Asked) → LayerLed setup t old
        → Steps old calls new → LayerLed setup (entries old calls ++ t) new }
    // A history that leads to a layer stands in the law: each call is a row of the standard's tables.
    ensures law { (setup : Setup) (t : List Entry) (s : State) → LayerLed setup t s → LayerLaw setup t }
    // The law of a layer leaves each call one answer.
    ensures exact { IsExact }
    // A message is handed up once in EXCHANGE_LIFETIME (RFC 7252, section 4.5).
    ensures once { (setup : Setup) (t : List Entry) → LayerLaw setup t → HandedUpOnce t }
    // A retransmission is in time, and equal to the first sending (section 4.2).
    ensures copies { (setup : Setup) (t : List Entry) → LayerLaw setup t → CopiesInTime t }
    // What is outstanding behind a tick at which nothing was due, began less than MAX_TRANSMIT_WAIT before that, or
    // behind it (sections 4.2 and 4.8.2).
    ensures rested { (setup : Setup) (t : List Entry) → LayerLaw setup t → RestedSince t }
    // No Message ID is used again too early (section 4.4).
    ensures ids { (setup : Setup) (t : List Entry) → LayerLaw setup t → IdsApart t }
    // At most one Confirmable message to an endpoint is outstanding (section 4.7).
    ensures one { (setup : Setup) (t : List Entry) → LayerLaw setup t → OneOutstanding t }
    // An acknowledgement or a Reset is taken only for what is outstanding (sections 4.2 and 5.3.2).
    ensures ends { (setup : Setup) (t : List Entry) → LayerLaw setup t → EndsOutstanding t }
    // No more messages are remembered than there is a place for (profile).
    ensures few { (setup : Setup) (t : List Entry) → LayerLaw setup t → RemembersFew setup.remembered t }
    // Each Message ID that is given has 16 bits (section 3).
    ensures small { (setup : Setup) (t : List Entry) → LayerLaw setup t → IdsSmall t }
    // A response is what its datagram spells, in an acknowledgement too (section 5.2.1).
    ensures responses { (setup : Setup) (t : List Entry) → LayerLaw setup t → ResponsesSpelled t }
    // Where no Message ID may be given, all but those of one group were given in the last ID_REUSE_AFTER_MS (profile).
    ensures held { (setup : Setup) (t : List Entry) → LayerLaw setup t → HeldIsMany setup.word (numbers t) }
    // A Confirmable message whose copying was ended is not outstanding again (section 4.2).
    ensures over { (setup : Setup) (t : List Entry) → LayerLaw setup t → AreOver t }
    // An acknowledgement that arrives while its Confirmable message is outstanding is taken (sections 4.2 and 5.2.1).
    ensures acks { (setup : Setup) (t : List Entry) → LayerLaw setup t → AllTakeAcks t }
{}

/// What a layer sends: how often, what, and in which order.
pub fn sending_law()
    // A Confirmable message goes out at most five times (RFC 7252, section 4.2).
    ensures five { (setup : Setup) (t : List Entry) → LayerLaw setup t → FiveAtMost t }
    // Each time it goes out within LAST_RETRANSMISSION_MS of the first, with equal bytes, under one Message ID.
    ensures alike { (setup : Setup) (t : List Entry) → LayerLaw setup t → AllAlike t }
    // The bytes of a Confirmable message spell it, under the Message ID that its row gives.
    ensures spelled { (setup : Setup) (t : List Entry) → LayerLaw setup t → ConsSpelled t }
    // What is outstanding to an endpoint is one Confirmable message (section 4.7).
    ensures alone { (setup : Setup) (t : List Entry) → LayerLaw setup t → OneOpen t }
    // What is outstanding to an endpoint is the Confirmable message that was begun last to it.
    ensures last { (setup : Setup) (t : List Entry) → LayerLaw setup t → LastBegun t }
    // Each datagram that goes out is one of six kinds.
    ensures kinds { (setup : Setup) (t : List Entry) → LayerLaw setup t → EachGoesOut t }
    // What is taken was sent, in the order of sending, each datagram once.
    ensures order { (setup : Setup) (t : List Entry) → LayerLaw setup t → InOrder t }
    // A datagram that is taken was sent before.
    ensures before { (setup : Setup) (t : List Entry) → LayerLaw setup t → TakenSent t }
    // .. and since nothing waited.
    ensures since { TakenSince }
{}

/// What two layers do together, where no datagram arrives later than MAX_LATENCY after it was sent, and
/// each reply is given at once, with the Message ID of what it replies to. Each clause is of what the
/// near layer sends and the far one takes.
pub fn channel_law()
    // What one layer hands up arrived as a datagram that spells it.
    ensures spelled { (setup : Setup) (t : List Entry) → LayerLaw setup t → HandedAsSpelled t }
    // An acknowledgement is taken of a message that is outstanding to its source.
    ensures heard { (setup : Setup) (t : List Entry) → LayerLaw setup t → AcksHeard t }
    // What arrives was sent by one of the rows.
    ensures sent { (one other : Setup) (near far : Endpoint) (all : List Hop) → ChannelLaw one other near far all
        → ArrivesAsSent near far all }
    // A Confirmable message that arrives was begun at most LAST_ARRIVAL_MS before (RFC 7252, section 4.8.2).
    ensures begun { (one other : Setup) (near far : Endpoint) (all : List Hop) → ChannelLaw one other near far all
        → ConsBegun near far all }
    // A Non-confirmable message that arrives was sent at most MAX_LATENCY before (section 4.3).
    ensures plain { (one other : Setup) (near far : Endpoint) (all : List Hop) → ChannelLaw one other near far all
        → NonsSent near far all }
    // A Confirmable message that arrives where another can be remembered is taken, or was before (sections 4.2 and
    // 4.5).
    ensures taking { (one other : Setup) (near far : Endpoint) (all : List Hop) → ChannelLaw one other near far all
        → ConsTaken other.remembered near all }
    // Where no datagram is late and few messages come, each Confirmable message is taken in time.
    ensures within { (one other : Setup) (near far : Endpoint) (all : List Hop) → ChannelLaw one other near far all
        → ConsTakenWithin other.remembered near far all }
    // The same of a Non-confirmable message, which is handed up then, or was before (sections 4.3 and 4.5).
    ensures taking_nons { (one other : Setup) (near far : Endpoint) (all : List Hop)
        → ChannelLaw one other near far all → NonsTaken other.remembered near all }
    // Where no datagram is late and few messages come, each Non-confirmable message is handed up in time.
    ensures within_nons { (one other : Setup) (near far : Endpoint) (all : List Hop)
        → ChannelLaw one other near far all → NonsTakenWithin other.remembered near far all }
    // Where it is replied to at once, and the reply comes, it is not outstanding after both (section 4.2).
    ensures ended { (one other : Setup) (near far : Endpoint) (all : List Hop) → ChannelLaw one other near far all
        → OverWithin near far all }
    // Where each Confirmable message that is over was taken, and fewer come in EXCHANGE_LIFETIME than a group has
    // Message IDs, one is free, whatever the number that can be remembered.
    ensures free { (one other : Setup) (near far : Endpoint) (all : List Hop) → ChannelLaw one other near far all
        → IdsAreFree one.word near far all }
    // By one clock, too, a Confirmable message is replied to once at most (section 4.2).
    ensures replied_once { (one other : Setup) (near far : Endpoint) (all : List Hop)
        → ChannelLaw one other near far all
        → RepliedOnce near all }
    // By one clock, too, an acknowledgement that is taken is the reply that was given to that very message (section
    // 4.2).
    ensures replied { (one other : Setup) (near far : Endpoint) (all : List Hop) → ChannelLaw one other near far all
        → AcksReplied near far all }
    // By one clock, too, a Reset that is taken for a request or a response is the reply that was given to that very
    // message (section 4.2).
    ensures resets { (one other : Setup) (near far : Endpoint) (all : List Hop) → ChannelLaw one other near far all
        → ResetsMeant near far all }
{}

/// What two layers do together, each with a clock of its own: where no datagram arrives later than MAX_LATENCY after it
/// was sent by the clock of the layer that sent it, neither clock gains more than 5 s on the other in
/// EXCHANGE_LIFETIME, and each reply is given at once, with the Message ID of what it replies to.
pub fn paced_channel_law()
    // What arrives was sent by one of the rows, at most MAX_LATENCY before by its own clock.
    ensures sent { (c : Clocks) (one other : Setup) (near far : Endpoint) (all : List Hop)
        → paced.ChannelLaw c one other near far all → paced.ArrivesAsSent c near far all }
    // A Confirmable message that arrives was begun at most LAST_ARRIVAL_MS before, by its own clock (RFC 7252, section
    // 4.8.2).
    ensures begun { (c : Clocks) (one other : Setup) (near far : Endpoint) (all : List Hop)
        → paced.ChannelLaw c one other near far all → paced.ConsBegun c near far all }
    // A Non-confirmable message that arrives was sent at most MAX_LATENCY before, by its own clock (section 4.3).
    ensures plain { (c : Clocks) (one other : Setup) (near far : Endpoint) (all : List Hop)
        → paced.ChannelLaw c one other near far all → paced.NonsSent c near far all }
    // What arrives under a Confirmable message's Message ID meanwhile is that very message (section 4.4).
    ensures only { (c : Clocks) (one other : Setup) (near far : Endpoint) (all : List Hop)
        → paced.ChannelLaw c one other near far all → paced.OnlyThatCon c near far all }
    // A Confirmable message that was taken is not handed up again (sections 4.5 and 4.8.2).
    ensures once { (c : Clocks) (one other : Setup) (near far : Endpoint) (all : List Hop)
        → paced.ChannelLaw c one other near far all → paced.TakenOnce c near all }
    // It is handed up at most once.
    ensures handed { (c : Clocks) (one other : Setup) (near far : Endpoint) (all : List Hop)
        → paced.ChannelLaw c one other near far all → paced.HandedOnce c near all }
    // A Confirmable message is replied to once at most (section 4.2).
    ensures replied_once { (c : Clocks) (one other : Setup) (near far : Endpoint) (all : List Hop)
        → paced.ChannelLaw c one other near far all → paced.RepliedOnce c near all }
    // One that is taken, or too old to arrive, where a newer one begins isn't handed up behind that one (section 4.7).
    ensures apart { (c : Clocks) (one other : Setup) (near far : Endpoint) (all : List Hop)
        → paced.ChannelLaw c one other near far all → paced.ConsApart c near all }
    // An acknowledgement that is taken is the reply that was given to that very message, which was taken (section 4.2).
    ensures replied { (c : Clocks) (one other : Setup) (near far : Endpoint) (all : List Hop)
        → paced.ChannelLaw c one other near far all → paced.AcksReplied c near far all }
    // It is taken lately: at most MAX_LATENCY, by the far clock, after a copy of that message came, which is at most
    // LAST_ARRIVAL_MS after that was begun, by the near clock (section 4.8.2).
    ensures lately { (c : Clocks) (one other : Setup) (near far : Endpoint) (all : List Hop)
        → paced.ChannelLaw c one other near far all → paced.AcksLately c near far all }
    // .. and was given as the reply behind the beginning of that message.
    ensures behind { (c : Clocks) (one other : Setup) (near far : Endpoint) (all : List Hop)
        → paced.ChannelLaw c one other near far all → paced.AcksBehind c near far all }
    // An acknowledgement is taken only of a Confirmable message that the other layer has taken.
    ensures taken { (c : Clocks) (one other : Setup) (near far : Endpoint) (all : List Hop)
        → paced.ChannelLaw c one other near far all → paced.AcksTaken c near far all }
    // A Reset that is taken for a request or a response is the reply that was given to that very message (section 4.2).
    ensures resets { (c : Clocks) (one other : Setup) (near far : Endpoint) (all : List Hop)
        → paced.ChannelLaw c one other near far all → paced.ResetsMeant c near far all }
{}

/// What two layers do together where datagrams come at any time, or never.
pub fn any_time_law()
    // What comes in time, by two clocks, comes.
    ensures paced { (c : Clocks) (one other : Setup) (near far : Endpoint) (all : List Hop)
        → paced.ChannelLaw c one other near far all → any_time.FairLaw one other near far all }
    // A Confirmable message that arrives was begun before (RFC 7252, section 4.2).
    ensures begun { (one other : Setup) (near far : Endpoint) (all : List Hop)
        → any_time.FairLaw one other near far all → any_time.ConsBegun near far all }
    // A Non-confirmable message that arrives was sent before (section 4.3).
    ensures plain { (one other : Setup) (near far : Endpoint) (all : List Hop)
        → any_time.FairLaw one other near far all → any_time.NonsSent near far all }
{}

/// What isn't Empty, and has options that ascend and are short, may be sent where its header, its
/// token, 5 bytes and the value for each option, one byte and its payload are at most `MAX_MESSAGE_LEN`.
pub fn sendable_law()
    // A message whose bytes are counted to be few enough may be sent.
    ensures { IsSendableWhenShort }
{}

/// Histories of which the laws speak.
pub fn witness_law()
    // A Confirmable message goes out five times and fails, after 31 initial timeouts (RFC 7252, section 4.2).
    ensures five { FiveTimes }
    // One is taken by another layer, and its acknowledgement is heard.
    ensures acknowledged { IsAcknowledged }
{}
