//! What holds through the server's restarts.
ghost use Rattle.std.specs.Prelude.{◌≡◌, ◌<◌, ◌^◌, ◌++◌, ◌∷◌, length, List, [], true, false};
ghost use Rattle.coap_layer.specs.Trace.{Packet};
ghost use Rattle.coap_server.specs.Led.{State};
ghost use Rattle.coap_types.specs.Past.{Ever};
ghost use Rattle.coap_journaled.specs.Journal.{IsTaken, Journal};
ghost use Rattle.coap_journal.specs.Records.{Record, Woke};
ghost use Rattle.coap_journal.specs.declared.beginning.Life.{Life as Woken};
ghost use Rattle.coap_journaled.specs.Runs.{Act, Does};
ghost use Rattle.coap_replay.specs.Replaying.{Gives, Takes};
ghost use Rattle.coap_lives.specs.Life.{GoesFurther, GoesOn, IsLed, IsLivedTo, Life, StandsInFile, StandsThen};
ghost use Rattle.coap_lives.specs.Life.{WasMadeSynced};
ghost use Rattle.coap_lives.specs.Lives.{AnyLives, Deed, EachStands, IsPromisedOfAnyLives, IsPromisedOfLives};
ghost use Rattle.coap_lives.specs.Lives.{LegalLives};
ghost use Rattle.coap_lives.specs.Lives.{LivesOf, Stays, Stops, filled};
ghost use Rattle.coap_order.specs.Run.{made};
ghost use Rattle.coap_promise.specs.Clocks.{Clocks};
ghost use Rattle.coap_order.specs.Applied.{SuccessesApplied};
ghost use Rattle.coap_order.specs.Held.{BodiesHeld};
ghost use Rattle.coap_record.specs.Events.{Config};
ghost use Rattle.coap_record.specs.Record.{Given};

use coap_journaled::JournalFile;
use coap_order::{ever_law, order_law};
use coap_replay_laws::replay_law;

/// A run of lives: the server stops at any moment, its calls since the last sync of its journal are no more, and it
/// goes on from there.
pub fn lives_law()
    // Without the calls that were lost it is a legal run of a server that never stopped, by the same clocks; so what
    // `order_law` promises is promised of it.
    ensures promised { (c : Clocks) (config : Config) (deeds : List Deed) → LivesOf config deeds
        → LegalLives config c deeds
        → IsPromisedOfLives config c deeds }
    // At each moment the same is promised of the run in which the server stops then. So where a client was told of
    // success, a synced call applied its request, and the server that goes on holds what that left, or what later ones
    // did.
    ensures durable { (c : Clocks) (config : Config) (deeds : List Deed) → LivesOf config deeds
        → LegalLives config c deeds
        → c.server (length deeds) < 2 ^ 64 → IsPromisedOfLives config c (Stops ∷ deeds) }
    // However late datagrams are, and whatever a server counts for the time that it didn't run: what `ever_law`
    // promises is promised of the run.
    ensures ever { (c : Clocks) (config : Config) (deeds : List Deed) → LivesOf config deeds → AnyLives config c deeds
        → IsPromisedOfAnyLives config c deeds }
    // What `ever_law` promises is promised of the run in which the server stops now, too.
    ensures durable_ever { (c : Clocks) (config : Config) (deeds : List Deed) → LivesOf config deeds
        → AnyLives config c deeds → c.server (length deeds) < 2 ^ 64 → IsPromisedOfAnyLives config c (Stops ∷ deeds) }
    // In the run itself: where a client was told of success, a call that is synced applied its request.
    ensures told_is_kept { (c : Clocks) (config : Config) (deeds : List Deed) → LivesOf config deeds
        → LegalLives config c deeds → c.server (length deeds) < 2 ^ 64
        → SuccessesApplied config (filled config true (Stops ∷ deeds)) }
    // A body that is reported was held, in whatever life.
    ensures held { (c : Clocks) (config : Config) (deeds : List Deed) → LivesOf config deeds
        → LegalLives config c deeds → BodiesHeld config (filled config true deeds) }
    // The calls before the last sync stay, whatever comes, and however often the server stops.
    ensures stays { (config : Config) (later past : List Deed) → Stays config later past }
    // The datagrams that synced calls made stay made.
    ensures made_stays { (c : Clocks) (config : Config) (later past : List Deed) (g : Given)
        → Ever (λ h. h ≡ g) (made config c (filled config false past))
        → Ever (λ h. h ≡ g) (made config c (filled config true (later ++ past))) }
{
    order_law();
    ever_law();
}

/// A life of a server with a journal: from where it begins, or goes on, to any moment.
pub fn life_law<F: JournalFile>()
    // Where it began with a server that the calls led to which are synced, it runs as they lead on, and the frames that
    // are synced make a server to which the calls lead that are synced.
    ensures lived { (config : Config) (old deeds : List Deed) (start now : Journal State F) (t : List Act)
        → start.inputs ≡ [] → start.taken ≡ 0 → IsLed config old true start.end → IsLed config old false start.end
        → EachStands config old → Life F.appends F.syncs old start t deeds now
        → IsLivedTo config start.end start.place t deeds now.end }
    // It goes on from just that one: whatever a replay of these frames makes is led to by the calls that are synced, in
    // a run in which the server has stopped.
    ensures goes_on { (config : Config) (old deeds : List Deed) (start now : Journal State F) (t : List Act)
        → start.inputs ≡ [] → start.taken ≡ 0 → IsLed config old true start.end → IsLed config old false start.end
        → EachStands config old → Life F.appends F.syncs old start t deeds now
        → GoesOn config start.end start.place t deeds }
    // What goes out was made by a call that is synced. So no datagram comes of a call that is lost.
    ensures goes_out { (c : Clocks) (config : Config) (old deeds : List Deed) (start between new : Journal State F)
        (t : List Act) (p : Packet) → start.inputs ≡ [] → start.taken ≡ 0 → IsLed config old true start.end
        → IsLed config old false start.end → EachStands config old → Life F.appends F.syncs old start t deeds between
        → IsTaken between new → Gives between.end p new.end → WasMadeSynced config c deeds p }
    // Each call of a journaled server goes a life on, whatever its clients do between.
    ensures each { (old deeds : List Deed) (start between new : Journal State F) (t acts : List Act)
        → Life F.appends F.syncs old start t deeds between → Does Takes Gives F.appends F.syncs between new acts
        → GoesFurther F.appends F.syncs old start t deeds acts new }
    // One life behind the other, in one file: each goes on from what all of the file makes.
    ensures next { (config : Config) (begin : State) (records : List Record) (old deeds : List Deed)
        (start now : Journal State F) (t : List Act) → StandsInFile config begin records old start.end
        → start.inputs ≡ [] → start.taken ≡ 0 → Life F.appends F.syncs old start t deeds now
        → StandsThen config begin records start.place t deeds }
    // A record that a server woke changes nothing of what stands in its file.
    ensures woke { (config : Config) (begin s : State) (records : List Record) (deeds : List Deed) (life : Woken)
        → StandsInFile config begin records deeds s → StandsInFile config begin (records ++ Woke life ∷ []) deeds s }
{
    replay_law();
}
