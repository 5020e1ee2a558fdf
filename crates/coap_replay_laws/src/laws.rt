//! What replaying makes of a server.
ghost use Rattle.std.specs.Prelude.{◌≡◌, ◌≤◌, ◌+◌, ◌++◌, ◌∷◌, [], ℕ, List};
ghost use Rattle.coap_layer.specs.Rows.{LayerLaw};
ghost use Rattle.coap_layer.specs.Sends.{IsIn};
ghost use Rattle.coap_layer.specs.Trace.{Entry, Packet};
ghost use Rattle.coap_layer.specs.Words.{clock};
ghost use Rattle.coap_layer.specs.declared.setup.Setup.{Setup};
ghost use Rattle.coap_resource.specs.Limits.{Limits};
ghost use Rattle.coap_server.specs.Led.{Led, State};
ghost use Rattle.coap_server.specs.Trace.{Call};
ghost use Rattle.coap_journal.specs.Records.{Record};
ghost use Rattle.coap_replay.specs.Replaying.{Does, Replays};
ghost use Rattle.coap_replay_laws.specs.Leading.{LeadsOn, inputs_in};
ghost use Rattle.coap_replay_laws.specs.Silence.{GoesAnew};

use coap_journal::SILENCE_MS;
use coap_layer::sending_law;
use coap_server_laws::server_law;

/// What replaying makes of a server.
pub fn replay_law()
    // A history that led to a server leads on to what replaying makes of it, by calls with the inputs of the records
    // that give out the same datagrams.
    ensures leads { (limits : Limits) (szx : ℕ) (setup : Setup) (t : List Call) (old new : State)
        (records : List Record) (out : List Packet) → Led limits szx setup t old → Replays old records out new
        → LeadsOn limits szx setup t (inputs_in records) out new }
    // A server that has done these records and does a further one has done these and that one.
    ensures more { (old between new : State) (records : List Record) (last : Record) (out outs : List Packet)
        → Replays old records out between → Does between last outs new
        → Replays old (records ++ last ∷ []) (out ++ outs) new }
    // The same records make one server: the one that ran, and the one that is replayed.
    ensures one { (limits : Limits) (szx : ℕ) (setup : Setup) (t : List Call) (old new other : State)
        (records : List Record) (out outs : List Packet) → Led limits szx setup t old → Replays old records out new
        → Replays old records outs other → new ≡ other }
    // The same records give out the same datagrams, byte for byte.
    ensures same_out { (limits : Limits) (szx : ℕ) (setup : Setup) (t : List Call) (old new other : State)
        (records : List Record) (out outs : List Packet) → Led limits szx setup t old → Replays old records out new
        → Replays old records outs other → out ≡ outs }
{
    server_law();
}

/// What goes out of a server that was silent for `SILENCE_MS` of its own clock.
pub fn silence_law()
    // Nothing that goes out then is a copy of a message that was begun before the silence: it is made anew, or is a
    // copy of what was, or is the reply to what arrives again (RFC 7252, sections 4.2 and 4.5).
    ensures { (setup : Setup) (past later : List Entry) (e : Entry) → LayerLaw setup (e ∷ later ++ past)
        → clock past + SILENCE_MS ≤ e.at → (p : Packet) → IsIn p e.out → GoesAnew past later e p }
{
    sending_law();
}
