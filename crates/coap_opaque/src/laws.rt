//! An endpoint is opaque to an end.
ghost use Rattle.std.specs.Prelude.{◌≡◌, ℕ, List};
ghost use Rattle.coap_types.specs.declared.endpoint.Endpoint.{Endpoint};
ghost use Rattle.coap_layer.specs.declared.setup.Setup.{Setup};
ghost use Rattle.coap_block.specs.Sizes.{Sizes};
ghost use Rattle.coap_resource.specs.Limits.{Limits};
ghost use Rattle.coap_client.specs.Law.{ClientLaw};
ghost use Rattle.coap_client.specs.Led as C;
ghost use Rattle.coap_client.specs.Trace as client;
ghost use Rattle.coap_server.specs.Law.{ServerLaw};
ghost use Rattle.coap_server.specs.Led as S;
ghost use Rattle.coap_server.specs.Peers.{knows as server_knows};
ghost use Rattle.coap_server.specs.Trace as server;
ghost use Rattle.coap_opaque.specs.Opaque.{AskersAreOpaque, ClientIsOpaque, ExchangesAreOpaque, LayerIsOpaque};
ghost use Rattle.coap_opaque.specs.Opaque.{ServerIsOpaque};
ghost use Rattle.coap_opaque.specs.Renaming.Endpoints.{Exchanges, TellsApart, swapped};
ghost use Rattle.coap_opaque.specs.Renaming.OfClient as of_client;
ghost use Rattle.coap_opaque.specs.Renaming.OfServer as of_server;
ghost use Rattle.coap_opaque.specs.Runs.OfClient as client_runs;
ghost use Rattle.coap_opaque.specs.Runs.OfServer as server_runs;
ghost use Rattle.coap_opaque.specs.Silent.{ClientGivesToHeard, ForgetsTheSilent, ServerGivesToHeard, StaysSilent};
ghost use Rattle.coap_opaque.specs.Silent.{knows};

use coap_client_laws::{client_law, client_rests_law};
use coap_layer::layer_law;
use coap_server_laws::{server_law, silence_law};

/// What an end takes of an endpoint: whether it is another one.
pub fn opaque_law()
    // A message layer does the same with others in the place of the endpoints that it meets (RFC 7252, section 4) ..
    ensures layer { (rename : Endpoint → Endpoint) → TellsApart rename → LayerIsOpaque rename }
    // .. and so do a server's exchanges (RFC 7252, section 5.2) ..
    ensures exchanges { (rename : Endpoint → Endpoint) → TellsApart rename → ExchangesAreOpaque rename }
    // .. and a client's, to which another stands for the server (RFC 7252, section 5.3) ..
    ensures askers { (rename : Endpoint → Endpoint) → TellsApart rename → AskersAreOpaque rename }
    // .. and a server, which is left the same then, with others in their place (RFC 7252, section 5) ..
    ensures server { (rename : Endpoint → Endpoint) → TellsApart rename → (limits : Limits) (szx : ℕ) (setup : Setup)
        (t : List server.Call) → ServerLaw limits szx setup t → ServerIsOpaque rename limits szx setup t }
    // .. and a client, which is left the same then, with another for its server (RFC 7252, section 5).
    ensures client { (rename : Endpoint → Endpoint) → TellsApart rename → (server : Endpoint) (sizes : Sizes)
        (setup : Setup) (t : List client.Call) → ClientLaw server sizes setup t
        → ClientIsOpaque rename server sizes setup t }
{
    layer_law();
}

/// What a call makes of an end with others in the place of the endpoints that it has.
pub fn opaque_step_law()
    // What a call of a server makes of it, that call with others in their place makes of a server that has others in
    // their place (RFC 7252, section 5).
    ensures server { (rename : Endpoint → Endpoint) → TellsApart rename → (old new : S.State) (c : server.Call)
        → S.Step old c new
        → S.Step (of_server.state rename old) (of_server.call rename c) (of_server.state rename new) }
    // What a call of a client makes of it, that call with others in their place makes of a client that has others in
    // their place, with another for its server (RFC 7252, section 5).
    ensures client { (rename : Endpoint → Endpoint) → TellsApart rename → (old new : C.State) (c : client.Call)
        → C.Step old c new
        → C.Step (of_client.state rename old) (of_client.call rename c) (of_client.state rename new) }
{}

/// Of whom an end has something, with others in the place of the endpoints that it has.
pub fn opaque_knows_law()
    // A server knows what stands for a peer exactly where it knew that peer (RFC 7252, section 5).
    ensures server { (rename : Endpoint → Endpoint) → TellsApart rename → (s : S.State) (now : ℕ) (peer : Endpoint)
        → server_knows (of_server.state rename s) now (rename peer) ≡ server_knows s now peer }
    // A client knows what stands for a peer exactly where it knew that peer (RFC 7252, section 5).
    ensures client { (rename : Endpoint → Endpoint) → TellsApart rename → (s : C.State) (peer : Endpoint)
        → knows (of_client.state rename s) (rename peer) ≡ knows s peer }
{}

/// What an end does that is handed the same, with others in the place of its endpoints: the same, with these in their
/// place.
pub fn opaque_runs_law()
    // Two servers that begin alike are handed the same, the second with other endpoints in the place of those of the
    // first: it answers the same, and is left the same, with these in their place (RFC 7252, section 5).
    ensures server { (rename : Endpoint → Endpoint) → TellsApart rename → (limits : Limits) (szx : ℕ) (setup : Setup)
        → server_runs.RunsTheSame rename limits szx setup }
    // So do two clients, the second with another endpoint for its server (RFC 7252, section 5).
    ensures client { (rename : Endpoint → Endpoint) → TellsApart rename → (server : Endpoint) (sizes : Sizes)
        (setup : Setup) → client_runs.RunsTheSame rename server sizes setup }
{
    server_law();
    client_law();
    client_rests_law();
}

/// An end that has two endpoints exchanged everywhere does the same with them exchanged.
pub fn swap_law()
    // Of two endpoints that are exchanged each stands for the other, and each other endpoint for itself.
    ensures exchanges { (e f : Endpoint) → Exchanges e f (swapped e f) }
    // With two exchanged, endpoints are told apart as before (RFC 7252, section 1.2).
    ensures apart { (e f : Endpoint) → TellsApart (swapped e f) }
    // So a history of a server stands in its law with them exchanged, and leaves the same then ..
    ensures server { (e f : Endpoint) (limits : Limits) (szx : ℕ) (setup : Setup) (t : List server.Call)
        → ServerLaw limits szx setup t → ServerIsOpaque (swapped e f) limits szx setup t }
    // .. and so does one of a client, whose server may be one of them.
    ensures client { (e f server : Endpoint) (sizes : Sizes) (setup : Setup) (t : List client.Call)
        → ClientLaw server sizes setup t → ClientIsOpaque (swapped e f) server sizes setup t }
    // A server that is handed the same with the two exchanged answers the same, and is left the same, with them
    // exchanged (RFC 7252, section 5) ..
    ensures server_runs { (e f : Endpoint) (limits : Limits) (szx : ℕ) (setup : Setup)
        → server_runs.RunsTheSame (swapped e f) limits szx setup }
    // .. and so does a client.
    ensures client_runs { (e f server : Endpoint) (sizes : Sizes) (setup : Setup)
        → client_runs.RunsTheSame (swapped e f) server sizes setup }
{
    opaque_law();
    opaque_runs_law();
}

/// What a client doesn't do of itself.
pub fn client_silence_law()
    // A client that knows nothing of a peer gives out no datagram to it, until one arrives from there (RFC 7252,
    // section 5).
    ensures silent { (server : Endpoint) (sizes : Sizes) (setup : Setup) (t : List client.Call)
        → StaysSilent server sizes setup t }
    // A client remembers no datagram of a peer from which none has come for EXCHANGE_LIFETIME (RFC 7252, section 4.5).
    ensures forgotten { (server : Endpoint) (sizes : Sizes) (setup : Setup) (t : List client.Call)
        → ForgetsTheSilent server sizes setup t }
{}

/// To whom an end sends.
pub fn heard_law()
    // A datagram that a client gives out goes to its server, or to a peer from which one arrived before (RFC 7252,
    // section 5).
    ensures client { (server : Endpoint) (sizes : Sizes) (setup : Setup) (t : List client.Call)
        → ClientLaw server sizes setup t → ClientGivesToHeard server t }
    // A datagram that a server gives out goes to a peer from which one arrived before (RFC 7252, section 5).
    ensures server { (limits : Limits) (szx : ℕ) (setup : Setup) (t : List server.Call) → ServerLaw limits szx setup t
        → ServerGivesToHeard t }
{
    client_silence_law();
    silence_law();
}
