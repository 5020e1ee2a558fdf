//! What the order of calls changes, and what it doesn't.
ghost use Rattle.std.specs.Prelude.{◌++◌, List};
ghost use Rattle.coap_layer.specs.Machine.State as layer;
ghost use Rattle.coap_layer.specs.Machine.Steps.{Asked, Steps};
ghost use Rattle.coap_layer.specs.Trace as layers;
ghost use Rattle.coap_promise.specs.Clocks.{Clocks};
ghost use Rattle.coap_resource.specs.Content.{Content};
ghost use Rattle.coap_promise.specs.LegalRuns.{config};
ghost use Rattle.coap_order.specs.Agrees.{IsPromised, IsPromisedEver};
ghost use Rattle.coap_order.specs.Applied.{SuccessesApplied};
ghost use Rattle.coap_order.specs.Example.{counting, loops};
ghost use Rattle.coap_order.specs.Held.{BodiesHeld};
ghost use Rattle.coap_order.specs.OfRecords.{RecordsAreRuns};
ghost use Rattle.coap_order.specs.Queue.{NoneTakes, outs, with_queue};
ghost use Rattle.coap_order.specs.Reads.{HasRecord};
ghost use Rattle.coap_order.specs.Run.{AnyRun, LegalRun, RunOf};
ghost use Rattle.coap_record.specs.Events.{Config};
ghost use Rattle.coap_record.specs.Record.{Entry};

/// What a message layer does depends on no datagram that waits to be taken.
pub fn layer_law()
    // Calls none of which takes a datagram are answered alike, whatever waits, and put theirs behind it.
    ensures any { (q : List layers.Packet) (old new : layer.State) (asks : List Asked) → NoneTakes asks
        → Steps old asks new
        → Steps (with_queue q old) asks (with_queue (q ++ outs old asks) new) }
{}

/// What is promised of a client and a server whatever the order in which their programs call them: when datagrams and
/// reports are taken, how many inputs come one behind the other, and when the ends are looked at.
pub fn order_law()
    // What `agrees`, `fresh` and `bounded` of `agreement` promise of a record is promised of each legal run, but that
    // reports may wait to be taken; what is reported was held at most 252,000 ms before (RFC 7252, section 4.8.2).
    ensures promised { (c : Clocks) (config : Config) (run : List Entry) → RunOf config run → LegalRun config c run
        → IsPromised config c run }
    // Where a body is taken from the client, the server held it at the path of the call, behind a call of the run that
    // is not before the client's own (RFC 7252, section 5.8.1).
    ensures held { (c : Clocks) (config : Config) (run : List Entry) → RunOf config run → LegalRun config c run
        → BodiesHeld config run }
    // Where success is taken, the server applied a request that the client sent for the call before, and answered it
    // with that code (RFC 7252, section 5.8).
    ensures applied { (c : Clocks) (config : Config) (run : List Entry) → RunOf config run → LegalRun config c run
        → SuccessesApplied config run }
    // Each legal run has a legal record of the same inputs and answers, by the same clocks, in which all that is out is
    // taken behind each input.
    ensures record_of { (c : Clocks) (config : Config) (run : List Entry) → RunOf config run → LegalRun config c run
        → HasRecord config c run }
    // The calls of each legal record are a legal run, by the same clocks: so each run that is written out is one.
    ensures of_records { RecordsAreRuns }
{}

/// What holds of a run in any order, however late datagrams are, and however the clocks run.
pub fn ever_law()
    // What `any_time_law` promises of a record, but for its clauses `came` and `behind`, is promised of the run.
    ensures ever { (c : Clocks) (config : Config) (run : List Entry) → RunOf config run → AnyRun config c run
        → IsPromisedEver config run }
{}

/// The law of runs in any order is a law of something: a run of two loops.
pub fn example_law()
    // A run is legal in which the datagrams are taken later than they are made, and both ends are looked at meanwhile.
    ensures { (stored : Content) × RunOf config (loops stored) × LegalRun config counting (loops stored) }
{}
