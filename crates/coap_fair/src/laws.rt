//! What the calls of a run with fair loss come to.
ghost use Rattle.std.specs.Prelude.{ℕ};
ghost use Rattle.coap_fair.specs.FairLoss.{AnsweredFairly, FairRun};
ghost use Rattle.coap_fair.specs.FairRuns.{FifthComes};
ghost use Rattle.coap_record.specs.Legal.{OfLegalRuns};

use coap_client_laws::{client_exchanges_law, client_follows_law, client_values_law};
use coap_layer::{channel_law, layer_law};
use coap_server_laws::server_law;
use coap_smooth::answered_law;

/// Runs by one clock in which, of the five copies of each request that needs them, one gets through with its reply, and
/// all else may be lost.
pub fn fair_law()
    // No exchange is open for more than 46,000 ms and twice the longest way; none ends by a Timeout, a Reset or
    // NoResponse; and each call reports what it should (RFC 7252, sections 4.2, 4.8, 5.2 and 5.8).
    ensures { (ms : ℕ) → OfLegalRuns (λ config turns. FairRun ms config turns → AnsweredFairly ms config turns) }
{
    channel_law();
    layer_law();
    client_exchanges_law();
    client_follows_law();
    client_values_law();
    server_law();
    answered_law();
}

/// A run with fair loss.
pub fn fair_witness()
    // A GET goes out five times, the fifth copy comes alone, and its answer is reported 3,000 ms later (RFC 7252,
    // sections 4.2 and 5.2.1).
    ensures { FifthComes }
{}
