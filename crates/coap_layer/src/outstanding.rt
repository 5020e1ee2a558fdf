//! The Confirmable messages that are not acknowledged yet (RFC 7252, section 4.2).
ghost use Rattle.std.specs.Prelude.{◌≡◌, ◌≤◌, [], map, filter, is_some, length, option_to_list, IfOk, IsOk};
ghost use Rattle.std.specs.Vec.{vec_len, vec_capacity};
ghost use Rattle.coap_layer.specs.Machine.Parts.{noted, open_before, settled, put_back as put_back_lem};
ghost use Rattle.coap_layer.specs.Machine.Sendings.{open_now};
ghost use Rattle.coap_layer.specs.Machine.State.{copies};

use crate::datagram::Datagram;
use crate::retransmission::{Sending, has_failed, is_copy_due};
use coap_types::Moment;
use std::alloc::{AllocError, Allocator};

// Drops the messages that have ended.
fn drop_ended<A: Allocator + Copy>(sendings: &mut Vec<Sending<A>, A>)
    ensures items { sendings.new.items ≡ filter (λ c. is_some c.last) sendings.old.items }
    ensures len { vec_len sendings.new ≤ vec_len sendings.old }
    ensures capacity { vec_capacity sendings.new ≡ vec_capacity sendings.old }
{
    sendings.retain(|c| c.last.is_some());
}

// Notes each last sending as that which an input finds.
fn note<A: Allocator + Copy>(sendings: &mut [Sending<A>])
    ensures { sendings.new ≡ map settled sendings.old }
{
    for c in sendings.iter_mut() {
        c.before = c.last;
    }
}

// Notes each last sending as that which an input finds.
fn note_all<A: Allocator + Copy>(sendings: &mut Vec<Sending<A>, A>)
    ensures items { sendings.new.items ≡ map settled sendings.old.items }
    ensures len { vec_len sendings.new ≡ vec_len sendings.old }
    ensures capacity { vec_capacity sendings.new ≡ vec_capacity sendings.old }
{
    note(sendings);
}

/// Lets go of what the input before found, and notes what this one finds.
pub(crate) fn settle_down<A: Allocator + Copy>(sendings: &mut Vec<Sending<A>, A>)
    ensures items { sendings.new.items ≡ noted sendings.old.items }
    ensures open { open_now sendings.new.items ≡ open_now sendings.old.items }
    ensures before { open_before sendings.new.items ≡ open_now sendings.old.items }
    ensures len { vec_len sendings.new ≤ vec_len sendings.old }
    ensures capacity { vec_capacity sendings.new ≡ vec_capacity sendings.old }
{
    drop_ended(sendings);
    note_all(sendings);
}

// Puts back what the last input found.
fn put_each_back<A: Allocator + Copy>(sendings: &mut [Sending<A>])
    ensures { sendings.new ≡ map put_back_lem sendings.old }
{
    for c in sendings.iter_mut() {
        c.last = c.before;
    }
}

// Puts back what the last input found.
fn put_all_back<A: Allocator + Copy>(sendings: &mut Vec<Sending<A>, A>)
    ensures items { sendings.new.items ≡ map put_back_lem sendings.old.items }
    ensures len { vec_len sendings.new ≡ vec_len sendings.old }
    ensures capacity { vec_capacity sendings.new ≡ vec_capacity sendings.old }
{
    put_each_back(sendings);
}

/// Puts back what the last input found.
pub(crate) fn put_back<A: Allocator + Copy>(sendings: &mut Vec<Sending<A>, A>)
    ensures open { open_now sendings.new.items ≡ open_before sendings.old.items }
    ensures len { vec_len sendings.new ≡ vec_len sendings.old }
    ensures capacity { vec_capacity sendings.new ≡ vec_capacity sendings.old }
{
    put_all_back(sendings);
}

/// How many messages are outstanding.
pub(crate) fn outstanding_len<A: Allocator + Copy>(sendings: &[Sending<A>]) -> usize
    ensures { result ≡ length (filter (λ c. is_some c.last) sendings.now) }
{
    sendings.iter().filter(|c| c.last.is_some()).count()
}

/// The retransmission that is due, of the message that was sent first of those that have a step.
pub(crate) fn due_copy<A: Allocator + Copy>(
    alloc: A,
    sendings: &Vec<Sending<A>, A>,
    at: Moment,
) -> Result<Option<Datagram<A>>, AllocError>
    ensures copy { IfOk result (λ d. option_to_list d ≡ copies at.0 (open_now sendings.now.items)) }
    ensures idle { copies at.0 (open_now sendings.now.items) ≡ [] → IsOk result }
{
    for c in sendings {
        if let Some(last) = c.last {
            if has_failed(c, at) {
                return Ok(None);
            }
            if is_copy_due(c, last, at) {
                let bytes = Vec::from_slice(alloc, &c.bytes)?;
                return Ok(Some(Datagram { to: c.to, bytes }));
            }
        }
    }
    Ok(None)
}
