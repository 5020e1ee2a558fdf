//! What holds of all names, and of every history of a table of names.
ghost use Rattle.std.specs.Prelude.{◌≡◌, ℕ, ◌+◌, ◌<◌, ◌≤◌, ◌∷◌, [], List, length, take};
ghost use Rattle.coap_types.specs.declared.endpoint.Endpoint.{Endpoint};
ghost use Rattle.coap_names.specs.Numbered.{IsOf, numbered, number_of};
ghost use Rattle.coap_names.specs.declared.numbering.Numbering.TheVariants.{ThisNetwork};
ghost use Rattle.coap_names.specs.declared.numbering.TheConstants.{NAMES as names};
ghost use Rattle.coap_names.specs.Trace.{Entry};
ghost use Rattle.coap_names.specs.Tables.{Setup, State};
ghost use Rattle.coap_names.specs.Led.{Led};
ghost use Rattle.coap_names.specs.Laws.{HasOneOwner, AreInverse, NeverAgain, KeepsNames, GivesTheSame, KeepsHeld};
ghost use Rattle.coap_names.specs.Laws.{FullOnlyWhenTaken, NamesAreOf};

use std::hash::Hash;

/// How names are laid out.
pub fn name_law()
    // The number of a name is the one that it was made of, so that two names of two numbers are two.
    ensures number { (n : ℕ) → n < names → number_of (numbered n) ≡ n }
    // The port of a name is never 0.
    ensures port { (n : ℕ) → 1 ≤ (numbered n).port }
    // A name of the numbering of "this network" is in 0.0.0.0/8, so that it is no address of an IPv4 peer.
    ensures this_network { (name : Endpoint) → IsOf ThisNetwork name → take 1 name.ip ≡ 0 ∷ [] }
{}

/// What holds of every history of a table of names, for all keys.
pub fn names_law<K: Eq + Hash>()
    // A name that was ever given to two keys was given to equal ones.
    ensures one_owner { (setup : Setup) (t : List (Entry K)) (s : State K) → Led K.eq setup t s → HasOneOwner K.eq t }
    // The key of a name and the name of a key are each other's.
    ensures inverse { (setup : Setup) (t : List (Entry K)) (s : State K) → Led K.eq setup t s → AreInverse K.eq s }
    // A name that was given and is no key's any more stays no key's, and is not given again.
    ensures never_again { (setup : Setup) (t : List (Entry K)) (s : State K) → Led K.eq setup t s
        → NeverAgain K.eq t s }
    // A key keeps its name for 247 s after the last datagram from it or to it, unless it is retired.
    ensures keeps { (setup : Setup) (t : List (Entry K)) (s : State K) → Led K.eq setup t s → KeepsNames K.eq t s }
    // A datagram that comes within 247 s of the last one from an equal key, or to it, is given the same name.
    ensures same { (setup : Setup) (t : List (Entry K)) (s : State K) → Led K.eq setup t s → GivesTheSame K.eq t }
    // A name that is held is a key's until it is released or retired.
    ensures held { (setup : Setup) (t : List (Entry K)) (s : State K) → Led K.eq setup t s → KeepsHeld K.eq t s }
    // A key is refused a place only where a held name, or one with a datagram in the last 247 s, takes each of them.
    ensures full { (setup : Setup) (t : List (Entry K)) (s : State K) → Led K.eq setup t s
        → FullOnlyWhenTaken K.eq setup.most t s }
    // No more keys have a name than there are places.
    ensures few { (setup : Setup) (t : List (Entry K)) (s : State K) → Led K.eq setup t s
        → length s.idle + length s.held ≤ setup.most }
    // Each name that was ever given is one of the table's numbering.
    ensures numbered { (setup : Setup) (t : List (Entry K)) (s : State K) → Led K.eq setup t s
        → NamesAreOf setup.numbering t }
{}
