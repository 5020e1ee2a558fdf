//! What was written is read again.
ghost use Rattle.std.specs.Prelude.{◌≡◌, ℕ, List, map};
ghost use Rattle.coap_pcap.specs.Files.{IsFaulty, Seen, Tells};
ghost use Rattle.coap_pcap.specs.Written.{AllHaveRecords, Sent, file, seen_again};
ghost use Rattle.coap_pcap.specs.declared.reasons.Fault.{Fault as FaultSpec};

/// A file is read in one way, and one that was written is read as what was written.
pub fn pcap_law()
    // A file of a head and of the records of datagrams tells these datagrams, each with its moment and its addresses.
    ensures again { (sent : List Sent) → AllHaveRecords sent → Tells (file sent) (map seen_again sent) }
    // A file tells one list of packets.
    ensures one { (bytes : List ℕ) (a b : List Seen) → Tells bytes a → Tells bytes b → a ≡ b }
    // A file that tells packets has no fault.
    ensures sound { (bytes : List ℕ) (a : List Seen) (f : FaultSpec) → Tells bytes a → IsFaulty bytes f → ⊥ }
{}
