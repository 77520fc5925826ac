//! What the definitions of connections say of any ends and packets.

ghost use Rattle.std.specs.Prelude.{◌≡◌, ◌≢◌, List};
ghost use Rattle.connections3.specs.Connections.{ShowsPackets};
ghost use Rattle.connections3.specs.Ends.{ends_between, other_end, sender_between};
ghost use Rattle.connections3.specs.declared.connection.Connection.{Connection};
ghost use Rattle.connections3.specs.declared.packets.Packet.{Packet};
ghost use Rattle.recording3.specs.declared.parts.End.{End};

/// Both directions have the same ends. If these are not one, each is sent by the other end.
pub fn both_directions()
    ensures ends { (one other : End) → ends_between one other ≡ ends_between other one }
    ensures sender { (one other : End) → one ≢ other
        → sender_between one other ≡ other_end (sender_between other one) }
{}

/// Packets say one thing of connections.
pub fn one_recording()
    ensures { (ones others : List Connection) (packets : List Packet)
        → ShowsPackets ones packets → ShowsPackets others packets → ones ≡ others }
{}
