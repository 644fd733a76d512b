//! The law of fields of bytes, an empty function whose clauses say it. Laws of nodes, of slots and of the
//! journal's blocks are in the crates of their codecs.

ghost use Rattle.layout_bytes.specs.Bytes.{ZerosAreTold, FirstZerosAreTold, NumbersAreTold};

/// What is read from a field tells its bytes: zeros are so many zeros, and a number has one spelling in so many
/// bytes.
pub fn fields_tell_their_bytes()
    ensures zeros { ZerosAreTold }
    ensures first_zeros { FirstZerosAreTold }
    ensures numbers { NumbersAreTold }
{}
