//! The value of a directory slot. How it is stored in bytes is the definition `slot_of`.

ghost use Rattle.std.specs.Prelude.{◌≡◌, [], ◌∷◌};

use base_types::Name;

/// An entry of a directory: a name, and the number of the node that it stands for.
#[derive(Drop)]
pub struct Slot {
    pub node: u32,
    pub name: Name,
}

/// The slot of no node with the name `-`. It only fills places of lists that aren't in use.
impl Default for Slot {
    fn default() -> Slot
        ensures { result ≡ record { node = 0; name = 45 ∷ [] } }
    {
        Slot {
            node: 0,
            name: Name::new(b"-".as_slice()).unwrap(),
        }
    }
}
