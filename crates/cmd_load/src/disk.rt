//! The disk of a load: its geometry, and how it behaves. It gives its notices by the seed. What a disk in memory does is
//! described in docs/DISK.md.

ghost use Rattle.std.specs.Prelude.{◌≡◌};
ghost use Rattle.cmd_load.specs.Serving.{behaviour_of, notices_of};
ghost use Rattle.cmd_load.specs.Summary.{shape};

use cmd_host::Behaviour;
use cmd_words::Notices;
use layout_geometry::Geom;

/// For how many writes the disk has room.
const ROOM: u32 = 65_536;

/// The geometry of the disk.
pub(crate) fn geom() -> Geom
    ensures { result ≡ shape }
{
    Geom::new(4_096, 256, 256).unwrap()
}

/// How the disk behaves: it gives its notices by the seed, and no write is to fail.
pub(crate) fn behaviour(seed: u32) -> Behaviour
    ensures { result ≡ behaviour_of seed }
{
    Behaviour {
        notices: notices_of(seed),
        room: ROOM,
        fail: None,
    }
}

/// The notices: a seed of 0 gives none.
fn notices_of(seed: u32) -> Notices
    ensures { result ≡ notices_of seed }
{
    if seed == 0 {
        Notices::Silent
    } else {
        Notices::Seed(seed)
    }
}
