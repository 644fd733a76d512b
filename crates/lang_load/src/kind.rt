//! The kinds of commands that a load has, and how often each comes. What is in a command isn't
//! described here.

ghost use Rattle.std.specs.Prelude.{◌≡◌};
ghost use Rattle.lang_load.specs.Load.{kind_of};

/// A kind of command.
#[derive(Clone, Copy)]
pub(crate) enum Kind {
    Mkdir,
    Create,
    Fill,
    Write,
    Truncate,
    Link,
    Unlink,
    Rmdir,
    Rename,
    Osync,
    Dsync,
}

/// The kind that a draw gives.
pub(crate) fn kind_of(drawn: u32) -> Kind
    ensures { result ≡ kind_of drawn }
{
    match drawn % 16 {
        0 | 1 => Kind::Mkdir,
        2 | 3 | 4 => Kind::Create,
        5 | 6 | 7 => Kind::Fill,
        8 => Kind::Write,
        9 => Kind::Truncate,
        10 => Kind::Link,
        11 => Kind::Unlink,
        12 => Kind::Rmdir,
        13 => Kind::Rename,
        14 => Kind::Osync,
        _ => Kind::Dsync,
    }
}
