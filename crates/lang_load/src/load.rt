//! A row of commands on its way. Each is made of the next draws of the seed.

ghost use Rattle.std.specs.Prelude.{◌≡◌, ◌<◌, ◌%◌, IfOk, OnOk, OnErr};
ghost use Rattle.base_types.specs.Draws.{next_state, drawn};
ghost use Rattle.lang_load.specs.Load.{name, path, next_command, state_behind};

use crate::kind::{Kind, kind_of};
use base_types::{Bytes, Draws, Name, NoMemory};
use lang_tree::{Cmd, Path};
use std::alloc::Global;
use std::marker::Model;

/// Offsets and sizes of files are below this.
const OFFSETS: u32 = 8192;

/// Lengths of fills are below this.
const LENGTHS: u32 = 4096;

/// A load on its way, which contracts see as the state of its draws.
#[derive(Clone, Copy)]
pub struct Load {
    draws: Draws,
}

impl Model for Load {
    ghost use Rattle.std.specs.Prelude.{ℕ};

    ghost Value = { ℕ };

    ghost view = { λ l. l.draws };

    ghost inverse = { λ state. record { draws = state } };
}

impl Load {
    /// The load of this seed, of which no command is made yet. It takes no memory.
    pub fn new(seed: u32) -> Load
        ensures { result ≡ seed }
    {
        Load {
            draws: Draws::new(seed),
        }
    }

    /// Makes the next command.
    ///
    /// # Errors
    /// Out of memory, and the load stays as it was.
    pub fn next_command(&mut self, alloc: Global) -> Result<Cmd, NoMemory>
        ensures command { IfOk result (λ cmd. cmd ≡ next_command self.old) }
        ensures state { OnOk result (self.new ≡ state_behind self.old) }
        ensures same { OnErr result (self.new ≡ self.old) }
    {
        let mut draws = self.draws;
        let cmd = draw_command(alloc, &mut draws)?;
        self.draws = draws;
        Ok(cmd)
    }
}

// The command that the next draws make.
fn draw_command(alloc: Global, draws: &mut Draws) -> Result<Cmd, NoMemory>
    ensures command { IfOk result (λ cmd. cmd ≡ next_command draws.old) }
    ensures state { OnOk result (draws.new ≡ state_behind draws.old) }
{
    match kind_of(draws.draw()) {
        Kind::Mkdir => Ok(Cmd::Mkdir(draw_path(alloc, draws)?)),
        Kind::Create => Ok(Cmd::Create(draw_path(alloc, draws)?)),
        Kind::Fill => {
            let path = draw_path(alloc, draws)?;
            let offset = draws.draw() % OFFSETS;
            let length = draws.draw() % LENGTHS;
            let byte = draw_byte(draws);
            Ok(Cmd::Fill(path, offset, length, byte))
        }
        Kind::Write => {
            let path = draw_path(alloc, draws)?;
            let offset = draws.draw() % OFFSETS;
            let byte = draw_byte(draws);
            let bytes = Bytes::from_slice(alloc, &[byte])?;
            Ok(Cmd::Write(path, offset, bytes))
        }
        Kind::Truncate => {
            let path = draw_path(alloc, draws)?;
            let size = draws.draw() % OFFSETS;
            Ok(Cmd::Truncate(path, size))
        }
        Kind::Link => {
            let path = draw_path(alloc, draws)?;
            let other = draw_path(alloc, draws)?;
            Ok(Cmd::Link(path, other))
        }
        Kind::Unlink => Ok(Cmd::Unlink(draw_path(alloc, draws)?)),
        Kind::Rmdir => Ok(Cmd::Rmdir(draw_path(alloc, draws)?)),
        Kind::Rename => {
            let from = draw_path(alloc, draws)?;
            let to = draw_path(alloc, draws)?;
            Ok(Cmd::Rename(from, to))
        }
        Kind::Osync => Ok(Cmd::Osync),
        Kind::Dsync => Ok(Cmd::Dsync),
    }
}

// A byte of one draw.
fn draw_byte(draws: &mut Draws) -> u8
    ensures byte { result ≡ drawn (next_state draws.old) % 256 }
    ensures state { draws.new ≡ next_state draws.old }
{
    (draws.draw() % 256) as u8
}

// A path of one draw.
fn draw_path(alloc: Global, draws: &mut Draws) -> Result<Path, NoMemory>
    ensures path { IfOk result (λ p. p ≡ path (drawn (next_state draws.old))) }
    ensures state { draws.new ≡ next_state draws.old }
{
    let drawn = draws.draw();
    path_of(alloc, drawn)
}

// The path that a draw gives.
fn path_of(alloc: Global, drawn: u32) -> Result<Path, NoMemory>
    ensures { IfOk result (λ p. p ≡ path drawn) }
{
    let mut names = Vec::with_capacity(alloc, 2)?;
    names.push(name((drawn / 4 % 8) as u8)).unwrap();
    if drawn % 4 != 0 {
        names.push(name((drawn / 32 % 8) as u8)).unwrap();
    }
    Ok(Path::from_names(names))
}

// The name with this digit.
fn name(digit: u8) -> Name
    requires { digit < 8 }
    ensures { result ≡ name digit }
{
    Name::new(&[b'n', b'0' + digit]).unwrap()
}
