//! The type `Draws`, which holds the state of a row of draws, and its step. It chooses no seed and has
//! no ranges: a caller takes from a draw what it needs.

ghost use Rattle.std.specs.Prelude.{◌≡◌, ◌<◌, ◌^◌};
ghost use Rattle.base_types.specs.Draws.{next_state, drawn};

use std::marker::Model;

/// What a step multiplies the state by.
const MULTIPLIER: u64 = 6_364_136_223_846_793_005;

/// What a step adds to the product.
const INCREMENT: u64 = 1_442_695_040_888_963_407;

/// How many low bits of a state aren't drawn.
const LOW_BITS: u32 = 33;

/// A row of draws on its way, which contracts see as its state of 64 bits. It takes no memory. A copy
/// draws the same numbers as the row that it was made from.
#[derive(Clone, Copy)]
pub struct Draws {
    state: u64,
}

impl Model for Draws {
    ghost use Rattle.std.specs.Prelude.{ℕ};

    ghost Value = { ℕ };

    ghost view = { λ d. d.state };

    ghost inverse = { λ state. record { state = state } };
}

impl Draws {
    /// The row of draws of this seed, none of which is drawn yet.
    pub fn new(seed: u32) -> Draws
        ensures { result ≡ seed }
    {
        Draws {
            state: u64::from(seed),
        }
    }

    /// Makes a step and draws a number, which is below 2^31.
    pub fn draw(&mut self) -> u32
        ensures state { self.new ≡ next_state self.old }
        ensures value { result ≡ drawn self.new }
        ensures bound { result < 2 ^ 31 }
    {
        let next = step(self.state);
        self.state = next;
        drawn(next)
    }
}

/// The state after this one.
fn step(state: u64) -> u64
    ensures { result ≡ next_state state }
{
    state.wrapping_mul(MULTIPLIER).wrapping_add(INCREMENT)
}

/// What is drawn of a state.
fn drawn(state: u64) -> u32
    ensures value { result ≡ drawn state }
    ensures bound { result < 2 ^ 31 }
{
    (state >> LOW_BITS) as u32
}
