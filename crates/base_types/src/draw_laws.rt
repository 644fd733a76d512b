//! A law of the definitions: a worked example. It runs nothing.

ghost use Rattle.std.specs.Prelude.{◌≡◌, [], ◌∷◌};
ghost use Rattle.base_types.specs.Draws.{next_state, drawn, draws};

/// The first state from the seed 1 and what is drawn of it, and the first three draws.
pub fn seed_one_gives_these_draws()
    ensures state { next_state 1 ≡ 7806831264735756412 }
    ensures value { drawn 7806831264735756412 ≡ 908834774 }
    ensures draws { draws 3 1 ≡ 908834774 ∷ 1093944153 ∷ 1392341196 ∷ [] }
{}
