//! Windows of any statement on images, as laws: a caller has a statement of its own, and carries it from
//! moment to moment, through the calls, and to the points of a session.

ghost use Rattle.std.specs.Prelude.{◌≤◌, ◌++◌, ◌∷◌, ℕ, List, [], length, Option, Result};
ghost use Rattle.base_types.specs.Seal.{Blocks};
ghost use Rattle.layout_geometry.specs.Geometry.{Geometry};
ghost use Rattle.disk_contract.specs.declared.event.Event.{Event};
ghost use Rattle.disk_contract.specs.declared.disk.DiskFault.{DiskFault};
ghost use Rattle.disk_contract.specs.Crash.{IsHonest, Window};
ghost use Rattle.disk_contract.specs.Disk.{AddsWrite, AddsPoll, AddsNotices, Grows};
ghost use Rattle.crash_argument.specs.Ledger.{Ledger, HoldsUnder, StandsForOne, IsConsistentWith};
ghost use Rattle.crash_argument.specs.Opening.{AddsDurable};
ghost use Rattle.crash_argument.specs.Points.{MountedSession, IsPoint, HoldsPoint, IsSafe, points_in};

use crate::journal::the_journal_is_lawful;
use disk_contract::a_notice_adds_no_image;

/// A statement on images, or one for each value of a type. The laws below are of any such statement.
pub trait Statement {
    /// The type of those values.
    ghost Of: { Type 0 };

    /// An image satisfies the statement of this value.
    ghost holds: { Of → Blocks → Type 0 };
}

/// The statement that an image holds this map under a newest header of this geometry.
pub struct HoldsMap;

impl Statement for HoldsMap {
    ghost use Rattle.base_types.specs.Seal.{Blocks};
    ghost use Rattle.layout_geometry.specs.Geometry.{Geometry};
    ghost use Rattle.crash_argument.specs.Ledger.{HoldsUnder};

    ghost Of = { Geometry × Blocks };

    ghost holds = { λ of img. HoldsUnder of.0.n of.0 img of.1 };
}

/// A window begins with the images of now, goes on with those of one moment more, and with notices by
/// itself. Two windows one behind the other are one.
pub fn windows_go_on<S: Statement>()
    ensures begins { (of : S.Of) (n : ℕ) (base : Blocks) (log : List Event) → ((img : Blocks) → IsHonest n base log img → S.holds of img)
        → Window n base log (length log) (S.holds of) }
    ensures more { (of : S.Of) (n : ℕ) (base : Blocks) (log : List Event) (e : Event) (t : ℕ) → Window n base log t (S.holds of)
        → ((img : Blocks) → IsHonest n base (log ++ e ∷ []) img → S.holds of img) → Window n base (log ++ e ∷ []) t (S.holds of) }
    ensures notices { (of : S.Of) (n : ℕ) (base : Blocks) (log new : List Event) (t : ℕ) → t ≤ length log → AddsNotices log new
        → Window n base log t (S.holds of) → Window n base new t (S.holds of) }
    ensures joins { (of : S.Of) (n : ℕ) (base : Blocks) (log new : List Event) (t : ℕ) → Grows log new → Window n base log t (S.holds of)
        → Window n base new (length log) (S.holds of) → Window n base new t (S.holds of) }
{
    a_notice_adds_no_image();
}

/// A write, a poll, a wait, and a write that is waited for only add to a log.
pub fn calls_only_add()
    ensures write { (b : ℕ) (x : List ℕ) (r : Result ℕ DiskFault) (old new : List Event) → AddsWrite b x r old new → Grows old new }
    ensures poll { (r : Result (Option ℕ) DiskFault) (old new : List Event) → AddsPoll r old new → Grows old new }
    ensures wait { (old new : List Event) → AddsNotices old new → Grows old new }
    ensures durable { (b : ℕ) (x : List ℕ) (r : Result (Unit {0}) DiskFault) (old new : List Event) → AddsDurable b x r old new → Grows old new }
{}

/// How the guarded calls carry a statement. One that each map of the ledger has goes on over a write that
/// leaves the disk consistent. One that each point from the floor on has holds in a safe disk's window. And
/// one that a map has holds where a mount's window is of that map.
pub fn guarded_calls_carry_a_statement<S: Statement>()
    ensures write { (of : S.Of) (base : Blocks) (old new : List Event) (l : Ledger) (t b : ℕ) (x : List ℕ) (r : Result ℕ DiskFault)
        → AddsWrite b x r old new → IsConsistentWith base new l → ((img : Blocks) → StandsForOne l img → S.holds of img)
        → Window l.geom.n base old t (S.holds of) → Window l.geom.n base new t (S.holds of) }
    ensures points { (of : S.Of) (s : MountedSession) (base : Blocks) (log : List Event) (l : Ledger) (t floor : ℕ) → IsSafe s base log l t floor
        → ((img : Blocks) → ∥ HoldsPoint s base log floor (points_in s log) img ∥₁ → S.holds of img)
        → Window s.geom.n base log t (S.holds of) }
    ensures map { (of : S.Of) (n : ℕ) (g : Geometry) (m : Blocks) (base : Blocks) (log : List Event) (t : ℕ)
        → ((img : Blocks) → HoldsUnder n g img m → S.holds of img) → Window n base log t (λ img. HoldsUnder n g img m)
        → Window n base log t (S.holds of) }
{
    the_journal_is_lawful();
}

/// A window may reach back to where each image since held the map of a point that the floor allows.
pub fn a_window_reaches_back()
    ensures { (s : MountedSession) (base : Blocks) (log : List Event) (l : Ledger) (t floor since point : ℕ) (m : Blocks)
        → IsSafe s base log l t floor → IsPoint s base log point m → floor ≤ point → point ≤ points_in s log
        → Window s.geom.n base log since (λ img. HoldsUnder s.geom.n s.geom img m) → IsSafe s base log l since floor }
{}
