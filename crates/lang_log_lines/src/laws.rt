//! Laws: what the calls that a reader has given are of the bytes that it has pulled, and that each call has a line. They
//! run nothing.

ghost use Rattle.std.specs.Prelude.{◌≡◌, ℕ, ◌+◌, ◌^◌, ◌≤◌, true, false, List, [], ◌++◌, length};
ghost use Rattle.lang_lines.specs.Lines.{longest};
ghost use Rattle.lang_lines.specs.Reading.{ReaderState, first_state};
ghost use Rattle.lang_log.specs.declared.call.LogCall.{LogCall};
ghost use Rattle.lang_log_lines.specs.Grammar.{call_of, calls_of, whole_calls};
ghost use Rattle.lang_log_lines.specs.Reading.{HasGivenCalls};
ghost use Rattle.lang_log_lines.specs.Text.{IsAskedFor, text_of_call};

use crate::calls::Calls;
use lang_lines::all_items_were_given;
use lang_script::arguments_are_read_back;

/// At first nothing was given. At the end of an input the calls of all its bytes were, and before it, where all
/// bytes that were pulled are looked at, those of their whole lines. At each moment the calls that were given are
/// the first ones of the input, whatever bytes come behind those that were pulled; and there are few of them.
pub fn all_calls_were_given()
    ensures first { HasGivenCalls [] [] first_state }
    ensures end { (seen : List ℕ) (calls : List LogCall) (r : ReaderState) → HasGivenCalls seen calls r → r.over ≡ true → r.ahead ≡ []
        → calls ≡ calls_of longest seen }
    ensures whole { (seen : List ℕ) (calls : List LogCall) (r : ReaderState) → HasGivenCalls seen calls r → r.over ≡ false → r.ahead ≡ []
        → calls ≡ whole_calls longest seen }
    ensures front { (seen rest : List ℕ) (calls : List LogCall) (r : ReaderState) → HasGivenCalls seen calls r → r.over ≡ false → (later : List LogCall)
        × (calls_of longest (seen ++ rest) ≡ calls ++ later) }
    ensures few { (seen : List ℕ) (calls : List LogCall) (r : ReaderState) → HasGivenCalls seen calls r → length calls ≤ 2 ^ 30 + 1 }
{
    all_items_were_given::<Calls>();
}

/// Each call but `Bad` has a line, which is read as that call.
pub fn calls_have_lines()
    ensures { (call : LogCall) → IsAskedFor call → call_of (text_of_call call) ≡ call }
{
    arguments_are_read_back();
}
