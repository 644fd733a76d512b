//! Laws: what the items and commands that a reader has given are of the bytes that it has pulled. They run nothing.

ghost use Rattle.std.specs.Prelude.{◌≡◌, ℕ, ◌+◌, ◌^◌, ◌≤◌, true, false, List, [], ◌++◌, length};
ghost use Rattle.lang_tree.specs.declared.command.Cmd.{Cmd};
ghost use Rattle.lang_lines.specs.Lines.{longest, items_of, items_of_line, whole_commands, whole_items, commands_of};
ghost use Rattle.lang_lines.specs.Reading.{ReaderState, HasGiven, HasGivenItems, first_state};

use crate::lines::LineParser;

/// At first nothing was given. At the end of an input what all its lines say was, and before it, where all bytes that
/// were pulled are looked at, what their whole lines say. At each moment the items that were given are the first ones of
/// the input, whatever bytes come behind those that were pulled; and there are few of them.
pub fn all_items_were_given<P: LineParser>()
    ensures first { HasGivenItems (items_of_line P.bad P.says longest) [] [] first_state }
    ensures end { (seen : List ℕ) (items : List P.Item) (r : ReaderState) → HasGivenItems (items_of_line P.bad P.says longest) seen items r
        → r.over ≡ true → r.ahead ≡ [] → items ≡ items_of (items_of_line P.bad P.says longest) seen }
    ensures whole { (seen : List ℕ) (items : List P.Item) (r : ReaderState) → HasGivenItems (items_of_line P.bad P.says longest) seen items r
        → r.over ≡ false → r.ahead ≡ [] → items ≡ whole_items (items_of_line P.bad P.says longest) seen }
    ensures front { (seen rest : List ℕ) (items : List P.Item) (r : ReaderState) → HasGivenItems (items_of_line P.bad P.says longest) seen items r
        → r.over ≡ false → (later : List P.Item) × (items_of (items_of_line P.bad P.says longest) (seen ++ rest) ≡ items ++ later) }
    ensures few { (seen : List ℕ) (items : List P.Item) (r : ReaderState) → HasGivenItems (items_of_line P.bad P.says longest) seen items r
        → length items ≤ 2 ^ 30 + 1 }
{}

/// At first nothing was given. At the end of an input the commands of all its bytes were, and before it, where all
/// bytes that were pulled are looked at, those of their whole lines. At each moment the commands that were given are
/// the first ones of the input, whatever bytes come behind those that were pulled; and there are few of them.
pub fn all_was_given()
    ensures first { HasGiven [] [] first_state }
    ensures end { (seen : List ℕ) (cmds : List Cmd) (r : ReaderState) → HasGiven seen cmds r → r.over ≡ true → r.ahead ≡ [] → cmds ≡ commands_of longest seen }
    ensures whole { (seen : List ℕ) (cmds : List Cmd) (r : ReaderState) → HasGiven seen cmds r → r.over ≡ false → r.ahead ≡ []
        → cmds ≡ whole_commands longest seen }
    ensures front { (seen rest : List ℕ) (cmds : List Cmd) (r : ReaderState) → HasGiven seen cmds r → r.over ≡ false → (later : List Cmd)
        × (commands_of longest (seen ++ rest) ≡ cmds ++ later) }
    ensures few { (seen : List ℕ) (cmds : List Cmd) (r : ReaderState) → HasGiven seen cmds r → length cmds ≤ 2 ^ 30 + 1 }
{}
