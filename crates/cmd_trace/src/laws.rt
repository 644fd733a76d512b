//! The laws of whole texts and of lines: one text has one contents, and a line says one thing. They run nothing.

ghost use Rattle.std.specs.Prelude.{◌≡◌, ◌<◌, ◌^◌, ℕ, List};
ghost use Rattle.disk_contract.specs.declared.event.Event.{Event};
ghost use Rattle.disk_contract.specs.Lawful.{IsEventOf};
ghost use Rattle.cmd_trace.specs.Line.{event_line, reply_line};
ghost use Rattle.cmd_trace.specs.Contents.{Contents, AreLawful, front_of, text_of};

use lang_script::{a_number_has_one_text, equal_texts_have_equal_values};

/// Lawful contents that have one text are the same: the geometry, the events and how many of them are the
/// mount's, the commands, the replies and the marks. So it is with the text but for its end.
pub fn equal_traces_have_equal_contents()
    ensures whole { (c d : Contents) → AreLawful c → AreLawful d → text_of c ≡ text_of d → c ≡ d }
    ensures front { (c d : Contents) → AreLawful c → AreLawful d → front_of c ≡ front_of d → c ≡ d }
{
    equal_texts_have_equal_values();
}

/// Two events that have one line are the same, where their tickets have 64 bits, their blocks 32, and their bytes
/// are those of a block. So are two moments of 64 bits, and the texts behind them.
pub fn a_line_says_one_thing()
    ensures event { (e d : Event) → IsEventOf (2 ^ 32) e → IsEventOf (2 ^ 32) d → event_line e ≡ event_line d → e ≡ d }
    ensures reply { (m k : ℕ) (s t : List ℕ) → m < 2 ^ 64 → k < 2 ^ 64 → reply_line m s ≡ reply_line k t → (m ≡ k) × (s ≡ t) }
{
    a_number_has_one_text();
}
