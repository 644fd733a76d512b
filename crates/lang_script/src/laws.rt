//! Laws of the texts: each line is a command, one text is that of one command or reply, and a line feed is in
//! none. A number below 2^64 has one text, and a text one number; and what the arguments of lines are read back as. They
//! run nothing.

ghost use Rattle.std.specs.Prelude.{◌≡◌, ◌<◌, ◌^◌, ◌++◌, ◌∷◌, ◌==◌, [], not, nat_lt, ℕ, List, Some, decimal, true};
ghost use Rattle.std.specs.List.{list_all, slice_split};
ghost use Rattle.hex.specs.Hex.{encode_lower};
ghost use Rattle.lang_tree.specs.declared.command.Cmd.{Cmd};
ghost use Rattle.lang_tree.specs.declared.command.Reply.{Reply};
ghost use Rattle.lang_script.specs.Decimal.{number_of};
ghost use Rattle.lang_script.specs.Grammar.{bytes_of, command_of, is_in_grammar, small_number_of};
ghost use Rattle.lang_script.specs.Text.{command_text, text_of_reply};
ghost use Rattle.lang_script.specs.Values.{IsCommand, IsReply, has_no_feed};

/// Each line is a command whose arguments are lawful, or none. A command that some line asks for is the one that its
/// text asks for.
pub fn lines_are_commands()
    ensures lawful { (line : List ℕ) → IsCommand (command_of line) }
    ensures read { (cmd : Cmd) → is_in_grammar cmd ≡ true → command_of (command_text cmd) ≡ cmd }
{}

/// Two commands with lawful arguments that have one text are the same, and so are two replies. None of these texts
/// has a line feed.
pub fn equal_texts_have_equal_values()
    ensures command { (cmd other : Cmd) → IsCommand cmd → IsCommand other → command_text cmd ≡ command_text other → cmd ≡ other }
    ensures reply { (reply other : Reply) → IsReply reply → IsReply other → text_of_reply reply ≡ text_of_reply other → reply ≡ other }
    ensures command_line { (cmd : Cmd) → IsCommand cmd → has_no_feed (command_text cmd) ≡ true }
    ensures reply_line { (reply : Reply) → IsReply reply → has_no_feed (text_of_reply reply) ≡ true }
{}

/// The decimal text of a number below 2^64 is read as that number, and a text that is read as a number is its decimal
/// text.
pub fn a_number_has_one_text()
    ensures read { (number : ℕ) → number < 2 ^ 64 → number_of (decimal number) ≡ Some number }
    ensures text { (text : List ℕ) (number : ℕ) → number_of text ≡ Some number → decimal number ≡ text }
    ensures small { (text : List ℕ) (number : ℕ) → number_of text ≡ Some number → number < 2 ^ 64 }
{}

/// A number below 2^32 is read back from its decimal text, and bytes, where there are some, from their digits. Neither
/// text has a blank, so that behind a word and a blank it is the second of two parts.
pub fn arguments_are_read_back()
    ensures number { (number : ℕ) → number < 2 ^ 32 → small_number_of (decimal number) ≡ Some number }
    ensures bytes { (byte : ℕ) (bytes : List ℕ) → list_all (λ b. nat_lt b 256) (byte ∷ bytes) ≡ true
        → bytes_of (encode_lower (byte ∷ bytes)) ≡ Some (byte ∷ bytes) }
    ensures two_with_number { (word : List ℕ) (number : ℕ) → number < 2 ^ 32 → list_all (λ b. not (b == 32)) word ≡ true
        → slice_split (λ b. b == 32) (word ++ 32 ∷ decimal number) ≡ word ∷ decimal number ∷ [] }
    ensures two_with_bytes { (word bytes : List ℕ) → list_all (λ b. not (b == 32)) word ≡ true
        → slice_split (λ b. b == 32) (word ++ 32 ∷ encode_lower bytes) ≡ word ∷ encode_lower bytes ∷ [] }
{}
