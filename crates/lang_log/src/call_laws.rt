//! Laws of the calls of a log: how runs of them go on, and what a crash may leave behind one. They run nothing.

ghost use Rattle.std.specs.Prelude.{◌≡◌, ◌≤◌, ◌++◌, ◌∷◌, [], ℕ, List, codes, length};
ghost use Rattle.lang_log.specs.declared.call.LogCall.{LogCall};
ghost use Rattle.lang_log.specs.declared.call.LogCall.TheVariants.{Append, Get, Count, Sync};
ghost use Rattle.lang_log.specs.declared.call.LogReply.{LogReply};
ghost use Rattle.lang_log.specs.declared.call.LogReply.TheVariants.{Number, Bytes, Range, Durable, NoRecord};
ghost use Rattle.lang_log.specs.Answers.{AnswersLog, LogRun, after_calls, appends_of};
ghost use Rattle.lang_log.specs.History.{History, opened_with};
ghost use Rattle.lang_log.specs.Log.{Log, nothing_logged};
ghost use Rattle.lang_log.specs.Runs.{Appends, AreOf, count, found_in, from_low};

/// No call leads nowhere, and behind calls that led to a history one more leads on from it.
pub fn calls_of_a_log_go_on()
    ensures none { (h : History) → LogRun h [] [] h }
    ensures more { (h mid k : History) (calls : List LogCall) (replies : List LogReply) (call : LogCall) (reply : LogReply) → LogRun h calls replies mid
        → AnswersLog mid call reply k → LogRun h (calls ++ call ∷ []) (replies ++ reply ∷ []) k }
{}

/// All that a crash may leave of a log behind a run of calls, since it was opened or since any moment later, are runs of
/// its appends: of those that it had and of each one that was answered with a number, in order, each with its bytes,
/// and that number is the next. What was there when a sync was answered is kept.
pub fn a_run_of_calls_leaves_runs()
    ensures opened { (l : Log) (calls : List LogCall) (replies : List LogReply) (k : History) → LogRun (opened_with l) calls replies k
        → AreOf k (from_low k.now.low (after_calls calls replies (found_in l))) }
    ensures later { (h k : History) (a : Appends) (calls : List LogCall) (replies : List LogReply) → AreOf h a → LogRun h calls replies k
        → AreOf k (from_low k.now.low (after_calls calls replies a)) }
    ensures appends { (calls : List LogCall) (replies : List LogReply) (a : Appends)
        → (after_calls calls replies a).appends ≡ a.appends ++ appends_of calls replies }
    ensures number { (h k : History) (a : Appends) (bytes : List ℕ) (number : ℕ) → AreOf h a → AnswersLog h (Append bytes) (Number number) k
        → number ≡ count a }
    ensures kept { (calls later : List LogCall) (replies told : List LogReply) (a : Appends) (point : ℕ) → a.kept ≤ count a → length calls ≡ length replies
        → count (after_calls calls replies a) ≤ (after_calls (calls ++ Sync ∷ later) (replies ++ Durable point ∷ told) a).kept }
{}

/// A worked example: six calls of a log that begins empty, their answers, and what it is behind them.
pub fn six_calls_are_answered_so()
    ensures { LogRun (opened_with nothing_logged)
        (Append (codes "hi") ∷ Append (codes "j") ∷ Get 1 ∷ Get 2 ∷ Count ∷ Sync ∷ [])
        (Number 0 ∷ Number 1 ∷ Bytes (codes "j") ∷ NoRecord 0 2 ∷ Range 0 2 ∷ Durable 1 ∷ [])
        (opened_with (record { low = 0; appends = codes "hi" ∷ codes "j" ∷ [] })) }
{}
