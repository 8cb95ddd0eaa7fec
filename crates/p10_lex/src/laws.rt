//! Laws of the definitions, each the contract of a function that does nothing.

ghost use Rattle.std.specs.Prelude.{◌≡◌, ◌≢◌, ◌≤◌, ℕ, List, Result, Err};
ghost use Rattle.p10_base.specs.Words.{PlainWord};
ghost use Rattle.p10_lex.specs.declared.fault.LexFault.{LexFault};
ghost use Rattle.p10_lex.specs.declared.fault.LexFault.TheVariants.{Memory, Refused};
ghost use Rattle.p10_base.specs.declared.report.Family.TheVariants.{X};
ghost use Rattle.p10_base.specs.declared.report.Refusal.{Refusal};
ghost use Rattle.p10_lex.specs.Lexes.{Lexes, HasWordsOrOneRefusal, Answers};

/// The words of a file are unique.
pub fn words_are_unique()
    ensures { (file : ℕ) (bytes : List ℕ) (words others : List PlainWord)
        → Lexes file bytes words → Lexes file bytes others → words ≡ others }
{}

/// Every list of bytes has words, or exactly one refusal.
pub fn each_file_has_words_or_one_refusal()
    ensures { (file : ℕ) (bytes : List ℕ) → HasWordsOrOneRefusal file bytes }
{}

/// A file has one answer, unless memory runs out.
pub fn answers_are_unique()
    ensures { (file : ℕ) (bytes : List ℕ) (a b : Result (List PlainWord) LexFault) → a ≢ Err Memory → b ≢ Err Memory
        → Answers file bytes a → Answers file bytes b → a ≡ b }
{}

/// A refusal has one of the codes X1 to X6.
pub fn refusals_have_codes()
    ensures { (file : ℕ) (bytes : List ℕ) (refusal : Refusal)
        → Answers file bytes (Err (Refused refusal)) → (refusal.family ≡ X) × (1 ≤ refusal.number) × (refusal.number ≤ 6) }
{}
