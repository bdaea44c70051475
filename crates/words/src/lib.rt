// Order 6, presence words: how many different codes one carries. The words themselves are laid with the skip numbers (`lay_skips`).
#![tactic(auto)]

ghost use Rattle.std.specs.Prelude.{◌≡◌};
ghost use Rattle.meaning.specs.Words.{ones_of};

// "how many different codes it carries, from the word itself": the count of ones of any word.
pub fn ones(word: u32) -> u32
    ensures { result ≡ ones_of word }
{
    u32::count_ones(word)
}
