//! Laws of the definitions, each the contract of a function that does nothing.
ghost use Rattle.std.specs.Prelude.{◌≡◌, true, ℕ, List, ◌∷◌, ◌++◌};
ghost use Rattle.asm_tokens.specs.Layout.{laid};
ghost use Rattle.asm_tokens.specs.AreTokens.{ends, is_token, are_tokens};
ghost use Rattle.asm_tokens.specs.Tokens.{tokens};

/// A token is read where the bytes behind it don't go on it, and so tokens laid out as a text are split into the same
/// tokens.
pub fn laid_tokens_are_read()
    ensures one { (t x : List ℕ) → is_token t ≡ true → ends t x ≡ true → tokens (t ++ x) ≡ t ∷ tokens x }
    ensures all { (t : List ℕ) (ts : List (List ℕ)) → is_token t ≡ true → are_tokens ts ≡ true
        → tokens (t ++ laid t ts) ≡ t ∷ ts }
{}
