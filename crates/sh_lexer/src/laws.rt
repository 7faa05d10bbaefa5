//! Laws of the definitions, each the contract of a function that does nothing.
ghost use Rattle.std.specs.Prelude.{◌≡◌, ℕ, List};
ghost use Rattle.sh_lexer.specs.declared.token.Token.{Token};
ghost use Rattle.sh_lexer.specs.Tokens.{IsTokenList};

/// A line has exactly one token list.
pub fn one_token_list()
    ensures exists { (line : List ℕ) → (ts : List Token) × IsTokenList line ts }
    ensures unique { (line : List ℕ) (ts us : List Token) → IsTokenList line ts → IsTokenList line us → ts ≡ us }
{}
