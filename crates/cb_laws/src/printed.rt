//! What is shown reads back.
ghost use Rattle.std.specs.Prelude.{◌≡◌, ◌∷◌, ◌^◌, ◌<◌, ℕ, ℤ, List, [], Ok, true, unsigned_abs};
ghost use Rattle.cb_eval.specs.Arithmetic.{fits_64_bits};
ghost use Rattle.cb_facts.specs.Texts.{quoted_bytes};
ghost use Rattle.cb_facts.specs.declared.value.Value.TheVariants as value;
ghost use Rattle.cb_forms.specs.Items.{items};
ghost use Rattle.cb_forms.specs.Trees.{atom};
ghost use Rattle.cb_forms.specs.Words.{token_of};
ghost use Rattle.cb_forms.specs.declared.token.Token.TheVariants as token;
ghost use Rattle.cb_laws.specs.Words.{is_word};

/// A string as it is shown, between quotes, reads as one item, the string, whatever its bytes. So does an integer. A symbol
/// does where its bytes are a word that reads as a symbol: the symbol `3`, as `(sym-cat 3)` makes it, would read as the
/// integer.
pub fn what_is_shown_reads_back()
    ensures string { (bytes : List ℕ)
        → items (quoted_bytes (value.Str bytes)) ≡ Ok (atom (token.Str bytes)) ∷ [] }
    ensures integer { (n : ℤ) → fits_64_bits n ≡ true
        → items (quoted_bytes (value.Int n)) ≡ Ok (atom (token.Int n)) ∷ [] }
    ensures symbol { (bytes : List ℕ) → is_word bytes ≡ true
        → token_of bytes ≡ Ok (token.Symbol bytes)
        → items (quoted_bytes (value.Symbol bytes)) ≡ Ok (atom (token.Symbol bytes)) ∷ [] }
{}
