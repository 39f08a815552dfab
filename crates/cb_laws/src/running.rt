//! Items are carried out one after another.
ghost use Rattle.std.specs.Prelude.{◌≡◌, ◌++◌, ◌∷◌, ℕ, List, [], None, false};
ghost use Rattle.cb_forms.specs.Items.{items, over, whole};
ghost use Rattle.cb_forms.specs.Trees.{Reading};
ghost use Rattle.cb_laws.specs.Running.{IsCarriedOut};
ghost use Rattle.cb_session.specs.Setups.{Setup};
ghost use Rattle.cb_session.specs.Transcripts.{complete, so_far};

/// Where the script has not ended yet and no item is too long, the next item that has ended is carried out: it does to the
/// state what it does, and what it writes comes after all that was written. So it is with a last item that only the end of the
/// script ends.
pub fn an_item_that_has_ended_is_carried_out()
    ensures next { (setup : Setup) (p q : List ℕ) (r : Reading)
        → over setup.max_form (p ++ q) ≡ false → whole (p ++ q) ≡ whole p ++ r ∷ []
        → (so_far setup p).status ≡ None
        → IsCarriedOut (so_far setup p) r (so_far setup (p ++ q)) }
    ensures last { (setup : Setup) (s : List ℕ) (r : Reading)
        → over setup.max_form s ≡ false → items s ≡ whole s ++ r ∷ []
        → (so_far setup s).status ≡ None → IsCarriedOut (so_far setup s) r (complete setup s) }
    ensures none { (setup : Setup) (s : List ℕ)
        → over setup.max_form s ≡ false → items s ≡ whole s
        → complete setup s ≡ so_far setup s }
{}
