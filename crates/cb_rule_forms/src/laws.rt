//! Laws of rules as they are written: each is the contract of a function that does nothing.
ghost use Rattle.std.specs.Map.{lookup};
ghost use Rattle.std.specs.List.{Contains, slice_get};
ghost use Rattle.std.specs.Prelude.{◌≡◌, ◌+◌, ◌*◌, ◌++◌, ℕ, List, Some, is_some, length, map, true};
ghost use Rattle.std.specs.Str.{bytes_eq};
ghost use Rattle.cb_facts.specs.declared.value.Value.{Value};
ghost use Rattle.cb_fit.specs.Ways.{slot_at};
ghost use Rattle.cb_forms.specs.Members.{call_of};
ghost use Rattle.cb_forms.specs.Trees.{Tree, Trees};
ghost use Rattle.cb_rule_forms.specs.Patterns.{slot_in};
ghost use Rattle.cb_rule_forms.specs.Branches.{ways_through, ways_through_all};
ghost use Rattle.cb_rule_forms.specs.Choices.{IsLeftOfAll};
ghost use Rattle.cb_rule_forms.specs.WrittenElements.{Written, Writtens, written};
ghost use Rattle.cb_facts.specs.Places.{place_in};
ghost use Rattle.cb_templates.specs.Slots.{SlotShape, names};
ghost use Rattle.cb_templates.specs.Templates.{Templates};

/// Where a fact has the slots of the template by which a pattern was read, a slot of the pattern asks for the value of the
/// fact's slot with its name.
pub fn a_slot_is_found_by_its_name()
    ensures named { (templates : Templates) (shapes : List SlotShape) (t : Tree) (name : List ℕ)
        (ts : Trees)
        → call_of t ≡ Some (name, ts) → (slot_in templates shapes t).name ≡ name }
    ensures found { (templates : Templates) (shapes : List SlotShape) (t : Tree) (name : List ℕ)
        (ts : Trees) (pairs : List (List ℕ × Value)) → call_of t ≡ Some (name, ts)
        → is_some (place_in (names shapes) name) ≡ true → map (λ p. p.0) pairs ≡ names shapes
        → slot_at (slot_in templates shapes t).place pairs
        ≡ lookup (λ n. bytes_eq n name) pairs }
{}

/// The branches of a left side are just what the choices at its `or`s leave of it, in this order: those with the first choice
/// at the first element come first, and with it all choices at the elements after it, one after another.
pub fn the_branches_are_all_choices()
    ensures listed { (ws : Writtens) (way : List Written)
        → IsLeftOfAll ws way → Contains (ways_through_all ws) way }
    ensures chosen { (ws : Writtens) (way : List Written)
        → Contains (ways_through_all ws) way → IsLeftOfAll ws way }
    ensures order { (w : Written) (ws : Writtens) (i j : ℕ) (own others : List Written)
        → slice_get (ways_through w) i ≡ Some own → slice_get (ways_through_all ws) j ≡ Some others
        → slice_get (ways_through_all (written w ws)) (i * length (ways_through_all ws) + j)
        ≡ Some (own ++ others) }
{}
