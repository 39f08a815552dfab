//! Laws of texts and their items: each is the contract of a function that does nothing.
ghost use Rattle.std.specs.Prelude.{◌≡◌, ◌<◌, ◌≤◌, ℕ, Bool, true, false, List, [], ◌∷◌, ◌++◌, Ok, Err, length, map};
ghost use Rattle.std.specs.List.{flat_map, All};
ghost use Rattle.cb_forms.specs.Cutting.{AreCut, cut, joined};
ghost use Rattle.cb_forms.specs.FirstFaults.{FirstFault};
ghost use Rattle.cb_forms.specs.Bytes.{begins_with, opening};
ghost use Rattle.cb_forms.specs.Items.{items, parts, Reads, is_gap, is_open, is_open_list, whole, rest, over, fitting};
ghost use Rattle.cb_forms.specs.Laws.{BeginsWith, OpensAfter, without_gaps, depth_of};
ghost use Rattle.cb_forms.specs.Lists.{levels_of, list_reading, put_first, written};
ghost use Rattle.cb_forms.specs.Pieces.{lexemes};
ghost use Rattle.cb_forms.specs.Trees.{Tree, Reading};
ghost use Rattle.cb_forms.specs.declared.fault.Fault.{Fault};
ghost use Rattle.cb_forms.specs.declared.fault.Fault.TheVariants.{NestingTooDeep};
ghost use Rattle.cb_forms.specs.declared.lexeme.Lexeme.{Lexeme};

/// A list is cut in one way into parts that each go on as long as they take what comes, and the parts, put together, are the
/// list. Parts at the front of a cut are cut so too.
pub fn a_list_is_cut_in_one_way<T>()
    ensures together { (takes : List T → T → Bool) (s : List T) → joined (cut takes s) ≡ s }
    ensures each { (takes : List T → T → Bool) (s : List T) → AreCut takes (cut takes s) }
    ensures once { (takes : List T → T → Bool) (parts : List (List T))
        → AreCut takes parts → cut takes (joined parts) ≡ parts }
    ensures front { (takes : List T → T → Bool) (parts more : List (List T))
        → AreCut takes (parts ++ more) → AreCut takes parts }
{}

/// Each text reads as its items, and as nothing else.
pub fn each_text_reads_once()
    ensures reads { (s : List ℕ) → Reads s (items s) }
    ensures once { (s : List ℕ) (rs : List Reading) → Reads s rs → rs ≡ items s }
{}

/// The items that have ended in a text are the first ones of every text that begins with it, and have ended in it too.
pub fn what_has_ended_stays()
    ensures stays { (p r : List ℕ) → BeginsWith (whole p) (items (p ++ r)) }
    ensures ended { (p r : List ℕ) → BeginsWith (whole p) (whole (p ++ r)) }
{}

/// A text with an item that is longer than the limit has one however it goes on.
pub fn too_long_stays()
    ensures { (limit : ℕ) (p r : List ℕ) → over limit p ≡ true → over limit (p ++ r) ≡ true }
{}

/// After an item that is longer than the limit nothing counts, and where there is none all items fit. What has ended
/// before there is one is among those that fit; and where an item may have a byte at all, it is all of them once one is too
/// long.
pub fn what_fits_is_settled()
    ensures settled { (limit : ℕ) (p r : List ℕ) → over limit p ≡ true
        → fitting limit (p ++ r) ≡ fitting limit p }
    ensures all { (limit : ℕ) (s : List ℕ) → over limit s ≡ false → fitting limit s ≡ items s }
    ensures ended { (limit : ℕ) (p r : List ℕ) → over limit p ≡ false
        → BeginsWith (whole p) (fitting limit (p ++ r)) }
    ensures cut_off { (limit : ℕ) (p : List ℕ) (b : ℕ) → 1 ≤ limit → over limit p ≡ false
        → over limit (p ++ b ∷ []) ≡ true → fitting limit (p ++ b ∷ []) ≡ whole p }
{}

/// What is open of a text stands at its end, after the items that have ended. Unless an item is too long, it has no
/// more bytes than the limit. It is no gap between items.
pub fn what_is_open_fits()
    ensures fits { (limit : ℕ) (p : List ℕ) → over limit p ≡ false → length (rest p) ≤ limit }
    ensures after { (p : List ℕ) → (before : List ℕ) × OpensAfter p before }
    ensures no_gap { (w : List ℕ) → is_open w ≡ true → is_gap w ≡ false }
{}

/// A form is the tree that is written, whatever stands after it and whichever blanks and comments stand in it, unless
/// its lists nest more than 200 deep. No two trees are written alike.
pub fn a_form_is_as_it_is_written()
    ensures first { (t : Tree) (ls : List Lexeme)
        → levels_of (written t ++ ls) ≡ put_first t (levels_of ls) }
    ensures read { (t : Tree) (s : List ℕ) → without_gaps (lexemes s) ≡ written t → depth_of t ≤ 200
        → list_reading (lexemes s) ≡ Ok t }
    ensures deep { (t : Tree) (s : List ℕ) → without_gaps (lexemes s) ≡ written t → 200 < depth_of t
        → list_reading (lexemes s) ≡ Err NestingTooDeep }
    ensures unique { (t u : Tree) → written t ≡ written u → t ≡ u }
{}

/// A text without a fault is its forms as they are written, with blanks and comments between the lexemes: no item is
/// lost or made up, and their order is kept. And such a text reads as those forms, unless lists nest more than 200 deep.
pub fn a_text_is_its_forms_as_written()
    ensures written { (s : List ℕ) (ts : List Tree) → items s ≡ map Ok ts
        → without_gaps (lexemes s) ≡ flat_map written ts }
    ensures read { (s : List ℕ) (ts : List Tree) → All (λ t. depth_of t ≤ 200) ts
        → without_gaps (lexemes s) ≡ flat_map written ts → items s ≡ map Ok ts }
{}

/// The fault that a list is read as is the first in it, by what stands before: an atom's own fault, or a `(` that has at least
/// 200 more `(` than `)` before it. And where there is such a first fault, the list is read as it: a text that is one closed
/// list has that fault as its one item.
pub fn the_first_fault_counts()
    ensures found { (s : List ℕ) (f : Fault) → list_reading (lexemes s) ≡ Err f → FirstFault s f }
    ensures only { (s : List ℕ) (f : Fault) → FirstFault s f → list_reading (lexemes s) ≡ Err f }
    ensures item { (s : List ℕ) (f : Fault) → parts s ≡ s ∷ [] → begins_with opening s ≡ true
        → is_open_list s ≡ false → FirstFault s f → items s ≡ Err f ∷ [] }
{}
