//! Laws of the transcript and of faults. Each is the contract of a function that does nothing.
ghost use Rattle.std.specs.Prelude.{◌≡◌, ◌≢◌, ◌≤◌, true, false, ℕ, List, [], ◌∷◌, ◌++◌, Some, Ok, Err, map, ◌<◌, length};
ghost use Rattle.cb_exprs.specs.GlobalTerms.{GlobalTerm};
ghost use Rattle.cb_forms.specs.Items.{items, over, whole, fitting, rest};
ghost use Rattle.cb_forms.specs.Laws.{BeginsWith};
ghost use Rattle.cb_forms.specs.Lines.{open_line};
ghost use Rattle.cb_forms.specs.Trees.{Reading};
ghost use Rattle.cb_forms.specs.declared.fault.Fault.{Fault};
ghost use Rattle.cb_requests.specs.Requests as request;
ghost use Rattle.cb_session.specs.Actions.{acted, requested};
ghost use Rattle.cb_session.specs.ItemLines.{all_on, placed_fitting, placed_whole, too_long_at};
ghost use Rattle.cb_session.specs.Laws.{EndsWithFault, KeepsDefinitions};
ghost use Rattle.cb_session.specs.Places.{all_places, places_so_far};
ghost use Rattle.cb_session.specs.Setups.{Setup};
ghost use Rattle.cb_session.specs.States.{State};
ghost use Rattle.cb_session.specs.Transcripts.{added, added_at_end, begun, so_far, complete, executed, transcript, too_long};
ghost use Rattle.cb_session.specs.declared.status.Ending.TheVariants as ending;
ghost use Rattle.cb_session.specs.declared.status.Status.{Status};
ghost use Rattle.cb_templates.specs.Slots.{SlotShape};

/// Before its first byte a script has written nothing. What it has written so far is a beginning of what it writes
/// however it goes on.
pub fn what_is_written_stays()
    ensures begun { (setup : Setup) → so_far setup [] ≡ begun setup }
    ensures so_far { (setup : Setup) (p r : List ℕ)
        → BeginsWith (so_far setup p).written (so_far setup (p ++ r)).written }
    ensures whole { (setup : Setup) (p r : List ℕ)
        → BeginsWith (so_far setup p).written (transcript setup (p ++ r)) }
{}

/// What bytes add to the transcript so far stands right after it, and what the end adds completes the transcript.
pub fn what_is_added_stands_after_what_is_written()
    ensures so_far { (setup : Setup) (p q : List ℕ)
        → (so_far setup (p ++ q)).written ≡ (so_far setup p).written ++ added setup p q }
    ensures whole { (setup : Setup) (p : List ℕ)
        → transcript setup p ≡ (so_far setup p).written ++ added_at_end setup p }
{}

/// A script that has ended before its end doesn't end as one that was carried out to its end.
pub fn what_ends_early_is_not_done()
    ensures { (setup : Setup) (p : List ℕ) (status : Status)
        → (so_far setup p).status ≡ Some status → status.ending ≢ ending.Done }
{}

/// A script that has ended has ended so, whatever follows.
pub fn what_has_ended_counts_alone()
    ensures so_far { (setup : Setup) (p r : List ℕ) (status : Status)
        → (so_far setup p).status ≡ Some status
        → so_far setup (p ++ r) ≡ so_far setup p }
    ensures whole { (setup : Setup) (p r : List ℕ) (status : Status)
        → (so_far setup p).status ≡ Some status
        → complete setup (p ++ r) ≡ so_far setup p }
{}

/// Each item of a script has a line. An item that a byte completes, or that is open at the end, begins on the line on which the open
/// item begins before that, and so does one that a byte makes too long.
pub fn each_item_has_its_line()
    ensures whole { (p : List ℕ) → map (λ x. x.1) (placed_whole p) ≡ whole p }
    ensures fitting { (limit : ℕ) (s : List ℕ)
        → map (λ x. x.1) (placed_fitting limit s) ≡ fitting limit s }
    ensures completed { (p : List ℕ) (b : ℕ) (rs : List Reading)
        → whole (p ++ b ∷ []) ≡ whole p ++ rs
        → placed_whole (p ++ b ∷ []) ≡ placed_whole p ++ all_on (open_line p) rs }
    ensures at_the_end { (limit : ℕ) (p : List ℕ) (rs : List Reading) → over limit p ≡ false
        → items p ≡ whole p ++ rs
        → placed_fitting limit p ≡ placed_whole p ++ all_on (open_line p) rs }
    ensures too_long { (limit : ℕ) (p : List ℕ) (b : ℕ) → 1 ≤ limit → over limit p ≡ false
        → over limit (p ++ b ∷ []) ≡ true
        → too_long_at limit (p ++ b ∷ []) ≡ open_line p }
{}

/// The places of a script that has ended are those, whatever follows.
pub fn known_places_stay()
    ensures so_far { (setup : Setup) (p r : List ℕ) (status : Status)
        → (so_far setup p).status ≡ Some status
        → places_so_far setup (p ++ r) ≡ places_so_far setup p }
    ensures whole { (setup : Setup) (p r : List ℕ) (status : Status)
        → (so_far setup p).status ≡ Some status
        → all_places setup (p ++ r) ≡ places_so_far setup p }
{}

/// An item that is refused, be it a `deftemplate` or another, changes nothing but the mark for status 1. Nor does a
/// `defglobal` that ends with a fault: either all of its globals are defined or none. A template that isn't refused is
/// defined without a fault. Whatever item ends with a fault, each `deffacts` and the initial expressions of the globals stay.
pub fn a_fault_changes_nothing_else()
    ensures refused { (s : State) (r : Reading) (fault : Fault)
        → requested s r ≡ Err fault
        → (executed s r).state ≡ record s { is_faulted = true } }
    ensures globals { (s : State) (r : Reading) (fault : Fault) (gs : List GlobalTerm)
        → requested s r ≡ Ok (request.define_globals gs)
        → EndsWithFault s r fault
        → (executed s r).state ≡ record s { is_faulted = true } }
    ensures template { (s : State) (r : Reading) (fault : Fault)
        (template : List ℕ × List SlotShape) → requested s r ≡ Ok (request.define_template template)
        → EndsWithFault s r fault → ⊥ }
    ensures kept { (s : State) (r : Reading) (fault : Fault)
        → EndsWithFault s r fault
        → KeepsDefinitions s (executed s r).state }
{}

/// What an item has written when it ends is a beginning of all that it writes, also where it ends with a fault or at a
/// limit.
pub fn what_an_item_writes_comes_first()
    ensures { (s : State) (r : Reading) → BeginsWith (acted r s).written (executed s r).written }
{}

/// `(facts)`, `(agenda)` and `(rules)` leave everything as it is.
pub fn a_listing_changes_nothing()
    ensures facts { (s : State) (r : Reading)
        → requested s r ≡ Ok request.list_facts
        → (executed s r).state ≡ s }
    ensures agenda { (s : State) (r : Reading)
        → requested s r ≡ Ok request.list_agenda
        → (executed s r).state ≡ s }
    ensures rules { (s : State) (r : Reading)
        → requested s r ≡ Ok request.list_rules
        → (executed s r).state ≡ s }
{}

/// No item leaves more turns than there were, a run, a `reset` and a `clear` among them. So all loops of a script together take at
/// most as many as its limit allows.
pub fn no_turn_comes_back()
    ensures item { (s : State) (r : Reading)
        → (executed s r).state.world.turns ≤ s.world.turns }
    ensures script { (setup : Setup) (script : List ℕ)
        → (complete setup script).state.world.turns ≤ setup.max_turns }
{}

/// As far as it has come, a script is the same as the whole script of the bytes before its open item, which is one item. If
/// that item has more bytes than an item may have, the line of the limit follows, unless the script has ended before.
pub fn what_is_not_carried_out_is_open()
    ensures fits { (setup : Setup) (p before : List ℕ)
        → p ≡ before ++ rest p → length (rest p) ≤ setup.max_form
        → so_far setup p ≡ complete setup before }
    ensures too_long { (setup : Setup) (p before : List ℕ)
        → p ≡ before ++ rest p → setup.max_form < length (rest p)
        → so_far setup p ≡ too_long (complete setup before) }
    ensures one { (p : List ℕ) → rest p ≢ [] → (r : Reading) × (items (rest p) ≡ r ∷ []) }
{}
