//! How often rules fire.
ghost use Rattle.std.specs.Prelude.{◌≡◌, ◌≢◌, ◌⊎◌, ◌+◌, ◌≤◌, ℕ, ℤ, List, Option, None, Some, Err, false, true};
ghost use Rattle.std.specs.List.{Contains};
ghost use Rattle.cb_actions.specs.Actions.{carried};
ghost use Rattle.cb_actions.specs.Changes.{moved};
ghost use Rattle.cb_actions.specs.Runs.{run, spent};
ghost use Rattle.cb_actions.specs.Worlds.{World};
ghost use Rattle.cb_actions.specs.declared.act.EarlyEnd.TheVariants as ended;
ghost use Rattle.cb_actions.specs.declared.act.Limit.TheVariants.{Firings, Numbers};
ghost use Rattle.cb_agenda.specs.Agendas.{AgendaValue, changed, is_due, popped};
ghost use Rattle.cb_exprs.specs.Terms.{Term};
ghost use Rattle.cb_knowledge_base.specs.KnowledgeBase.{Memory};
ghost use Rattle.cb_laws.specs.Firing.{AreMatches, HasCome, IsProper, IsThere};
ghost use Rattle.cb_matches.specs.Keys.{KeyValue};
ghost use Rattle.cb_session.specs.Setups.{Setup};
ghost use Rattle.cb_session.specs.Transcripts.{complete, so_far};

/// A run never leaves more firings than there were, and each match that fires takes one of them: no action gives one back. Of
/// the firings that are left, `(run n)` takes at most n. Where none is left and a match is due, `(run)` ends at the limit of
/// firings. Nothing else in a script gives firings back either: there are never more left than the limit.
pub fn a_run_stays_within_its_firings()
    ensures never_rise { (asked : Option ℕ) (s : World)
        → (run asked s).state.firings ≤ s.firings }
    ensures one_each { (left n : ℕ) (k : KeyValue) (s : World)
        → (spent left n k s).state.firings ≡ left }
    ensures at_most { (n : ℕ) (s : World)
        → s.firings ≤ (run (Some n) s).state.firings + n }
    ensures none_left { (s : World) (k : KeyValue) → s.firings ≡ 0
        → (popped s.agenda).1 ≡ Some k
        → (run None s).answer ≡ Err (ended.Limit Firings) }
    ensures so_far { (setup : Setup) (p : List ℕ)
        → (so_far setup p).state.world.firings ≤ setup.max_firings }
    ensures whole { (setup : Setup) (script : List ℕ)
        → (complete setup script).state.world.firings ≤ setup.max_firings }
{}

/// A rule fires once for one match, unless the match went and came again. What fires is taken out of the agenda and is not due
/// any more, and all else is due as before. Whatever changes facts or rules, what is due after it was due before it, or else
/// its match was not there before the change and is there after it; and what went and didn't come is not due. In every state
/// that a script can reach no match is due twice, and so it is after each change and each firing.
pub fn a_rule_fires_once_for_one_match()
    ensures taken_out { (a b : AgendaValue) (k : KeyValue) → IsProper a
        → popped a ≡ (b, Some k) → is_due b k ≡ false }
    ensures others { (a b : AgendaValue) (k other : KeyValue) → IsProper a
        → popped a ≡ (b, Some k) → other ≢ k → is_due b other ≡ is_due a other }
    ensures change { (next : Memory) (line : List ℕ) (s : World) (k : KeyValue)
        → is_due (moved next line s).state.agenda k ≡ true
        → (is_due s.agenda k ≡ true) ⊎ HasCome s.memory.network next.network k }
    ensures changed { (a : AgendaValue) (gone come : List KeyValue)
        (saliences : List ℤ) (k : KeyValue)
        → is_due (changed a gone come saliences) k ≡ true
        → ((is_due a k ≡ true) × (Contains gone k → ⊥)) ⊎ Contains come k }
    ensures so_far { (setup : Setup) (p : List ℕ)
        → IsProper (so_far setup p).state.world.agenda }
    ensures whole { (setup : Setup) (script : List ℕ)
        → IsProper (complete setup script).state.world.agenda }
    ensures proper_taken { (a : AgendaValue) → IsProper a → IsProper (popped a).0 }
    ensures proper_changed { (a : AgendaValue) (gone come : List KeyValue) (saliences : List ℤ)
        → IsProper a → IsProper (changed a gone come saliences) }
{}

/// What is due is a match that is there, in every state of a script that has not ended: a change of facts or rules puts on the
/// agenda what comes, and takes off what goes. So what fires is a match of the facts that are there then. Only at the limit of
/// numbers, with which the script ends, may something be due that is no match any more.
pub fn what_is_due_is_a_match()
    ensures fires { (s : World) (k : KeyValue) → AreMatches s
        → (popped s.agenda).1 ≡ Some k → IsThere s.memory.network k }
    ensures taken_out { (s : World) → AreMatches s
        → AreMatches (record s { agenda = (popped s.agenda).0 }) }
    ensures change { (next : Memory) (line : List ℕ) (s : World) → AreMatches s
        → (moved next line s).answer ≢ Err (ended.Limit Numbers)
        → AreMatches (moved next line s).state }
    ensures expression { (t : Term) (s : World) → AreMatches s
        → (carried t s).answer ≢ Err (ended.Limit Numbers)
        → AreMatches (carried t s).state }
    ensures so_far { (setup : Setup) (p : List ℕ) → (so_far setup p).status ≡ None
        → AreMatches (so_far setup p).state.world }
{}
