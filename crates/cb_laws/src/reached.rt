//! What holds of every state that a script can reach.
ghost use Rattle.std.specs.Prelude.{◌≤◌, ℕ, List};
ghost use Rattle.cb_forms.specs.Trees.{Reading};
ghost use Rattle.cb_knowledge_base.specs.KnowledgeBase.{greatest_index};
ghost use Rattle.cb_laws.specs.Reached.{AreWellKept};
ghost use Rattle.cb_session.specs.Setups.{Setup};
ghost use Rattle.cb_session.specs.States.{State};
ghost use Rattle.cb_session.specs.Transcripts.{complete, executed, so_far};

/// Whatever the limits, the numbers given before, the script and how far it has come: no two facts are equal, their indices rise, and none comes after
/// the index given last. No two slots of a template have one name. A fact of a relation with a template has the template's
/// slots in order, a multifield in each multislot and in no other slot; each other fact is ordered.
pub fn facts_and_templates_are_well_kept()
    ensures item { (s : State) (r : Reading)
        → AreWellKept s.world.memory s.world.templates
        → AreWellKept (executed s r).state.world.memory (executed s r).state.world.templates }
    ensures so_far { (setup : Setup) (p : List ℕ) → setup.index ≤ greatest_index
        → AreWellKept (so_far setup p).state.world.memory
        (so_far setup p).state.world.templates }
    ensures whole { (setup : Setup) (script : List ℕ) → setup.index ≤ greatest_index
        → AreWellKept (complete setup script).state.world.memory
        (complete setup script).state.world.templates }
{}
