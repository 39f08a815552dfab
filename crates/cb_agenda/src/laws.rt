//! Laws of conflict resolution: each is the contract of a function that does nothing.
ghost use Rattle.std.specs.Prelude.{◌≡◌, ◌≢◌, Some, map, option_map, slice_get, true};
ghost use Rattle.std.specs.List.{Contains};
ghost use Rattle.std.specs.List.Sorted.{IsPermutation};
ghost use Rattle.cb_agenda.specs.Agendas.{Activation, AgendaValue, Entries, agenda_list, firing_order, key_and_salience, popped, top_of};
ghost use Rattle.cb_agenda.specs.Orders.{IsInOrder};
ghost use Rattle.cb_agenda.specs.Ranks.{fires_before};
ghost use Rattle.cb_agenda.specs.declared.strategy.Strategy.{Strategy};

/// What fires is the top of the agenda, and the top is an activation that fires before each other one: by its
/// salience, and of one salience by the order of stamps of the strategy.
pub fn what_fires_is_the_top()
    ensures fires { (a : AgendaValue)
        → (popped a).1 ≡ option_map (λ e. e.1) (top_of a.strategy a.entries) }
    ensures due { (s : Strategy) (es : Entries) (top : Activation) → top_of s es ≡ Some top
        → Contains es top }
    ensures before_others { (s : Strategy) (es : Entries) (top e : Activation)
        → top_of s es ≡ Some top → Contains es e → top.0 ≢ e.0 → fires_before s top.0 e.0 ≡ true }
{}

/// After a change of strategy what fires is the top by the strategy of now, whenever it came.
pub fn a_strategy_orders_all_that_is_due()
    ensures { (a : AgendaValue) (s : Strategy) → (popped (record a { strategy = s })).1
        ≡ option_map (λ e. e.1) (top_of s a.entries) }
{}

/// The agenda is listed in the order of firing: it has the same activations, none stands behind one that it fires
/// before, and the first is the top.
pub fn the_list_is_in_the_order_of_firing()
    ensures listed { (a : AgendaValue)
        → agenda_list a ≡ map key_and_salience (firing_order a.strategy a.entries) }
    ensures same { (s : Strategy) (es : Entries) → IsPermutation es (firing_order s es) }
    ensures order { (s : Strategy) (es : Entries)
        → IsInOrder (λ e f. fires_before s e.0 f.0) (firing_order s es) }
    ensures top { (s : Strategy) (es : Entries) → slice_get (firing_order s es) 0 ≡ top_of s es }
{}
