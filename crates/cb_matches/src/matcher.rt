//! Matchers.
ghost use Rattle.std.specs.Prelude.{◌≡◌, None, false, true, IfOk, IsErr, IsSome, OnOk, is_err};
ghost use Rattle.cb_rules.specs.Elements.{branches_of};
ghost use Rattle.cb_facts.specs.FactLists.{IsAbsent, fact_at};
ghost use Rattle.cb_matches.specs.Changes.{HaveNumbers, IsAbove, IsDelta, IsNumber, IsRestart, TellsNumbers};
ghost use Rattle.cb_matches.specs.Networks.{bindings_of, restarted, with_one, with_rule, without_one, without_rule};

use crate::delta::Delta;
use crate::key::Key;
use cb_exprs::Env;
use cb_facts::{Fact, FactList};
use cb_fit::Meter;
use cb_forms::NoMemory;
use cb_rules::Ce;

/// Rules and facts, and which facts match which rules.
///
/// Each call that changes the rules or the facts answers which matches went by it and which came, in the order of their keys. It
/// counts the tests of patterns with the meter that it is handed. `T` is the mark of these meters: a matcher has no `T`, so it
/// can make none of its own.
///
/// Each match has a number, from when it comes to when it goes. Mostly no other match of its branch has the same; contracts don't say
/// so.
///
/// Growth is refused as `NoMemory`. From then on each such call is refused, and so is `bindings`; nothing is promised of `facts`.
pub trait Matcher<T> {
    ghost use Rattle.std.specs.Prelude.{Bool};
    ghost use Rattle.cb_matches.specs.Changes.{Numbers};
    ghost use Rattle.cb_matches.specs.Networks.{Network};

    // its rules and its facts
    ghost network: { Self → Network };

    // the numbers of the matches
    ghost numbers: { Self → Numbers };

    // whether a call that changes them was refused
    ghost is_failed: { Self → Bool };

    /// Adds a rule by its branches, under a number above those of all rules that are there.
    fn add_rule(
        &mut self,
        id: u64,
        branches: Vec<Vec<Ce<T>>>,
        meter: &mut Meter<T>,
    ) -> Result<Delta, NoMemory>
        requires { IsAbove id (network self.old).rules }
        ensures network { OnOk result
            (network self.new ≡ with_rule id (branches_of branches.items) (network self.old)) }
        ensures delta { IfOk result
            (IsDelta (network self.old) (with_rule id (branches_of branches.items) (network self.old))) }
        ensures numbers { IfOk result (TellsNumbers (IsNumber (numbers self.old)) (IsNumber (numbers self.new))) }
        ensures failed { is_failed self.new ≡ is_err result }
        ensures once { is_failed self.old ≡ true → IsErr result };

    /// Takes a rule away, if there is one with this number.
    fn drop_rule(&mut self, id: u64) -> Result<Delta, NoMemory>
        ensures network { OnOk result (network self.new ≡ without_rule id (network self.old)) }
        ensures delta { IfOk result
            (IsDelta (network self.old) (without_rule id (network self.old))) }
        ensures numbers { IfOk result (TellsNumbers (IsNumber (numbers self.old)) (IsNumber (numbers self.new))) }
        ensures failed { is_failed self.new ≡ is_err result }
        ensures once { is_failed self.old ≡ true → IsErr result };

    /// Adds a fact under an index that no fact has. It is equal to no fact that is there.
    fn assert(&mut self, ix: u64, fact: Fact, meter: &mut Meter<T>) -> Result<Delta, NoMemory>
        requires free { fact_at (network self.old).facts ix ≡ None }
        requires absent { IsAbsent (network self.old).facts fact }
        ensures network { OnOk result (network self.new ≡ with_one ix fact (network self.old)) }
        ensures delta { IfOk result
            (IsDelta (network self.old) (with_one ix fact (network self.old))) }
        ensures numbers { IfOk result (TellsNumbers (IsNumber (numbers self.old)) (IsNumber (numbers self.new))) }
        ensures failed { is_failed self.new ≡ is_err result }
        ensures once { is_failed self.old ≡ true → IsErr result };

    /// Takes away the fact with this index, which is there.
    fn retract(&mut self, ix: u64, meter: &mut Meter<T>) -> Result<Delta, NoMemory>
        requires { IsSome (fact_at (network self.old).facts ix) }
        ensures network { OnOk result (network self.new ≡ without_one ix (network self.old)) }
        ensures delta { IfOk result
            (IsDelta (network self.old) (without_one ix (network self.old))) }
        ensures numbers { IfOk result (TellsNumbers (IsNumber (numbers self.old)) (IsNumber (numbers self.new))) }
        ensures failed { is_failed self.new ≡ is_err result }
        ensures once { is_failed self.old ≡ true → IsErr result };

    /// Takes all facts away. The matches over no facts all come anew, and nothing is told of those that went.
    fn restart(&mut self, meter: &mut Meter<T>) -> Result<Delta, NoMemory>
        ensures network { OnOk result (network self.new ≡ restarted (network self.old)) }
        ensures delta { IfOk result (IsRestart (restarted (network self.old))) }
        ensures numbers { IfOk result (λ delta. HaveNumbers (IsNumber (numbers self.new)) delta.come.items delta.come_numbers.items) }
        ensures failed { is_failed self.new ≡ is_err result }
        ensures once { is_failed self.old ≡ true → IsErr result };

    /// What variables have by the match with this key, or nothing where there is no such match.
    fn bindings(&self, key: &Key) -> Result<Env, NoMemory>
        ensures env { IfOk result (λ env. env ≡ bindings_of (network self.now) key.now) }
        ensures once { is_failed self.now ≡ true → IsErr result };

    /// The facts.
    fn facts(&self) -> &FactList
        ensures { result.now ≡ (network self.now).facts };

    /// Whether a call that changes the rules or the facts was refused.
    fn failed(&self) -> bool
        ensures { result ≡ is_failed self.now };
}
