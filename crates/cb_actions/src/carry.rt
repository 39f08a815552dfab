//! Carrying out expressions.
ghost use Rattle.std.specs.Prelude.{◌≡◌, [], None, OnOk, Some, false};
ghost use Rattle.cb_actions.specs.Actions.{carried, carried_all, carried_values};
ghost use Rattle.cb_actions.specs.Acts.{give};
ghost use Rattle.cb_actions.specs.Effects.{truth_of, valued};
ghost use Rattle.cb_actions.specs.Internal.{items_answered};
ghost use Rattle.cb_actions.specs.Went.{Quietly, Went};
ghost use Rattle.cb_eval.specs.Constants.{false_symbol};
ghost use Rattle.cb_exprs.specs.Terms.{term_of, terms_of};
ghost use Rattle.cb_exprs.specs.Terms as term;

use crate::act::{Break, EarlyEnd};
use crate::world::{World, constant, ends};
use cb_eval::{decides, is_true};
use cb_exprs::{Effect, Expr};
use cb_facts::Value;
use cb_forms::{Fault, Out, Sink};
use cb_knowledge_base::Mark;
use cb_matches::Matcher;
use cb_words::Function;

impl<M: Matcher<Mark>> World<M> {
    /// Carries out an expression. The answer is its value, if it has one.
    ///
    /// What it writes is put as it goes, so that what comes before a fault or a limit stands. Growth is refused as
    /// `NoMemory`, and then a beginning of what it writes was put.
    #[cycle(carrying)]
    pub fn carry_out<K: Sink>(
        &mut self,
        expr: &Expr,
        out: &mut Out<K>,
    ) -> Result<Option<Value>, Break>
        requires { out.old.fault ≡ false }
        ensures went { Went K.writes out.old out.new self.new result
            (carried (term_of expr.now) self.old) }
        ensures fine { OnOk result (out.new.fault ≡ false) }
    {
        match expr {
            Expr::Constant(value) => constant(value),
            Expr::Variable(name) => self.variable(name),
            Expr::Global(name) => self.global(name),
            Expr::Call(function, args) => self.carry_call(*function, args, out),
            Expr::Effect(effect, args) => self.carry_effect(effect, args, out),
            Expr::If(test, then_do, else_do) => self.carry_if(test, then_do, else_do, out),
            Expr::While(test, action) => self.carry_while(test, action, out),
            Expr::Actions(actions) => self.carry_all(actions, out),
        }
    }

    /// What a function returns for these arguments.
    #[cycle(carrying)]
    fn carry_call<K: Sink>(
        &mut self,
        function: Function,
        args: &[Expr],
        out: &mut Out<K>,
    ) -> Result<Option<Value>, Break>
        requires { out.old.fault ≡ false }
        ensures went { Went K.writes out.old out.new self.new result
            (carried (term.call function (terms_of args.now)) self.old) }
        ensures fine { OnOk result (out.new.fault ≡ false) }
    {
        // Most calls have two arguments, and need no vector.
        if let [first, second] = args {
            let first = self.carry_value(first, out)?;
            if decides(function, &first) {
                return self.call(function, &[first]);
            }
            let second = self.carry_value(second, out)?;
            return self.call(function, &[first, second]);
        }
        let values = self.carry_values(Some(function), args, out)?;
        self.call(function, values.as_slice())
    }

    /// Does with the values of expressions what a call with an effect does.
    #[cycle(carrying)]
    fn carry_effect<K: Sink>(
        &mut self,
        effect: &Effect,
        args: &[Expr],
        out: &mut Out<K>,
    ) -> Result<Option<Value>, Break>
        requires { out.old.fault ≡ false }
        ensures went { Went K.writes out.old out.new self.new result
            (carried (term.effect effect.now (terms_of args.now)) self.old) }
        ensures fine { OnOk result (out.new.fault ≡ false) }
    {
        if let [only] = args {
            let value = self.carry_value(only, out)?;
            return self.perform_with(effect, value, out);
        }
        let values = self.carry_values(None, args, out)?;
        self.perform(effect, values, out)
    }

    /// Carries out one of two expressions, as a test decides.
    #[cycle(carrying)]
    fn carry_if<K: Sink>(
        &mut self,
        test: &Expr,
        then_do: &Expr,
        else_do: &Expr,
        out: &mut Out<K>,
    ) -> Result<Option<Value>, Break>
        requires { out.old.fault ≡ false }
        ensures went { Went K.writes out.old out.new self.new result
            (carried (term.choose (term_of test.now) (term_of then_do.now) (term_of else_do.now))
            self.old) }
        ensures fine { OnOk result (out.new.fault ≡ false) }
    {
        if self.holds(test, out)? {
            self.carry_out(then_do, out)
        } else {
            self.carry_out(else_do, out)
        }
    }

    /// Carries out an expression as long as a test holds, and takes a turn each time.
    #[cycle(carrying)]
    fn carry_while<K: Sink>(
        &mut self,
        test: &Expr,
        action: &Expr,
        out: &mut Out<K>,
    ) -> Result<Option<Value>, Break>
        requires { out.old.fault ≡ false }
        ensures went { Went K.writes out.old out.new self.new result
            (carried (term.repeat (term_of test.now) (term_of action.now)) self.old) }
        ensures fine { OnOk result (out.new.fault ≡ false) }
    {
        while self.holds(test, out)? {
            self.take_turn()?;
            drop(self.carry_out(action, out)?);
        }
        self.end_loop()
    }

    /// What a loop returns whose test does not hold.
    fn end_loop(&mut self) -> Result<Option<Value>, Break>
        ensures { Quietly self.new result (give (Some false_symbol) self.old) }
    {
        Ok(Some(self.no()?))
    }

    /// The value of an expression; one that has none is CB17.
    #[cycle(carrying)]
    pub(crate) fn carry_value<K: Sink>(
        &mut self,
        expr: &Expr,
        out: &mut Out<K>,
    ) -> Result<Value, Break>
        requires { out.old.fault ≡ false }
        ensures went { Went K.writes out.old out.new self.new result
            (valued (carried (term_of expr.now)) self.old) }
        ensures fine { OnOk result (out.new.fault ≡ false) }
    {
        match self.carry_out(expr, out)? {
            Some(value) => Ok(value),
            None => Err(Break::Ended(EarlyEnd::Fault(Fault::WrongType))),
        }
    }

    /// Whether the value of a test counts as true.
    #[cycle(carrying)]
    fn holds<K: Sink>(&mut self, test: &Expr, out: &mut Out<K>) -> Result<bool, Break>
        requires { out.old.fault ≡ false }
        ensures went { Went K.writes out.old out.new self.new result
            (truth_of (carried (term_of test.now)) self.old) }
        ensures fine { OnOk result (out.new.fault ≡ false) }
    {
        let value = self.carry_value(test, out)?;
        Ok(is_true(&value))
    }

    /// The values of expressions, left to right. Those of a call of a function end with the first that decides it.
    #[cycle(carrying)]
    pub(crate) fn carry_values<K: Sink>(
        &mut self,
        function: Option<Function>,
        exprs: &[Expr],
        out: &mut Out<K>,
    ) -> Result<Vec<Value>, Break>
        requires { out.old.fault ≡ false }
        ensures went { Went K.writes out.old out.new self.new (items_answered result)
            (carried_values function [] (terms_of exprs.now) self.old) }
        ensures fine { OnOk result (out.new.fault ≡ false) }
    {
        let mut values = Vec::new(self.alloc);
        for expr in exprs {
            let value = self.carry_value(expr, out)?;
            let is_last = ends(function, &value);
            values.push(value)?;
            if is_last {
                return Ok(values);
            }
        }
        Ok(values)
    }

    /// Expressions, one after another. The answer is the last one's, and FALSE where there is none.
    #[cycle(carrying)]
    pub(crate) fn carry_all<K: Sink>(
        &mut self,
        exprs: &[Expr],
        out: &mut Out<K>,
    ) -> Result<Option<Value>, Break>
        requires { out.old.fault ≡ false }
        ensures went { Went K.writes out.old out.new self.new result
            (carried_all (Some false_symbol) (terms_of exprs.now) self.old) }
        ensures fine { OnOk result (out.new.fault ≡ false) }
    {
        let mut last = Some(self.no()?);
        for expr in exprs {
            last = self.carry_out(expr, out)?;
        }
        Ok(last)
    }
}
