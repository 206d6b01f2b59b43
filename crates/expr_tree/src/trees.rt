//! Checks of the trees of expressions, each by those of its parts.

ghost use Rattle.std.specs.Prelude.{◌≡◌, ◌∷◌, List, map, IfOk};
ghost use Rattle.checks.specs.Checks.{all_behind, found, grouped};
ghost use Rattle.checks.specs.Logs.{made};
ghost use Rattle.expr_check.specs.Messages.{orders};
ghost use Rattle.expr_check.specs.Expressions.{binary};
ghost use Rattle.expr_check.specs.Phrases as phrases;
ghost use Rattle.swift_ast.specs.Leaves as leaves;
ghost use Rattle.expr_tree.specs.CanCheck.{CanCheck};
ghost use Rattle.expr_tree.specs.Callees.{argument_view, arguments_view};
ghost use Rattle.expr_tree.specs.Fronts.{and_operands, arguments_behind, call_check, checks_in, front_view, or_operands, product_operands, sum_operands};

use crate::arguments::{label_of, with_argument};
use crate::calls::call_given;
use crate::front::Front;
use crate::given::Given;
use crate::postfixes::{
    as_callee, as_value, atom_token, callee_name, cmp_operator_token, first_place, integer,
    operated, product_operator_token, signed, string, sum_operator_token, truth,
};
use dep_key::NoMemory;
use expr_check::{Log, Scope, Typed, self_value};
use std::alloc::Global;
use swift_ast::{
    And, Arg, Args, Atom, Cmp, Expr, Leaf, Postfix, PostfixPart, Prefix, Product, ProductOperator,
    Sum, SumOperator,
};
use type_rules::Answers;

/// Checks of trees in a scope. They take the check of an expression inside as a parameter, so that each is proved by itself.
#[derive(Clone, Copy)]
pub struct Trees<'a, A, F> {
    alloc: Global,
    answers: &'a A,
    scope: &'a Scope,

    /// How many expressions may stand one inside the other.
    limit: usize,
    expr: F,
}

impl<
    'a,
    A: Answers,
    F: Fn(Global, &A, &mut Log, &Scope, &Expr, usize) -> Result<Option<Typed>, NoMemory>,
> Trees<'a, A, F> {
    /// An expression inside. Where none may stand inside any more, that is answered as want of memory.
    fn inner(&self, log: &mut Log, tree: &Expr) -> Result<Option<Typed>, NoMemory>
        requires nests { CanCheck A.meanings self.now.limit (F.pre self.now.expr) (F.post self.now.expr) }
        ensures { IfOk result (λ got. (got, log.new) ≡ made orders (A.meanings self.now.answers.now) ((phrases.expr_phrase tree.now).check self.now.scope.now) log.old) }
    {
        if self.limit == 0 {
            return Err(NoMemory);
        }
        (self.expr)(
            self.alloc,
            self.answers,
            log,
            self.scope,
            tree,
            self.limit - 1,
        )
    }

    /// An atom or a name, as what stands before parts.
    #[tactic(auto, using(crate::proofs::TreeLemmas::integer_stands, crate::proofs::TreeLemmas::string_stands, crate::proofs::TreeLemmas::true_stands, crate::proofs::TreeLemmas::false_stands, crate::proofs::TreeLemmas::name_stands, crate::proofs::TreeLemmas::self_stands, crate::proofs::TreeLemmas::parentheses_stand))]
    fn front<'t>(&self, log: &mut Log, atom: &'t Atom) -> Result<Front<'t>, NoMemory>
        requires nests { CanCheck A.meanings self.now.limit (F.pre self.now.expr) (F.post self.now.expr) }
        ensures { IfOk result (λ front. (first : leaves.Leaf) (parts : List phrases.Part) → made orders (A.meanings self.now.answers.now) (phrases.extended self.now.scope.now first (front_view front) parts) log.new ≡ made orders (A.meanings self.now.answers.now) (phrases.extended self.now.scope.now first ((phrases.atom_opening atom.now).front self.now.scope.now) parts) log.old) }
    {
        match atom {
            Atom::Name(t) => Ok(Front::Name(t)),
            Atom::Integer(t) => {
                let value = integer(self.alloc, t)?;
                Ok(Front::Value(Some(value)))
            }
            Atom::StringText(t) => {
                let value = string(self.alloc, t)?;
                Ok(Front::Value(Some(value)))
            }
            Atom::True(_) => {
                let value = truth(self.alloc, true)?;
                Ok(Front::Value(Some(value)))
            }
            Atom::False(_) => {
                let value = truth(self.alloc, false)?;
                Ok(Front::Value(Some(value)))
            }
            Atom::SelfValue(t) => {
                let value = self_value(self.alloc, self.answers, log, self.scope, t)?;
                Ok(Front::Value(value))
            }
            Atom::Parentheses(parts) => {
                let (_, tree, _) = parts.get();
                let value = self.inner(log, tree)?;
                Ok(Front::Value(value))
            }
        }
    }

    /// An argument.
    #[tactic(auto, using(crate::proofs::ArgumentLemmas::none_given, crate::proofs::ArgumentLemmas::one_given))]
    fn arg(&self, log: &mut Log, tree: &Arg) -> Result<Option<Given>, NoMemory>
        requires nests { CanCheck A.meanings self.now.limit (F.pre self.now.expr) (F.post self.now.expr) }
        ensures { IfOk result (λ got. (argument_view got, log.new) ≡ made orders (A.meanings self.now.answers.now) (phrases.given self.now.scope.now (phrases.arg_meant tree.now)) log.old) }
    {
        match self.inner(log, &tree.value)? {
            None => Ok(None),
            Some(value) => {
                let first = first_place(&tree.value);
                let label = label_of(self.alloc, &tree.label)?;
                Ok(Some(Given {
                    label,
                    first,
                    value,
                }))
            }
        }
    }

    /// Arguments behind the first one.
    #[tactic(auto, using(crate::proofs::TreeLemmas::args_turn, crate::proofs::TreeLemmas::args_end))]
    fn args_behind(
        &self,
        log: &mut Log,
        before: Option<Vec<Given>>,
        more: &[(Leaf, Arg)],
    ) -> Result<Option<Vec<Given>>, NoMemory>
        requires nests { CanCheck A.meanings self.now.limit (F.pre self.now.expr) (F.post self.now.expr) }
        ensures { IfOk result (λ got. (arguments_view got, log.new) ≡ made orders (A.meanings self.now.answers.now) (all_behind (arguments_view before) (map (phrases.given self.now.scope.now) (arguments_behind more.now))) log.old) }
    {
        let mut givens = before;
        for (_, tree) in more {
            let given = self.arg(log, tree)?;
            givens = with_argument(givens, given)?;
        }
        Ok(givens)
    }

    /// Arguments from left to right.
    #[tactic(auto, using(crate::proofs::TreeLemmas::args_none, crate::proofs::TreeLemmas::args_made))]
    fn args(&self, log: &mut Log, tree: &Args) -> Result<Option<Vec<Given>>, NoMemory>
        requires nests { CanCheck A.meanings self.now.limit (F.pre self.now.expr) (F.post self.now.expr) }
        ensures { IfOk result (λ got. (arguments_view got, log.new) ≡ made orders (A.meanings self.now.answers.now) (phrases.givens self.now.scope.now (phrases.args_meant tree.now)) log.old) }
    {
        match &tree.list {
            None => Ok(Some(Vec::new(self.alloc))),
            Some((first, more)) => {
                let given = self.arg(log, first)?;
                let before = with_argument(Some(Vec::new(self.alloc)), given)?;
                let givens = self.args_behind(log, before, more.as_slice())?;
                Ok(givens)
            }
        }
    }

    /// A call. Arguments are checked also where what is called has an error.
    #[tactic(auto, using(crate::proofs::Chains::call_made))]
    fn called(
        &self,
        log: &mut Log,
        first: &Leaf,
        front: Front<'_>,
        tree: &Args,
    ) -> Result<Option<Typed>, NoMemory>
        requires nests { CanCheck A.meanings self.now.limit (F.pre self.now.expr) (F.post self.now.expr) }
        ensures { IfOk result (λ got. (got, log.new) ≡ made orders (A.meanings self.now.answers.now) (call_check self.now.scope.now first.now (front_view front.entry) (phrases.args_meant tree.now)) log.old) }
    {
        let name = callee_name(first, &front);
        let callee = as_callee(self.alloc, self.answers, log, self.scope, first, front)?;
        let givens = self.args(log, tree)?;
        let value = call_given(
            self.alloc,
            self.answers,
            log,
            self.scope,
            first,
            name,
            callee,
            givens,
        )?;
        Ok(value)
    }

    /// What stands before the parts behind one part.
    #[tactic(auto, using(crate::proofs::TreeLemmas::member_part, crate::proofs::TreeLemmas::call_part))]
    fn part<'t>(
        &self,
        log: &mut Log,
        first: &Leaf,
        front: Front<'t>,
        part: &'t PostfixPart,
    ) -> Result<Front<'t>, NoMemory>
        requires nests { CanCheck A.meanings self.now.limit (F.pre self.now.expr) (F.post self.now.expr) }
        ensures { IfOk result (λ next. (parts : List phrases.Part) → made orders (A.meanings self.now.answers.now) (phrases.extended self.now.scope.now first.now (front_view next) parts) log.new ≡ made orders (A.meanings self.now.answers.now) (phrases.extended self.now.scope.now first.now (front_view front.entry) (phrases.part_meant part.now ∷ parts)) log.old) }
    {
        match part {
            PostfixPart::Member(_, name) => {
                let value = as_value(self.alloc, self.answers, log, self.scope, first, front)?;
                Ok(Front::MemberOf(value, name))
            }
            PostfixPart::Call(args) => {
                let value = self.called(log, first, front, args.get())?;
                Ok(Front::Value(value))
            }
        }
    }

    /// What stands before all parts behind an atom, with them.
    #[tactic(auto, using(crate::proofs::TreeLemmas::parts_turn, crate::proofs::TreeLemmas::parts_end))]
    fn parts<'t>(
        &self,
        log: &mut Log,
        first: &Leaf,
        front: Front<'t>,
        parts: &'t [PostfixPart],
    ) -> Result<Option<Typed>, NoMemory>
        requires nests { CanCheck A.meanings self.now.limit (F.pre self.now.expr) (F.post self.now.expr) }
        ensures { IfOk result (λ got. (got, log.new) ≡ made orders (A.meanings self.now.answers.now) (phrases.extended self.now.scope.now first.now (front_view front.entry) (map phrases.part_meant parts.now)) log.old) }
    {
        let mut front = front;
        for tree in parts {
            front = self.part(log, first, front, tree)?;
        }
        let value = as_value(self.alloc, self.answers, log, self.scope, first, front)?;
        Ok(value)
    }

    /// An atom and what stands behind it.
    #[tactic(auto, using(crate::proofs::TreeLemmas::postfix_made))]
    fn postfix(&self, log: &mut Log, tree: &Postfix) -> Result<Option<Typed>, NoMemory>
        requires nests { CanCheck A.meanings self.now.limit (F.pre self.now.expr) (F.post self.now.expr) }
        ensures { IfOk result (λ got. (got, log.new) ≡ made orders (A.meanings self.now.answers.now) ((phrases.postfix_phrase tree.now).check self.now.scope.now) log.old) }
    {
        let first = atom_token(&tree.atom);
        let front = self.front(log, &tree.atom)?;
        let value = self.parts(log, first, front, tree.parts.as_slice())?;
        Ok(value)
    }

    /// An operand and the operator before it.
    #[tactic(auto, using(crate::proofs::TreeLemmas::prefix_lone, crate::proofs::TreeLemmas::prefix_made))]
    fn prefix(&self, log: &mut Log, tree: &Prefix) -> Result<Option<Typed>, NoMemory>
        requires nests { CanCheck A.meanings self.now.limit (F.pre self.now.expr) (F.post self.now.expr) }
        ensures { IfOk result (λ got. (got, log.new) ≡ made orders (A.meanings self.now.answers.now) ((phrases.prefix_phrase tree.now).check self.now.scope.now) log.old) }
    {
        let operand = self.postfix(log, &tree.postfix)?;
        match &tree.operator {
            None => Ok(operand),
            Some(t) => {
                let value = signed(self.alloc, self.answers, log, t.get(), operand)?;
                Ok(value)
            }
        }
    }

    /// Operands behind a left one, with the operators before them.
    #[tactic(auto, using(crate::proofs::TreeLemmas::product_turn, crate::proofs::TreeLemmas::product_end))]
    fn product_behind(
        &self,
        log: &mut Log,
        first: Option<Typed>,
        more: &[(ProductOperator, Prefix)],
    ) -> Result<Option<Typed>, NoMemory>
        requires nests { CanCheck A.meanings self.now.limit (F.pre self.now.expr) (F.post self.now.expr) }
        ensures { IfOk result (λ got. (got, log.new) ≡ made orders (A.meanings self.now.answers.now) (grouped binary (found first) (checks_in self.now.scope.now (product_operands more.now))) log.old) }
    {
        let mut left = first;
        for (operator, right) in more {
            let right = self.prefix(log, right)?;
            left = operated(
                self.alloc,
                self.answers,
                log,
                product_operator_token(operator),
                left,
                right,
            )?;
        }
        Ok(left)
    }

    /// Factors and the operators between them.
    #[tactic(auto, using(crate::proofs::TreeLemmas::product_made))]
    fn product(&self, log: &mut Log, tree: &Product) -> Result<Option<Typed>, NoMemory>
        requires nests { CanCheck A.meanings self.now.limit (F.pre self.now.expr) (F.post self.now.expr) }
        ensures { IfOk result (λ got. (got, log.new) ≡ made orders (A.meanings self.now.answers.now) ((phrases.product_phrase tree.now).check self.now.scope.now) log.old) }
    {
        let left = self.prefix(log, &tree.first)?;
        let value = self.product_behind(log, left, tree.more.as_slice())?;
        Ok(value)
    }

    /// Operands behind a left one, with the operators before them.
    #[tactic(auto, using(crate::proofs::TreeLemmas::sum_turn, crate::proofs::TreeLemmas::sum_end))]
    fn sum_behind(
        &self,
        log: &mut Log,
        first: Option<Typed>,
        more: &[(SumOperator, Product)],
    ) -> Result<Option<Typed>, NoMemory>
        requires nests { CanCheck A.meanings self.now.limit (F.pre self.now.expr) (F.post self.now.expr) }
        ensures { IfOk result (λ got. (got, log.new) ≡ made orders (A.meanings self.now.answers.now) (grouped binary (found first) (checks_in self.now.scope.now (sum_operands more.now))) log.old) }
    {
        let mut left = first;
        for (operator, right) in more {
            let right = self.product(log, right)?;
            left = operated(
                self.alloc,
                self.answers,
                log,
                sum_operator_token(operator),
                left,
                right,
            )?;
        }
        Ok(left)
    }

    /// Terms and the operators between them.
    #[tactic(auto, using(crate::proofs::TreeLemmas::sum_made))]
    fn sum(&self, log: &mut Log, tree: &Sum) -> Result<Option<Typed>, NoMemory>
        requires nests { CanCheck A.meanings self.now.limit (F.pre self.now.expr) (F.post self.now.expr) }
        ensures { IfOk result (λ got. (got, log.new) ≡ made orders (A.meanings self.now.answers.now) ((phrases.sum_phrase tree.now).check self.now.scope.now) log.old) }
    {
        let left = self.product(log, &tree.first)?;
        let value = self.sum_behind(log, left, tree.more.as_slice())?;
        Ok(value)
    }

    /// Sums and the operator that compares them.
    #[tactic(auto, using(crate::proofs::TreeLemmas::cmp_lone, crate::proofs::TreeLemmas::cmp_made))]
    fn cmp(&self, log: &mut Log, tree: &Cmp) -> Result<Option<Typed>, NoMemory>
        requires nests { CanCheck A.meanings self.now.limit (F.pre self.now.expr) (F.post self.now.expr) }
        ensures { IfOk result (λ got. (got, log.new) ≡ made orders (A.meanings self.now.answers.now) ((phrases.cmp_phrase tree.now).check self.now.scope.now) log.old) }
    {
        let left = self.sum(log, &tree.left)?;
        match &tree.right {
            None => Ok(left),
            Some(behind) => {
                let (operator, right) = behind.get();
                let right = self.sum(log, right)?;
                let t = cmp_operator_token(operator);
                let value = operated(self.alloc, self.answers, log, t, left, right)?;
                Ok(value)
            }
        }
    }

    /// Operands behind a left one, with the operators before them.
    #[tactic(auto, using(crate::proofs::TreeLemmas::and_turn, crate::proofs::TreeLemmas::and_end))]
    fn and_behind(
        &self,
        log: &mut Log,
        first: Option<Typed>,
        more: &[(Leaf, Cmp)],
    ) -> Result<Option<Typed>, NoMemory>
        requires nests { CanCheck A.meanings self.now.limit (F.pre self.now.expr) (F.post self.now.expr) }
        ensures { IfOk result (λ got. (got, log.new) ≡ made orders (A.meanings self.now.answers.now) (grouped binary (found first) (checks_in self.now.scope.now (and_operands more.now))) log.old) }
    {
        let mut left = first;
        for (operator, right) in more {
            let right = self.cmp(log, right)?;
            left = operated(self.alloc, self.answers, log, operator, left, right)?;
        }
        Ok(left)
    }

    /// Comparisons with `&&` between them.
    #[tactic(auto, using(crate::proofs::TreeLemmas::and_made))]
    fn and(&self, log: &mut Log, tree: &And) -> Result<Option<Typed>, NoMemory>
        requires nests { CanCheck A.meanings self.now.limit (F.pre self.now.expr) (F.post self.now.expr) }
        ensures { IfOk result (λ got. (got, log.new) ≡ made orders (A.meanings self.now.answers.now) ((phrases.and_phrase tree.now).check self.now.scope.now) log.old) }
    {
        let left = self.cmp(log, &tree.first)?;
        let value = self.and_behind(log, left, tree.more.as_slice())?;
        Ok(value)
    }

    /// Operands behind a left one, with the operators before them.
    #[tactic(auto, using(crate::proofs::TreeLemmas::or_turn, crate::proofs::TreeLemmas::or_end))]
    fn expr_behind(
        &self,
        log: &mut Log,
        first: Option<Typed>,
        more: &[(Leaf, And)],
    ) -> Result<Option<Typed>, NoMemory>
        requires nests { CanCheck A.meanings self.now.limit (F.pre self.now.expr) (F.post self.now.expr) }
        ensures { IfOk result (λ got. (got, log.new) ≡ made orders (A.meanings self.now.answers.now) (grouped binary (found first) (checks_in self.now.scope.now (or_operands more.now))) log.old) }
    {
        let mut left = first;
        for (operator, right) in more {
            let right = self.and(log, right)?;
            left = operated(self.alloc, self.answers, log, operator, left, right)?;
        }
        Ok(left)
    }

    /// What `||` stands between.
    #[tactic(auto, using(crate::proofs::TreeLemmas::expr_made))]
    fn expr(&self, log: &mut Log, tree: &Expr) -> Result<Option<Typed>, NoMemory>
        requires nests { CanCheck A.meanings self.now.limit (F.pre self.now.expr) (F.post self.now.expr) }
        ensures { IfOk result (λ got. (got, log.new) ≡ made orders (A.meanings self.now.answers.now) ((phrases.expr_phrase tree.now).check self.now.scope.now) log.old) }
    {
        let left = self.and(log, &tree.first)?;
        let value = self.expr_behind(log, left, tree.more.as_slice())?;
        Ok(value)
    }
}

/// An expression, where no more expressions stand one inside the other than the limit.
fn limited<A: Answers>(
    alloc: Global,
    answers: &A,
    log: &mut Log,
    scope: &Scope,
    tree: &Expr,
    limit: usize,
) -> Result<Option<Typed>, NoMemory>
    ensures { IfOk result (λ got. (got, log.new) ≡ made orders (A.meanings answers.now) ((phrases.expr_phrase tree.now).check scope.now) log.old) }
{
    Trees {
        alloc,
        answers,
        scope,
        limit,
        expr: limited,
    }
    .expr(log, tree)
}

/// Checks an expression in a scope: says its errors, notes the keys that it asks, and gives its type and code where it has no error.
pub fn check_expression<A: Answers>(
    alloc: Global,
    answers: &A,
    log: &mut Log,
    scope: &Scope,
    tree: &Expr,
) -> Result<Option<Typed>, NoMemory>
    ensures { IfOk result (λ got. (got, log.new) ≡ made orders (A.meanings answers.now) ((phrases.expr_phrase tree.now).check scope.now) log.old) }
{
    limited(alloc, answers, log, scope, tree, usize::MAX)
}

/// Checks a call statement's expression.
pub fn check_postfix<A: Answers>(
    alloc: Global,
    answers: &A,
    log: &mut Log,
    scope: &Scope,
    tree: &Postfix,
) -> Result<Option<Typed>, NoMemory>
    ensures { IfOk result (λ got. (got, log.new) ≡ made orders (A.meanings answers.now) ((phrases.postfix_phrase tree.now).check scope.now) log.old) }
{
    Trees {
        alloc,
        answers,
        scope,
        limit: usize::MAX,
        expr: limited,
    }
    .postfix(log, tree)
}
