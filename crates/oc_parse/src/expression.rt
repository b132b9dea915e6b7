//! Expressions.
ghost use Rattle.std.specs.Prelude.{◌<◌, ◌≤◌, length, map, OnOk};
ghost use Rattle.oc_tree.specs.View.{arg_view, expr_view};
ghost use Rattle.oc_grammar.specs.Limits.{the_depths};
ghost use Rattle.oc_grammar.specs.ReadingExpressions.{prefix_by, element_by, unary_here, named_at, prefixed_at, inner_at, inner_args_at, inner_sensor_at, sensor_at, args_at, arg_at, part_at, level_at, whole_at};
ghost use Rattle.oc_parse.specs.Parts.{operations_at, operand_at, operation_at, enclosed_at, after, ended_at};
ghost use Rattle.oc_parse.specs.Steps.{Reads, ReadsExpr, left};

use crate::reader::Reader;
use crate::stop::Stop;
use crate::trees::{add_arg, element, joined, prefixed};
use oc_lex::{Kind, Mark, Word};
use oc_tree::name::Name;
use oc_tree::tree::{Arg, BinaryOp, Call, Expr, UnaryOp};

/// How many brackets and prefix operators of a whole expression may be in one another.
pub const BRACKETS: u32 = 33;

/// How many binary operators a whole expression may have.
const OPERATORS: u32 = 255;

/// The level of comparisons.
const COMPARISON: u32 = 3;

/// The level of all expressions.
const ALL: u32 = 5;

impl Reader<'_> {
    /// Takes a number, truth value, name, input, call, element or target, an expression in
    /// parentheses, or a prefix operator with what it stands before.
    #[cycle(expression)]
    #[tactic(auto, unfolding(oc_grammar::specs::ReadingExpressions::unary_here, oc_grammar::specs::ReadingExpressions::named_at))]
    fn unary(&mut self, room: u32, operators: &mut u32) -> Result<Expr, Stop>
        ensures exact { ReadsExpr expr_view result operators.new (left self.new)
            (unary_here the_depths room operators.old (left self.old)) }
        ensures shorter { OnOk result (length self.new.rest.now < length self.old.rest.now) }
    {
        let token = self.next()?;
        match token.kind {
            Kind::Number { value } => Ok(Expr::Number { value }),
            Kind::Name => {
                let name = self.name_of(token)?;
                self.name_expression(room, operators, name)
            }
            Kind::Word(Word::True) => Ok(Expr::Truth { value: true }),
            Kind::Word(Word::False) => Ok(Expr::Truth { value: false }),
            Kind::Word(Word::Sense) => {
                self.expect(Mark::OpenRound)?;
                let sensor = self.inner_sensor(room)?;
                Ok(Expr::Sense { sensor })
            }
            Kind::Mark(Mark::Star) => {
                let name = self.name()?;
                Ok(Expr::Deref { name })
            }
            Kind::Mark(Mark::OpenRound) => self.enclosed(room, operators, Mark::CloseRound),
            Kind::Mark(Mark::Minus) => self.prefix_expression(room, operators, UnaryOp::Neg),
            Kind::Mark(Mark::Not) => self.prefix_expression(room, operators, UnaryOp::Not),
            _ => Err(self.refuse_last()),
        }
    }

    /// Takes what may follow a name: the arguments of a call or an index.
    #[cycle(expression)]
    #[tactic(auto, unfolding(oc_grammar::specs::ReadingExpressions::named_at))]
    fn name_expression(&mut self, room: u32, operators: &mut u32, name: Name) -> Result<Expr, Stop>
        ensures exact { ReadsExpr expr_view result operators.new (left self.new)
            (named_at the_depths room name operators.old (left self.old)) }
        ensures shorter { OnOk result (length self.new.rest.now ≤ length self.old.rest.now) }
    {
        if self.take(Mark::OpenRound) {
            let args = self.inner_args(room)?;
            let call = Call {
                function: name,
                args,
            };
            return Ok(Expr::Call { call });
        }
        if self.take(Mark::OpenSquare) {
            return self.element_expression(room, operators, name);
        }
        Ok(Expr::Variable { name })
    }

    /// Takes the place and the `]` of an element, behind the array's name and the `[`.
    #[cycle(expression)]
    fn element_expression(
        &mut self,
        room: u32,
        operators: &mut u32,
        array: Name,
    ) -> Result<Expr, Stop>
        ensures exact { ReadsExpr expr_view result operators.new (left self.new)
            (element_by (inner_at the_depths room) array operators.old (left self.old)) }
        ensures shorter { OnOk result (length self.new.rest.now < length self.old.rest.now) }
    {
        let place = self.enclosed(room, operators, Mark::CloseSquare)?;
        element(self.alloc, array, place)
    }

    /// Takes what a prefix operator stands before.
    #[cycle(expression)]
    #[tactic(auto, unfolding(oc_grammar::specs::ReadingExpressions::prefixed_at))]
    fn prefix_expression(
        &mut self,
        room: u32,
        operators: &mut u32,
        op: UnaryOp,
    ) -> Result<Expr, Stop>
        ensures exact { ReadsExpr expr_view result operators.new (left self.new)
            (prefix_by (prefixed_at the_depths room) op operators.old (left self.old)) }
        ensures shorter { OnOk result (length self.new.rest.now < length self.old.rest.now) }
    {
        if room == 0 {
            return Err(self.too_many_brackets());
        }
        let inner = self.unary(room - 1, operators)?;
        prefixed(self.alloc, op, inner)
    }

    /// Takes the expression behind the bracket just taken, and the bracket behind it.
    #[cycle(expression)]
    fn enclosed(&mut self, room: u32, operators: &mut u32, close: Mark) -> Result<Expr, Stop>
        ensures exact { ReadsExpr expr_view result operators.new (left self.new)
            (enclosed_at close room operators.old (left self.old)) }
        ensures shorter { OnOk result (length self.new.rest.now < length self.old.rest.now) }
    {
        let inner = self.inner(room, operators)?;
        match self.expect(close) {
            Ok(()) => Ok(inner),
            Err(error) => {
                // Written out, here and wherever a tree is let go: by `?` the drop of each form of
                // an expression would be proved there.
                drop(inner);
                Err(error)
            }
        }
    }

    /// Takes the expression behind the bracket just taken.
    #[cycle(expression)]
    #[tactic(auto, unfolding(oc_grammar::specs::ReadingExpressions::inner_at))]
    fn inner(&mut self, room: u32, operators: &mut u32) -> Result<Expr, Stop>
        ensures exact { ReadsExpr expr_view result operators.new (left self.new)
            (inner_at the_depths room operators.old (left self.old)) }
        ensures shorter { OnOk result (length self.new.rest.now < length self.old.rest.now) }
    {
        if room == 0 {
            return Err(self.too_many_brackets());
        }
        self.level(room - 1, operators, ALL)
    }

    /// Takes the arguments behind the `(` just taken, in an expression.
    #[cycle(expression)]
    #[tactic(auto, unfolding(oc_grammar::specs::ReadingExpressions::inner_args_at))]
    fn inner_args(&mut self, room: u32) -> Result<Vec<Arg>, Stop>
        ensures exact { Reads (λ args. map arg_view args.items) result (left self.new)
            (inner_args_at the_depths room (left self.old)) }
        ensures shorter { OnOk result (length self.new.rest.now < length self.old.rest.now) }
    {
        if room == 0 {
            return Err(self.too_many_brackets());
        }
        self.args(room - 1)
    }

    /// Takes the sensor and the `)` behind the `(` just taken, in an expression.
    #[tactic(auto, unfolding(oc_grammar::specs::ReadingExpressions::inner_sensor_at))]
    fn inner_sensor(&mut self, room: u32) -> Result<Name, Stop>
        ensures exact { Reads (λ x. x) result (left self.new)
            (inner_sensor_at room (left self.old)) }
        ensures shorter { OnOk result (length self.new.rest.now < length self.old.rest.now) }
    {
        if room == 0 {
            return Err(self.too_many_brackets());
        }
        self.sensor()
    }

    /// Takes a sensor's name and the `)`.
    #[tactic(auto, unfolding(oc_grammar::specs::ReadingExpressions::sensor_at))]
    pub fn sensor(&mut self) -> Result<Name, Stop>
        ensures exact { Reads (λ x. x) result (left self.new) (sensor_at (left self.old)) }
        ensures shorter { OnOk result (length self.new.rest.now < length self.old.rest.now) }
    {
        let sensor = self.name()?;
        self.expect(Mark::CloseRound)?;
        Ok(sensor)
    }

    /// Takes the arguments of a call up to its `)`, where brackets have this room.
    #[cycle(expression)]
    pub fn args(&mut self, room: u32) -> Result<Vec<Arg>, Stop>
        ensures exact { Reads (λ args. map arg_view args.items) result (left self.new)
            (args_at the_depths room (left self.old)) }
        ensures shorter { OnOk result (length self.new.rest.now < length self.old.rest.now) }
    {
        let mut args = Vec::new(self.alloc);
        self.add_args(room, &mut args)?;
        Ok(args)
    }

    /// Takes the arguments of a call up to its `)`, and adds them to those that are there.
    #[cycle(expression)]
    fn add_args(&mut self, room: u32, args: &mut Vec<Arg>) -> Result<(), Stop>
        ensures exact { Reads (λ x. map arg_view args.new.items) result (left self.new)
            (after (map arg_view args.old.items) (args_at the_depths room (left self.old))) }
        ensures shorter { OnOk result (length self.new.rest.now < length self.old.rest.now) }
    {
        while !self.take(Mark::CloseRound) {
            let arg = self.arg(room)?;
            add_arg(args, arg)?;
            if !self.take(Mark::Comma) {
                return self.expect(Mark::CloseRound);
            }
        }
        Ok(())
    }

    /// Takes an argument of a call: an expression, where brackets have this room, `&x` or `&mut x`.
    #[cycle(expression)]
    #[tactic(auto, unfolding(oc_grammar::specs::ReadingExpressions::arg_at, oc_grammar::specs::ReadingExpressions::part_at, oc_grammar::specs::Reading::take_word))]
    fn arg(&mut self, room: u32) -> Result<Arg, Stop>
        ensures exact { Reads arg_view result (left self.new)
            (arg_at the_depths room (left self.old)) }
        ensures shorter { OnOk result (length self.new.rest.now < length self.old.rest.now) }
    {
        if !self.take(Mark::Ampersand) {
            let value = self.part(room)?;
            return Ok(Arg::Value { value });
        }
        if self.take_word(Word::Mutable) {
            let name = self.name()?;
            return Ok(Arg::Mutable { name });
        }
        let name = self.name()?;
        Ok(Arg::Shared { name })
    }

    /// Takes an expression that is a whole one for its binary operators.
    #[cycle(expression)]
    #[tactic(auto, unfolding(oc_grammar::specs::ReadingExpressions::part_at))]
    fn part(&mut self, room: u32) -> Result<Expr, Stop>
        ensures exact { Reads expr_view result (left self.new)
            (part_at the_depths room (left self.old)) }
        ensures shorter { OnOk result (length self.new.rest.now < length self.old.rest.now) }
    {
        let mut operators = OPERATORS;
        self.level(room, &mut operators, ALL)
    }

    /// Takes an expression of this level: 0 a unary, 1 a product, 2 a sum, 3 a comparison, 4 joined
    /// by `&&`, 5 joined by `||`.
    #[cycle(expression)]
    fn level(&mut self, room: u32, operators: &mut u32, level: u32) -> Result<Expr, Stop>
        requires { level ≤ ALL }
        ensures exact { ReadsExpr expr_view result operators.new (left self.new)
            (level_at the_depths level room operators.old (left self.old)) }
        ensures shorter { OnOk result (length self.new.rest.now < length self.old.rest.now) }
    {
        let mut tree = self.unary(room, operators)?;
        for below in 0..level {
            if !self.operator_stands() {
                return Ok(tree);
            }
            tree = self.operations(room, operators, below + 1, tree)?;
        }
        Ok(tree)
    }

    /// Takes the operators of a level above 0 that stand behind a tree of the level below, with
    /// what they stand before.
    #[cycle(expression)]
    fn operations(
        &mut self,
        room: u32,
        operators: &mut u32,
        level: u32,
        first: Expr,
    ) -> Result<Expr, Stop>
        requires above { 0 < level }
        requires within { level ≤ ALL }
        ensures exact { ReadsExpr expr_view result operators.new (left self.new)
            (operations_at level room (expr_view first) operators.old (left self.old)) }
        ensures shorter { OnOk result (length self.new.rest.now ≤ length self.old.rest.now) }
    {
        if level == COMPARISON {
            return self.comparison(room, operators, first);
        }
        let mut tree = first;
        while let Some(op) = self.operator(level) {
            tree = self.operation(room, operators, level, op, tree)?;
        }
        Ok(tree)
    }

    /// Takes the comparison that may stand behind a sum, with the other sum.
    #[cycle(expression)]
    #[tactic(auto, unfolding(oc_grammar::specs::ReadingExpressions::chain))]
    fn comparison(&mut self, room: u32, operators: &mut u32, first: Expr) -> Result<Expr, Stop>
        ensures exact { ReadsExpr expr_view result operators.new (left self.new)
            (operations_at COMPARISON room (expr_view first) operators.old (left self.old)) }
        ensures shorter { OnOk result (length self.new.rest.now ≤ length self.old.rest.now) }
    {
        match self.operator(COMPARISON) {
            Some(op) => self.operation(room, operators, COMPARISON, op, first),
            None => Ok(first),
        }
    }

    /// Takes the operand behind the operator just taken, which stands behind its first operand.
    #[cycle(expression)]
    #[inline(always)]
    fn operation(
        &mut self,
        room: u32,
        operators: &mut u32,
        level: u32,
        op: BinaryOp,
        first: Expr,
    ) -> Result<Expr, Stop>
        requires above { 0 < level }
        requires within { level ≤ ALL }
        ensures exact { ReadsExpr expr_view result operators.new (left self.new)
            (operation_at level room op (expr_view first) operators.old (left self.old)) }
        ensures shorter { OnOk result (length self.new.rest.now < length self.old.rest.now) }
    {
        match self.operand(room, operators, level) {
            Ok(second) => joined(self.alloc, op, first, second),
            Err(error) => {
                drop(first);
                Err(error)
            }
        }
    }

    /// Takes what the operator of this level just taken stands before.
    #[cycle(expression)]
    fn operand(&mut self, room: u32, operators: &mut u32, level: u32) -> Result<Expr, Stop>
        requires above { 0 < level }
        requires within { level ≤ ALL }
        ensures exact { ReadsExpr expr_view result operators.new (left self.new)
            (operand_at level room operators.old (left self.old)) }
        ensures shorter { OnOk result (length self.new.rest.now < length self.old.rest.now) }
    {
        self.spend(operators)?;
        self.level(room, operators, level - 1)
    }

    /// Takes a whole expression.
    #[tactic(auto, unfolding(oc_grammar::specs::ReadingExpressions::whole_at))]
    pub fn expression(&mut self) -> Result<Expr, Stop>
        ensures exact { Reads expr_view result (left self.new)
            (whole_at the_depths (left self.old)) }
        ensures shorter { OnOk result (length self.new.rest.now < length self.old.rest.now) }
    {
        self.part(BRACKETS)
    }

    /// Takes a whole expression and the mark behind it.
    #[inline(always)]
    #[tactic(auto, unfolding(crate::specs::Parts::ended_at))]
    pub fn ended_expression(&mut self, end: Mark) -> Result<Expr, Stop>
        ensures exact { Reads expr_view result (left self.new) (ended_at end (left self.old)) }
        ensures shorter { OnOk result (length self.new.rest.now < length self.old.rest.now) }
    {
        let value = self.expression()?;
        match self.expect(end) {
            Ok(()) => Ok(value),
            Err(error) => {
                drop(value);
                Err(error)
            }
        }
    }
}
