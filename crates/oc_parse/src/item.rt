//! Declarations, functions and programs.
ghost use Rattle.std.specs.Prelude.{◌≡◌, ◌<◌, ◌≤◌, length, OnOk, MatchResult};
ghost use Rattle.oc_tree.specs.View.{function_view, program_view};
ghost use Rattle.oc_grammar.specs.Limits.{the_depths};
ghost use Rattle.oc_grammar.specs.Programs.{with_sensor, with_port, with_nv, with_function};
ghost use Rattle.oc_grammar.specs.ReadingPrograms.{passing_at, param_at, params_at, scalar_at, result_at, function_at, cells_at, nv_at, declared_at, item_at};
ghost use Rattle.oc_parse.specs.Parts.{declaration_at};
ghost use Rattle.oc_parse.specs.Steps.{Fits, Reads, ReadsTo, from, left};

use crate::reader::Reader;
use crate::statement::{BLOCKS, Parser};
use crate::stop::Stop;
use oc_lex::{Kind, Mark, Word};
use oc_tree::name::Name;
use oc_tree::tree::{Decl, DeclKind, Function, NvDecl, Param, Passing, Program, Scalar};

impl Reader<'_> {
    /// Takes how a parameter is passed.
    #[tactic(auto, unfolding(oc_grammar::specs::ReadingPrograms::passing_at, oc_grammar::specs::Reading::take_word))]
    fn passing(&mut self) -> Passing
        ensures exact { (result, left self.new) ≡ passing_at (left self.old) }
        ensures shorter { length self.new.rest.now ≤ length self.old.rest.now }
    {
        if !self.take(Mark::Ampersand) {
            return Passing::Value;
        }
        if self.take_word(Word::Mutable) {
            Passing::Mutable
        } else {
            Passing::Shared
        }
    }

    /// Takes a parameter: its name, how it is passed, and its type.
    #[tactic(auto, unfolding(oc_grammar::specs::ReadingPrograms::param_at))]
    fn param(&mut self) -> Result<Param, Stop>
        ensures exact { Reads (λ p. p) result (left self.new) (param_at (left self.old)) }
        ensures shorter { OnOk result (length self.new.rest.now < length self.old.rest.now) }
    {
        let name = self.name()?;
        self.expect(Mark::Colon)?;
        let passing = self.passing();
        let kind = self.value_kind()?;
        Ok(Param {
            name,
            passing,
            kind,
        })
    }

    /// Takes the parameters of a function up to their `)`.
    fn params(&mut self) -> Result<Vec<Param>, Stop>
        ensures exact { Reads (λ params. params.items) result (left self.new)
            (params_at (left self.old)) }
        ensures shorter { OnOk result (length self.new.rest.now < length self.old.rest.now) }
    {
        let mut params = Vec::new(self.alloc);
        while !self.take(Mark::CloseRound) {
            params.push(self.param()?)?;
            if !self.take(Mark::Comma) {
                self.expect(Mark::CloseRound)?;
                return Ok(params);
            }
        }
        Ok(params)
    }

    /// Takes the type of a scalar.
    #[tactic(auto, unfolding(oc_grammar::specs::ReadingPrograms::scalar_at))]
    fn scalar(&mut self) -> Result<Scalar, Stop>
        ensures exact { Reads (λ s. s) result (left self.new) (scalar_at (left self.old)) }
        ensures shorter { OnOk result (length self.new.rest.now < length self.old.rest.now) }
    {
        let token = self.next()?;
        match token.kind {
            Kind::Word(Word::Int) => Ok(Scalar::Int),
            Kind::Word(Word::Bool) => Ok(Scalar::Bool),
            _ => Err(self.refuse_last()),
        }
    }

    /// Takes the type of a function's result, if it has one.
    #[tactic(auto, unfolding(oc_grammar::specs::ReadingPrograms::result_at))]
    fn result(&mut self) -> Result<Option<Scalar>, Stop>
        ensures exact { Reads (λ r. r) result (left self.new) (result_at (left self.old)) }
        ensures shorter { OnOk result (length self.new.rest.now ≤ length self.old.rest.now) }
    {
        if !self.take(Mark::Arrow) {
            return Ok(None);
        }
        let scalar = self.scalar()?;
        Ok(Some(scalar))
    }

    /// Takes the type of a nonvolatile variable: its number of words, and whether it is an array.
    #[tactic(auto, unfolding(oc_grammar::specs::ReadingPrograms::cells_at))]
    fn cells(&mut self) -> Result<(u32, bool), Stop>
        ensures exact { Reads (λ c. (c.0, c.1)) result (left self.new) (cells_at (left self.old)) }
        ensures shorter { OnOk result (length self.new.rest.now < length self.old.rest.now) }
    {
        let token = self.next()?;
        match token.kind {
            Kind::Word(Word::Int) => Ok((1, false)),
            Kind::Mark(Mark::OpenSquare) => {
                let words = self.array()?;
                Ok((words, true))
            }
            _ => Err(self.refuse_last()),
        }
    }

    /// Takes a nonvolatile variable behind its word.
    #[tactic(auto, using(crate::proofs::ItemLoops::nv_parts))]
    fn nonvolatile(&mut self) -> Result<(Name, NvDecl), Stop>
        ensures exact { Reads (λ x. (x.0, x.1)) result (left self.new) (nv_at (left self.old)) }
        ensures shorter { OnOk result (length self.new.rest.now < length self.old.rest.now) }
    {
        let name = self.name()?;
        let declaration = self.declaration()?;
        Ok((name, declaration))
    }

    /// Takes the type and the initial value of a nonvolatile variable, behind its name.
    #[tactic(auto, unfolding(crate::specs::Parts::declaration_at))]
    fn declaration(&mut self) -> Result<NvDecl, Stop>
        ensures exact { Reads (λ d. d) result (left self.new) (declaration_at (left self.old)) }
        ensures shorter { OnOk result (length self.new.rest.now < length self.old.rest.now) }
    {
        self.expect(Mark::Colon)?;
        let (words, array) = self.cells()?;
        self.expect(Mark::Assign)?;
        let initial = self.constant()?;
        self.expect(Mark::Semicolon)?;
        Ok(NvDecl {
            words,
            array,
            initial,
        })
    }

    /// Takes the name of a sensor or port and the `;`.
    #[tactic(auto, unfolding(oc_grammar::specs::ReadingPrograms::declared_at))]
    fn declared_name(&mut self) -> Result<Name, Stop>
        ensures exact { Reads (λ x. x) result (left self.new) (declared_at (left self.old)) }
        ensures shorter { OnOk result (length self.new.rest.now < length self.old.rest.now) }
    {
        let name = self.name()?;
        self.expect(Mark::Semicolon)?;
        Ok(name)
    }
}

/// Adds the declaration of a sensor.
fn add_sensor(program: &mut Program, line: u32, name: Name) -> Result<(), Stop>
    ensures { MatchResult result
        (λ x. program_view program.new ≡ with_sensor line name (program_view program.old))
        (λ e. e ≡ Stop.Memory) }
{
    program.names.sensors.push(name)?;
    let kind = DeclKind::Sensor;
    program.order.push(Decl { kind, line })?;
    Ok(())
}

/// Adds the declaration of a port.
fn add_port(program: &mut Program, line: u32, name: Name) -> Result<(), Stop>
    ensures { MatchResult result
        (λ x. program_view program.new ≡ with_port line name (program_view program.old))
        (λ e. e ≡ Stop.Memory) }
{
    program.names.ports.push(name)?;
    let kind = DeclKind::Port;
    program.order.push(Decl { kind, line })?;
    Ok(())
}

/// Adds the declaration of a nonvolatile variable.
fn add_nv(program: &mut Program, line: u32, name: Name, declaration: NvDecl) -> Result<(), Stop>
    ensures { MatchResult result
        (λ x. program_view program.new ≡ with_nv line name declaration (program_view program.old))
        (λ e. e ≡ Stop.Memory) }
{
    program.names.nvs.push(name)?;
    program.nv.push(declaration)?;
    let kind = DeclKind::Nv;
    program.order.push(Decl { kind, line })?;
    Ok(())
}

/// Adds a function.
fn add_function(program: &mut Program, function: Function) -> Result<(), Stop>
    ensures { MatchResult result
        (λ x. program_view program.new
        ≡ with_function (function_view function) (program_view program.old))
        (λ e. e ≡ Stop.Memory) }
{
    let kind = DeclKind::Function;
    let line = function.line;
    program.functions.push(function)?;
    program.order.push(Decl { kind, line })?;
    Ok(())
}

impl Parser<'_> {
    /// Takes a function behind its word.
    #[tactic(auto, unfolding(oc_grammar::specs::ReadingPrograms::function_at))]
    fn function(&mut self, line: u32) -> Result<Function, Stop>
        requires { Fits self.old }
        ensures exact { ReadsTo function_view result self.new
            (from (function_at the_depths line) self.old) }
        ensures fits { OnOk result (Fits self.new) }
        ensures shorter { OnOk result
            (length self.new.reader.rest.now < length self.old.reader.rest.now) }
    {
        let name = self.reader.name()?;
        self.reader.expect(Mark::OpenRound)?;
        let params = self.reader.params()?;
        let result = self.reader.result()?;
        let body = self.block(BLOCKS)?;
        Ok(Function {
            name,
            line,
            params,
            result,
            body,
        })
    }

    /// Takes an item into the program.
    #[tactic(auto, unfolding(oc_grammar::specs::ReadingPrograms::item_at))]
    pub fn item(&mut self, program: &mut Program) -> Result<(), Stop>
        requires { Fits self.old }
        ensures exact { ReadsTo (λ x. program_view program.new) result self.new
            (from (item_at the_depths (program_view program.old)) self.old) }
        ensures fits { OnOk result (Fits self.new) }
        ensures shorter { OnOk result
            (length self.new.reader.rest.now < length self.old.reader.rest.now) }
    {
        let token = self.reader.next()?;
        match token.kind {
            Kind::Word(Word::Sensor) => {
                let name = self.reader.declared_name()?;
                add_sensor(program, token.line, name)
            }
            Kind::Word(Word::Port) => {
                let name = self.reader.declared_name()?;
                add_port(program, token.line, name)
            }
            Kind::Word(Word::Nonvolatile) => {
                let (name, declaration) = self.reader.nonvolatile()?;
                add_nv(program, token.line, name, declaration)
            }
            Kind::Word(Word::Function) => {
                let function = self.function(token.line)?;
                add_function(program, function)
            }
            _ => Err(self.reader.refuse_last()),
        }
    }
}
