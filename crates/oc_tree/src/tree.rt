//! The tree of a program.
ghost use Rattle.std.specs.Prelude.{◌≡◌};
ghost use Rattle.oc_tree.specs.View.{kind_view};
ghost use Rattle.oc_tree.specs.Assigned.{is_mutable};
ghost use Rattle.oc_tree.specs.Places.{declares};

use crate::name::{Name, Names};

/// The number of a statement, from 1 in source order over the whole program.
pub type StmtId = u32;

/// The number of a block, from 1 in the order of their `{`. The block that an `else if` opens has
/// the place of that `if`.
pub type BlockId = u32;

/// A variable of a function: a nonvolatile one by its place among the names, a parameter by its
/// place, a `let` or `for` variable by its statement, or the function's result.
#[derive(Clone, Copy, PartialEq, Eq)]
pub enum VarId {
    /// A nonvolatile variable, by its place among the names.
    Nv { index: u32 },
    /// A parameter, by its place.
    Param { index: u32 },
    /// The variable of a `let` or `for`, by its statement.
    Declared { stmt: StmtId },
    /// The function's result.
    Returned,
}

/// An operator before its operand.
#[derive(Clone, Copy)]
pub enum UnaryOp {
    Neg,
    Not,
}

/// An operator between its operands. `Div` and `Rem` round towards 0.
#[derive(Clone, Copy)]
pub enum BinaryOp {
    Or,
    And,
    Eq,
    Ne,
    Lt,
    Le,
    Gt,
    Ge,
    Add,
    Sub,
    Mul,
    Div,
    Rem,
}

/// The type of a value of one word.
#[derive(Clone, Copy)]
pub enum Scalar {
    Int,
    Bool,
}

/// How a parameter is passed: by value, by `&` or by `&mut`.
#[derive(Clone, Copy)]
pub enum Passing {
    Value,
    Shared,
    Mutable,
}

impl Passing {
    /// Whether it is by `&mut`.
    pub fn is_mutable(self) -> bool
        ensures { result ≡ is_mutable self }
    {
        match self {
            Passing::Value | Passing::Shared => false,
            Passing::Mutable => true,
        }
    }
}

/// The type of a variable: a number, a truth value, or an array of so many numbers.
#[derive(Clone, Copy)]
pub enum ValueKind {
    Int,
    Bool,
    Array { words: u32 },
}

/// An expression. A right side that is just an input or a call is no expression: see [`Right`].
#[cycle(expression)]
#[derive(Drop)]
pub enum Expr {
    /// A number, as `21`.
    Number {
        value: i32,
    },
    /// `true` or `false`.
    Truth {
        value: bool,
    },
    /// A variable by its name.
    Variable {
        name: Name,
    },
    /// An element of an array, `a[e]`.
    Index {
        array: Name,
        index: Box<Expr>,
    },
    /// What a reference stands for, `*x`.
    Deref {
        name: Name,
    },
    /// `-e` or `!e`.
    Unary {
        op: UnaryOp,
        inner: Box<Expr>,
    },
    /// Two operands with an operator between them.
    Binary {
        op: BinaryOp,
        left: Box<Expr>,
        right: Box<Expr>,
    },
    /// An input inside an expression; a checked program has none.
    Sense {
        sensor: Name,
    },
    /// A call inside an expression; a checked program has none.
    Call {
        call: Call,
    },
}

/// An argument: a value, or a variable by reference.
#[cycle(expression)]
#[derive(Drop)]
pub enum Arg {
    /// An expression, by value.
    Value { value: Expr },
    /// `&x`
    Shared { name: Name },
    /// `&mut x`
    Mutable { name: Name },
}

/// A call of a function by its name.
#[cycle(expression)]
#[derive(Drop)]
pub struct Call {
    pub function: Name,
    pub args: Vec<Arg>,
}

/// The right side of a `let` or an assignment.
#[derive(Drop)]
pub enum Right {
    /// An expression that is neither just an input nor just a call.
    Value { value: Expr },
    /// `sense(s)`
    Sense { sensor: Name },
    /// `f(..)`
    Call { call: Call },
}

/// What a statement does.
#[cycle(tree)]
#[derive(Drop)]
pub enum StmtKind {
    /// `let x: T = right;`, where `mut` and the type may stand or not.
    Let {
        mutable: bool,
        name: Name,
        kind: Option<ValueKind>,
        right: Right,
    },
    /// `let a: [i32; words] = [initial; words];`, where `mut` and the type may stand or not.
    LetArray {
        mutable: bool,
        name: Name,
        kind: Option<ValueKind>,
        initial: i32,
        words: u32,
    },
    /// `x = right;`
    Assign {
        name: Name,
        right: Right,
    },
    /// `a[index] = right;`
    AssignIndex {
        name: Name,
        index: Expr,
        right: Right,
    },
    /// `*x = right;`
    AssignDeref {
        name: Name,
        right: Right,
    },
    /// `if condition { .. } else { .. }`; an `else if` is an `else` with that `if` alone.
    If {
        condition: Expr,
        then: Block,
        otherwise: Option<Block>,
    },
    /// `for x in from..to { .. }`
    For {
        name: Name,
        from: i32,
        to: i32,
        body: Block,
    },
    /// `while condition bound n { .. }`
    While {
        condition: Expr,
        bound: u32,
        body: Block,
    },
    /// `f(..);`
    CallOnly {
        call: Call,
    },
    /// `sense(s);`
    SenseOnly {
        sensor: Name,
    },
    /// `emit(p, e);`
    Emit {
        port: Name,
        value: Expr,
    },
    /// `Fresh(x);`
    Fresh {
        name: Name,
    },
    /// `Consistent(x, id);`
    Consistent {
        name: Name,
        id: i32,
    },
    /// `return e;`
    Return {
        value: Expr,
    },
}

impl StmtKind {
    /// Whether it declares a variable.
    pub fn declares(&self) -> bool
        ensures { result ≡ declares (kind_view self.now) }
    {
        match self {
            StmtKind::Let { .. } | StmtKind::LetArray { .. } | StmtKind::For { .. } => true,
            _ => false,
        }
    }
}

/// A statement, with the line of its first token.
#[cycle(tree)]
#[derive(Drop)]
pub struct Stmt {
    pub id: StmtId,
    pub line: u32,
    pub kind: StmtKind,
}

/// The statements between two braces.
#[cycle(tree)]
#[derive(Drop)]
pub struct Block {
    pub id: BlockId,
    pub statements: Vec<Stmt>,
}

/// A parameter of a function.
#[derive(Drop)]
pub struct Param {
    pub name: Name,
    pub passing: Passing,
    pub kind: ValueKind,
}

/// A function, with the line of its `fn`.
#[derive(Drop)]
pub struct Function {
    pub name: Name,
    pub line: u32,
    pub params: Vec<Param>,
    pub result: Option<Scalar>,
    pub body: Block,
}

/// A nonvolatile variable: so many words with this initial value. One that is no array has 1 word.
#[derive(Clone, Copy)]
pub struct NvDecl {
    pub words: u32,
    pub array: bool,
    pub initial: i32,
}

/// What is declared at the top level.
#[derive(Clone, Copy)]
pub enum DeclKind {
    Sensor,
    Port,
    Nv,
    Function,
}

/// A declaration at the top level, with the line of its first token.
#[derive(Clone, Copy)]
pub struct Decl {
    pub kind: DeclKind,
    pub line: u32,
}

/// A whole source. `order` has all declarations in source order, so that it and the lists together
/// give the order across kinds; `last_line` is the line of the last token, or 1 where there is none.
#[derive(Drop)]
pub struct Program {
    pub names: Names,
    pub nv: Vec<NvDecl>,
    pub functions: Vec<Function>,
    pub order: Vec<Decl>,
    pub last_line: u32,
}
