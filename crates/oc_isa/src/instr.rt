//! The instructions.
use oc_tree::tree::UnaryOp;

/// Operators on two words. `Div` and `Rem` trap where the second is 0.
#[derive(Clone, Copy)]
pub enum BinOp {
    Add,
    Sub,
    Mul,
    Div,
    Rem,
    Eq,
    Ne,
    Lt,
    Le,
    Gt,
    Ge,
}

/// What a probe reports of a statement.
#[derive(Clone, Copy)]
pub enum ProbeKind {
    Use,
    Done,
    Tag,
}

/// An instruction. `s` is a slot of the frame (of `Sense`: a sensor), `a` a nonvolatile word, `t` an
/// address of the code, `f` a function, `k` a number of parameters, `p` a port, `r` a region from 1.
#[derive(Clone, Copy)]
pub enum Instr {
    /// Pushes `c`.
    Push { c: i32 },
    /// Pushes the word in slot `s` of the frame.
    Load { s: u32 },
    /// Pops a word into slot `s` of the frame.
    Store { s: u32 },
    /// Pushes the nonvolatile word at `a`.
    Nload { a: u32 },
    /// Pops a word into the nonvolatile word at `a`.
    Nstore { a: u32 },
    /// Pushes the address of slot `s` of the frame.
    Addr { s: u32 },
    /// Pushes the address of the nonvolatile word at `a`.
    Naddr { a: u32 },
    /// Pops an address and pushes the word there.
    Get,
    /// Pops an address and a word, and writes the word there.
    Put,
    /// Pops an index and the address of an array of `n` words, and pushes that of the element.
    Index { n: u32 },
    /// Pops two operands and pushes the result.
    Bin { op: BinOp },
    /// Pops an operand and pushes the result.
    Un { op: UnaryOp },
    /// Goes on at `t`.
    Jump { t: u32 },
    /// Pops a word, and goes on at `t` where it is 0.
    Jfalse { t: u32 },
    /// Calls the function `f`, whose arguments are on the stack.
    Call { f: u32 },
    /// Returns from a function of `k` parameters.
    Ret { k: u32 },
    /// The same with the topmost word as the result.
    Retv { k: u32 },
    /// Pops a word.
    Drop,
    /// Pushes what the sensor `s` shows, and reports it.
    Sense { s: u32 },
    /// Pops a word and reports it on the port `p`.
    Emit { p: u32 },
    /// Reports a use, its end, or an annotation of a set, by its statement.
    Probe { kind: ProbeKind, n: u32 },
    /// Begins the region `r`.
    Enter { r: u32 },
    /// Ends the region `r`.
    Commit { r: u32 },
    /// Ends the run.
    Halt,
}

/// An instruction, and the statement that it belongs to (0 for the closing `ret` or `halt`).
#[derive(Clone, Copy)]
pub struct Placed {
    pub instr: Instr,
    pub site: u32,
}
