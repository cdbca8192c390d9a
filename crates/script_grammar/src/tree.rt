// The tree of a script. Each field `at` is the index of a token: of a node's first one, of the name that a
// binding, a def and a parameter bind, and of an operator itself. The grammar stands in `docs/grammar.md`.
//
// Each type's `drop` is written out. A derived one would be proved anew in each crate that lets a tree go; this one is
// proved here alone.
use crate::predicate::POr;
use fixed_text::Decimal;
use liq_base::Text;

/// A script: its statements, in order.
pub struct Script {
    pub statements: Vec<Stmt>,
}

impl Drop for Script {
    // Frees this part of a tree with all that it holds. Written out, so that other crates need not prove a derived one.
    fn drop(self) {
        let Self { statements: _ } = self;
    }
}

/// A statement, and whether a `;` ends it.
pub struct Stmt {
    pub part: StmtPart,
    pub semicolon: bool,
}

impl Drop for Stmt {
    // Frees this part of a tree with all that it holds. Written out, so that other crates need not prove a derived one.
    fn drop(self) {
        let Self {
            part: _,
            semicolon: _,
        } = self;
    }
}

/// What a statement is.
pub enum StmtPart {
    Bind(Bind),
    Def(Def),
    Call(Call),
    If(If),
}

impl Drop for StmtPart {
    // Frees this part of a tree with all that it holds. Written out, so that other crates need not prove a derived one.
    fn drop(self) {
        match self {
            StmtPart::Bind(_) => {}
            StmtPart::Def(_) => {}
            StmtPart::Call(_) => {}
            StmtPart::If(_) => {}
        }
    }
}

/// `name = value`.
pub struct Bind {
    pub at: u32,
    pub name: Text,
    pub value: Full,
}

impl Drop for Bind {
    // Frees this part of a tree with all that it holds. Written out, so that other crates need not prove a derived one.
    fn drop(self) {
        let Self {
            at: _,
            name: _,
            value: _,
        } = self;
    }
}

/// A binding in the body of a def, and whether a `;` ends it.
pub struct Inner {
    pub bind: Bind,
    pub semicolon: bool,
}

impl Drop for Inner {
    // Frees this part of a tree with all that it holds. Written out, so that other crates need not prove a derived one.
    fn drop(self) {
        let Self {
            bind: _,
            semicolon: _,
        } = self;
    }
}

/// `def name(params) = inner result end`; the `=` may be missing.
pub struct Def {
    pub at: u32,
    pub name: Text,
    pub params: Vec<Param>,
    pub equals: bool,
    pub inner: Vec<Inner>,
    pub result: Expr,
}

impl Drop for Def {
    // Frees this part of a tree with all that it holds. Written out, so that other crates need not prove a derived one.
    fn drop(self) {
        let Self {
            at: _,
            name: _,
            params: _,
            equals: _,
            inner: _,
            result: _,
        } = self;
    }
}

/// A parameter of a def.
pub struct Param {
    pub at: u32,
    pub name: Text,
    pub form: ParamForm,
}

impl Drop for Param {
    // Frees this part of a tree with all that it holds. Written out, so that other crates need not prove a derived one.
    fn drop(self) {
        let Self {
            at: _,
            name: _,
            form: _,
        } = self;
    }
}

/// How a parameter is given: in its place, by its label, or by its label if at all.
pub enum ParamForm {
    Plain,
    Labelled,
    Optional(Full),
}

impl Drop for ParamForm {
    // Frees this part of a tree with all that it holds. Written out, so that other crates need not prove a derived one.
    fn drop(self) {
        match self {
            ParamForm::Plain => {}
            ParamForm::Labelled => {}
            ParamForm::Optional(_) => {}
        }
    }
}

/// A value in full: a negative number, or an expression.
#[cycle(tree)]
pub enum Full {
    /// `- number`. Elsewhere a negative number stands in parentheses.
    Minus { at: u32, number: Literal },
    Plain(Expr),
}

impl Drop for Full {
    // Frees this part of a tree with all that it holds. Written out, so that other crates need not prove a derived one.
    #[cycle(drop_tree)]
    fn drop(self) {
        match self {
            Full::Minus { at: _, number: _ } => {}
            Full::Plain(_) => {}
        }
    }
}

/// A number as its token holds it.
#[derive(Clone, Copy, Debug, PartialEq, Eq)]
pub enum Literal {
    Int(i64),
    Number(Decimal),
}

/// Parts joined by `or`.
#[cycle(tree)]
pub struct Expr {
    pub first: And,
    pub rest: Vec<And>,
}

impl Drop for Expr {
    // Frees this part of a tree with all that it holds. Written out, so that other crates need not prove a derived one.
    #[cycle(drop_tree)]
    fn drop(self) {
        let Self { first: _, rest: _ } = self;
    }
}

/// Parts joined by `and`.
#[cycle(tree)]
pub struct And {
    pub first: Not,
    pub rest: Vec<Not>,
}

impl Drop for And {
    // Frees this part of a tree with all that it holds. Written out, so that other crates need not prove a derived one.
    #[cycle(drop_tree)]
    fn drop(self) {
        let Self { first: _, rest: _ } = self;
    }
}

/// A comparison, perhaps behind `not`.
#[cycle(tree)]
pub struct Not {
    pub negated: bool,
    pub inner: Compare,
}

impl Drop for Not {
    // Frees this part of a tree with all that it holds. Written out, so that other crates need not prove a derived one.
    #[cycle(drop_tree)]
    fn drop(self) {
        let Self {
            negated: _,
            inner: _,
        } = self;
    }
}

/// A sum, perhaps compared with another.
#[cycle(tree)]
pub struct Compare {
    pub left: Sum,
    pub right: Option<Compared>,
}

impl Drop for Compare {
    // Frees this part of a tree with all that it holds. Written out, so that other crates need not prove a derived one.
    #[cycle(drop_tree)]
    fn drop(self) {
        let Self { left: _, right: _ } = self;
    }
}

/// A comparing operator and the sum to its right.
#[cycle(tree)]
pub struct Compared {
    pub at: u32,
    pub op: CompareOp,
    pub sum: Sum,
}

impl Drop for Compared {
    // Frees this part of a tree with all that it holds. Written out, so that other crates need not prove a derived one.
    #[cycle(drop_tree)]
    fn drop(self) {
        let Self {
            at: _,
            op: _,
            sum: _,
        } = self;
    }
}

/// `==`, `!=`, `<`, `<=`, `>` and `>=`.
#[derive(Clone, Copy, Debug, PartialEq, Eq, Hash)]
pub enum CompareOp {
    Equal,
    Differs,
    Less,
    AtMost,
    Greater,
    AtLeast,
}

/// Products joined by `+` and `-`.
#[cycle(tree)]
pub struct Sum {
    pub first: Product,
    pub rest: Vec<Added>,
}

impl Drop for Sum {
    // Frees this part of a tree with all that it holds. Written out, so that other crates need not prove a derived one.
    #[cycle(drop_tree)]
    fn drop(self) {
        let Self { first: _, rest: _ } = self;
    }
}

/// `+` or `-`, and the product to its right.
#[cycle(tree)]
pub struct Added {
    pub at: u32,
    pub minus: bool,
    pub product: Product,
}

impl Drop for Added {
    // Frees this part of a tree with all that it holds. Written out, so that other crates need not prove a derived one.
    #[cycle(drop_tree)]
    fn drop(self) {
        let Self {
            at: _,
            minus: _,
            product: _,
        } = self;
    }
}

/// Operands joined by `*` and `/`.
#[cycle(tree)]
pub struct Product {
    pub first: Operand,
    pub rest: Vec<Multiplied>,
}

impl Drop for Product {
    // Frees this part of a tree with all that it holds. Written out, so that other crates need not prove a derived one.
    #[cycle(drop_tree)]
    fn drop(self) {
        let Self { first: _, rest: _ } = self;
    }
}

/// `*` or `/`, and the operand to its right.
#[cycle(tree)]
pub struct Multiplied {
    pub at: u32,
    pub divide: bool,
    pub operand: Operand,
}

impl Drop for Multiplied {
    // Frees this part of a tree with all that it holds. Written out, so that other crates need not prove a derived one.
    #[cycle(drop_tree)]
    fn drop(self) {
        let Self {
            at: _,
            divide: _,
            operand: _,
        } = self;
    }
}

/// An operand.
#[cycle(tree)]
pub enum Operand {
    Literal { at: u32, value: Literal },
    Str { at: u32, text: Text },
    Bool { at: u32, value: bool },
    Name { at: u32, name: Text },
    Call(Call),
    If(If),
    /// `()`.
    Unit { at: u32 },
    /// One value in parentheses.
    Paren(Box<Full>),
    /// Two values or more in parentheses.
    Tuple { at: u32, parts: Vec<Full> },
    /// Values in square brackets.
    List { at: u32, parts: Vec<Full> },
    /// A predicate in curly brackets.
    Braces { at: u32, pred: POr },
    /// `%wav`, perhaps with its option `(samplesize = size)`.
    Wav { at: u32, size: Option<i64> },
}

impl Drop for Operand {
    // Frees this part of a tree with all that it holds. Written out, so that other crates need not prove a derived one.
    #[cycle(drop_tree)]
    fn drop(self) {
        match self {
            Operand::Literal { at: _, value: _ } => {}
            Operand::Str { at: _, text: _ } => {}
            Operand::Bool { at: _, value: _ } => {}
            Operand::Name { at: _, name: _ } => {}
            Operand::Call(_) => {}
            Operand::If(_) => {}
            Operand::Unit { at: _ } => {}
            Operand::Paren(_) => {}
            Operand::Tuple { at: _, parts: _ } => {}
            Operand::List { at: _, parts: _ } => {}
            Operand::Braces { at: _, pred: _ } => {}
            Operand::Wav { at: _, size: _ } => {}
        }
    }
}

/// `name(args)`.
#[cycle(tree)]
pub struct Call {
    pub at: u32,
    pub name: Text,
    pub args: Vec<Arg>,
}

impl Drop for Call {
    // Frees this part of a tree with all that it holds. Written out, so that other crates need not prove a derived one.
    #[cycle(drop_tree)]
    fn drop(self) {
        let Self {
            at: _,
            name: _,
            args: _,
        } = self;
    }
}

/// An argument of a call, perhaps behind `label =`.
#[cycle(tree)]
pub struct Arg {
    pub at: u32,
    pub label: Option<Text>,
    pub value: Full,
}

impl Drop for Arg {
    // Frees this part of a tree with all that it holds. Written out, so that other crates need not prove a derived one.
    #[cycle(drop_tree)]
    fn drop(self) {
        let Self {
            at: _,
            label: _,
            value: _,
        } = self;
    }
}

/// `if condition then then_part else else_part end`.
#[cycle(tree)]
pub struct If {
    pub at: u32,
    pub condition: Box<Full>,
    pub then_part: Box<Full>,
    pub else_part: Box<Full>,
}

impl Drop for If {
    // Frees this part of a tree with all that it holds. Written out, so that other crates need not prove a derived one.
    #[cycle(drop_tree)]
    fn drop(self) {
        let Self {
            at: _,
            condition: _,
            then_part: _,
            else_part: _,
        } = self;
    }
}
