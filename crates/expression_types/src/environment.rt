// What is seen where an expression stands.
ghost use Rattle.std.specs.Prelude.{◌≡◌, option_map};
ghost use Rattle.type_terms.specs.Term.{variable};
ghost use Rattle.type_steps.specs.Environment.{term_at, term_seen};
ghost use Rattle.expression_types.specs.Seen.{env_of, types_seen};
ghost use Rattle.expression_types.specs.Tables.{def_seen};

use crate::bindings::Bindings;
use crate::defs::Defs;
use liq_base::TokenTable;
use name_scope::Parameter;
use script_grammar::tree::Def;
use type_instances::General;
use type_terms::KindTerm;
use typing_rules::Target;

/// A use of a name: its token, what it means, and its open kinds.
#[derive(Drop)]
pub struct FoundUse {
    pub at: u32,
    pub target: Target,
    pub kinds: Vec<KindTerm>,
}

/// A kind in the text of a def: one over the variables outside, or an open kind of the def by its number.
#[derive(Clone, Copy, Debug)]
pub enum TextKind {
    Outer(KindTerm),
    Open(u64),
}

/// A use of a name in the text of a def, by its token: its kinds are over the variables outside, or open kinds of the
/// def.
#[derive(Drop)]
pub struct TextUse {
    pub at: u32,
    pub target: Target,
    pub kinds: Vec<TextKind>,
}

/// A binding by the token of the name that it binds, and the number of the type variable that is its type.
#[derive(Clone, Copy, Debug)]
pub struct TypedName {
    pub at: u32,
    pub var: u64,
}

/// A def by the token of its name, with its general type and the uses in its text.
#[derive(Drop)]
pub struct KnownDef<'a> {
    pub at: u32,
    pub def: &'a Def,
    pub params: Vec<Parameter<'a>>,
    pub general: General,
    pub uses: Vec<TextUse>,
}

/// What a statement has bound: a value, or a def by its index among the defs.
#[derive(Clone, Copy, Debug)]
pub enum Known {
    Value(TypedName),
    Function(usize),
}

/// What names mean, the parameters and inner bindings of the def around, what statements have bound, the newest last,
/// and their defs.
#[derive(Clone, Copy)]
pub struct Names<'n, 'a> {
    pub targets: &'n TokenTable<Target>,
    pub inner: &'n [TypedName],
    pub before: &'n Bindings,
    pub defs: &'n Defs<'a>,
}

/// The number of the type variable of the first of these bindings whose name stands at token `at`; `None` if there is
/// none.
fn var_in(names: &[TypedName], at: u32) -> Option<u64>
    ensures { option_map variable result ≡ term_at at (types_seen names.now) }
{
    for name in names {
        if name.at == at {
            return Some(name.var);
        }
    }
    None
}

impl<'n, 'a> Names<'n, 'a> {
    /// What the name at token `at` means: a binding, a def or a builtin; `None` if it means nothing.
    pub fn target(&self, at: u32) -> Option<Target>
        ensures { result ≡ (env_of self.now).targets at }
    {
        self.targets.get(at)
    }

    /// The number of the type variable of the binding whose name stands at token `at`, one of the def around or of a
    /// statement; `None` if there is none.
    pub fn value(&self, at: u32) -> Option<u64>
        ensures { option_map variable result ≡ term_seen at (env_of self.now) }
    {
        match var_in(self.inner, at) {
            Some(var) => Some(var),
            None => self.before.var(at),
        }
    }

    /// The def whose name stands at token `at`, with its general type; `None` if there is none.
    pub fn function(&self, at: u32) -> Option<&'n KnownDef<'a>>
        ensures { option_map (λ d. d.now) result ≡ def_seen at self.now.defs.now }
    {
        self.defs.find(at)
    }
}
