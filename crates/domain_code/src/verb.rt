//! The words that lines of the domain part begin with, but for the reserved ones.
ghost use Rattle.std.specs.Prelude.{◌≡◌, ℕ, List};
ghost use Rattle.rl_defs.specs.DomainForms.{spell_op};
ghost use Rattle.domain_code.specs.Verbs.{one_text, two_text, three_text, named_text, verb_text, among, beginning, verb_of};

use rl_defs::code::MathOp;

/// The word of an instruction of one register.
#[derive(Clone, Copy)]
pub(crate) enum One {
    DevSize,
    Drop,
}

/// The word of an instruction of two registers.
#[derive(Clone, Copy)]
pub(crate) enum Two {
    Copy,
    Move,
    Wget,
    Wput,
    DevGet,
    DevPut,
}

/// The word of an instruction of three registers.
#[derive(Clone, Copy)]
pub(crate) enum Three {
    Math(MathOp),
    Get,
    Set,
}

/// The word of an instruction of a register and a name.
#[derive(Clone, Copy)]
pub(crate) enum Named {
    Jz,
    Has,
    Cap,
    New,
    Take,
}

/// A word that a line begins with. Instructions go by what stands behind their word.
#[derive(Clone, Copy)]
pub(crate) enum Verb {
    Domain,
    Words,
    Slot,
    Import,
    Native,
    One(One),
    Two(Two),
    Three(Three),
    Named(Named),
    Jmp,
    Put,
    Hang,
    Unhang,
    Call,
    Ret,
    Trap,
}

pub(crate) fn op_text(op: MathOp) -> &'static [u8]
    ensures { result.now ≡ spell_op op }
{
    match op {
        MathOp::Add => b"add",
        MathOp::Sub => b"sub",
        MathOp::Mul => b"mul",
        MathOp::Div => b"div",
        MathOp::Rem => b"rem",
        MathOp::And => b"and",
        MathOp::Or => b"or",
        MathOp::Xor => b"xor",
        MathOp::Lt => b"lt",
        MathOp::Eq => b"eq",
    }
}

fn one_text(verb: One) -> &'static [u8]
    ensures { result.now ≡ one_text verb }
{
    match verb {
        One::DevSize => b"devsize",
        One::Drop => b"drop",
    }
}

fn two_text(verb: Two) -> &'static [u8]
    ensures { result.now ≡ two_text verb }
{
    match verb {
        Two::Copy => b"copy",
        Two::Move => b"move",
        Two::Wget => b"wget",
        Two::Wput => b"wput",
        Two::DevGet => b"devget",
        Two::DevPut => b"devput",
    }
}

fn three_text(verb: Three) -> &'static [u8]
    ensures { result.now ≡ three_text verb }
{
    match verb {
        Three::Math(op) => op_text(op),
        Three::Get => b"get",
        Three::Set => b"set",
    }
}

fn named_text(verb: Named) -> &'static [u8]
    ensures { result.now ≡ named_text verb }
{
    match verb {
        Named::Jz => b"jz",
        Named::Has => b"has",
        Named::Cap => b"cap",
        Named::New => b"new",
        Named::Take => b"take",
    }
}

/// The bytes of a word.
pub(crate) fn verb_text(verb: Verb) -> &'static [u8]
    ensures { result.now ≡ verb_text verb }
{
    match verb {
        Verb::Domain => b"domain",
        Verb::Words => b"words",
        Verb::Slot => b"slot",
        Verb::Import => b"import",
        Verb::Native => b"native",
        Verb::One(verb) => one_text(verb),
        Verb::Two(verb) => two_text(verb),
        Verb::Three(verb) => three_text(verb),
        Verb::Named(verb) => named_text(verb),
        Verb::Jmp => b"jmp",
        Verb::Put => b"put",
        Verb::Hang => b"hang",
        Verb::Unhang => b"unhang",
        Verb::Call => b"call",
        Verb::Ret => b"ret",
        Verb::Trap => b"trap",
    }
}

// The one of these words that has these bytes.
#[tactic(auto, unfolding(crate::specs::Verbs::among))]
fn among(verbs: &[Verb], word: &[u8]) -> Option<Verb>
    ensures { result ≡ among verbs.now word.now }
{
    verbs.iter().copied().find(|verb| verb_text(*verb) == word)
}

const WITH_A: [Verb; 2] = [
    Verb::Three(Three::Math(MathOp::Add)),
    Verb::Three(Three::Math(MathOp::And)),
];

const WITH_C: [Verb; 3] = [Verb::Two(Two::Copy), Verb::Named(Named::Cap), Verb::Call];

// Each domain has a line that begins with `domain`, so this word stands first.
const WITH_D: [Verb; 6] = [
    Verb::Domain,
    Verb::One(One::Drop),
    Verb::Three(Three::Math(MathOp::Div)),
    Verb::Two(Two::DevGet),
    Verb::Two(Two::DevPut),
    Verb::One(One::DevSize),
];

const WITH_E: [Verb; 1] = [Verb::Three(Three::Math(MathOp::Eq))];

const WITH_G: [Verb; 1] = [Verb::Three(Three::Get)];

const WITH_H: [Verb; 2] = [Verb::Named(Named::Has), Verb::Hang];

const WITH_I: [Verb; 1] = [Verb::Import];

const WITH_J: [Verb; 2] = [Verb::Jmp, Verb::Named(Named::Jz)];

const WITH_L: [Verb; 1] = [Verb::Three(Three::Math(MathOp::Lt))];

const WITH_M: [Verb; 2] = [Verb::Two(Two::Move), Verb::Three(Three::Math(MathOp::Mul))];

const WITH_N: [Verb; 2] = [Verb::Named(Named::New), Verb::Native];

const WITH_O: [Verb; 1] = [Verb::Three(Three::Math(MathOp::Or))];

const WITH_P: [Verb; 1] = [Verb::Put];

const WITH_R: [Verb; 2] = [Verb::Ret, Verb::Three(Three::Math(MathOp::Rem))];

const WITH_S: [Verb; 3] = [
    Verb::Three(Three::Set),
    Verb::Three(Three::Math(MathOp::Sub)),
    Verb::Slot,
];

const WITH_T: [Verb; 2] = [Verb::Named(Named::Take), Verb::Trap];

const WITH_U: [Verb; 1] = [Verb::Unhang];

const WITH_W: [Verb; 3] = [Verb::Two(Two::Wget), Verb::Two(Two::Wput), Verb::Words];

const WITH_X: [Verb; 1] = [Verb::Three(Three::Math(MathOp::Xor))];

// The word of these bytes, of those that begin with this letter.
fn beginning(first: u8, word: &[u8]) -> Option<Verb>
    ensures { result ≡ beginning first word.now }
{
    match first {
        b'a' => among(&WITH_A, word),
        b'c' => among(&WITH_C, word),
        b'd' => among(&WITH_D, word),
        b'e' => among(&WITH_E, word),
        b'g' => among(&WITH_G, word),
        b'h' => among(&WITH_H, word),
        b'i' => among(&WITH_I, word),
        b'j' => among(&WITH_J, word),
        b'l' => among(&WITH_L, word),
        b'm' => among(&WITH_M, word),
        b'n' => among(&WITH_N, word),
        b'o' => among(&WITH_O, word),
        b'p' => among(&WITH_P, word),
        b'r' => among(&WITH_R, word),
        b's' => among(&WITH_S, word),
        b't' => among(&WITH_T, word),
        b'u' => among(&WITH_U, word),
        b'w' => among(&WITH_W, word),
        b'x' => among(&WITH_X, word),
        _ => among(&[], word),
    }
}

/// The word of these bytes, if it is one that a line begins with.
#[tactic(auto, unfolding(crate::specs::Verbs::verb_of))]
pub(crate) fn verb_of(word: &[u8]) -> Option<Verb>
    ensures { result ≡ verb_of word.now }
{
    match word {
        [first, ..] => beginning(*first, word),
        [] => None,
    }
}
