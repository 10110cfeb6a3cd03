//! The words that say what an entry tells.
ghost use Rattle.std.specs.Prelude.{◌≡◌};
ghost use Rattle.rl_defs.specs.Words.{same_bytes};
ghost use Rattle.history_text.specs.Verbs.{verb_text, verb_in};

/// What an entry tells, but for a `free`, which has no thread.
#[derive(Clone, Copy, Debug, PartialEq, Eq)]
pub(crate) enum Verb {
    Call,
    Refuse,
    Ret,
    Unwound,
    Reload,
    Again,
    Trap,
    Kill,
    New,
    Drop,
    Set,
    Wput,
    Take,
    Put,
    DevGet,
    DevPut,
    Hang,
    Unhang,
    Show,
    Skip,
    Done,
}

// Those that stand in most lines come first.
const VERBS: [Verb; 21] = [
    Verb::Wput,
    Verb::Call,
    Verb::Ret,
    Verb::Set,
    Verb::New,
    Verb::Drop,
    Verb::Refuse,
    Verb::Unwound,
    Verb::Reload,
    Verb::Again,
    Verb::Trap,
    Verb::Kill,
    Verb::Take,
    Verb::Put,
    Verb::DevGet,
    Verb::DevPut,
    Verb::Hang,
    Verb::Unhang,
    Verb::Show,
    Verb::Skip,
    Verb::Done,
];

// The word.
fn verb_text(verb: Verb) -> &'static [u8]
    ensures { result.now ≡ verb_text verb }
{
    match verb {
        Verb::Call => b"call",
        Verb::Refuse => b"refuse",
        Verb::Ret => b"ret",
        Verb::Unwound => b"unwound",
        Verb::Reload => b"reload",
        Verb::Again => b"again",
        Verb::Trap => b"trap",
        Verb::Kill => b"kill",
        Verb::New => b"new",
        Verb::Drop => b"drop",
        Verb::Set => b"set",
        Verb::Wput => b"wput",
        Verb::Take => b"take",
        Verb::Put => b"put",
        Verb::DevGet => b"devget",
        Verb::DevPut => b"devput",
        Verb::Hang => b"hang",
        Verb::Unhang => b"unhang",
        Verb::Show => b"show",
        Verb::Skip => b"skip",
        Verb::Done => b"done",
    }
}

fn is_verb(verb: Verb, word: &[u8]) -> bool
    ensures { result ≡ same_bytes (verb_text verb) word.now }
{
    verb_text(verb) == word
}

/// What a word says.
#[tactic(auto, unfolding(crate::specs::Verbs::verb_in))]
pub(crate) fn read_verb(word: &[u8]) -> Option<Verb>
    ensures { result ≡ verb_in word.now }
{
    VERBS.iter().copied().find(|verb| is_verb(*verb, word))
}
