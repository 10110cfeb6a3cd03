//! What each rule refuses, in one sentence.

/// What a rule refuses. docs/FORMATS.md has the rules whole, each with an example.
pub fn sentence(rule: u8) -> &'static str {
    match rule {
        1 => "the line is no line of its part, or breaks a rule on lines and tokens",
        2 => "the line may not stand here, or a block before it is left open",
        3 => "the name was given before",
        4 => "a name on the line is declared nowhere",
        10 => "a type on the line may not cross a domain boundary",
        11 => "the struct holds itself, so it has no end",
        12 => "the struct has more than 512 cells",
        13 => "the struct holds an RRef of a struct that holds an RRef itself",
        20 => "the method's result isn't RpcResult, though each call may fail",
        21 => "the method returns a loan or an interface, which end with the call",
        22 => "the method is marked idempotent and takes an object, which can be passed once only",
        23 => "the method has more than 8 parameters or more than 4 results",
        30..=37 => code_sentence(rule),
        40..=46 => plan_sentence(rule),
        50 => "the command doesn't fit what it names: a kind, a count or a width differs",
        51 => "the command uses what was moved or dropped before",
        99 => "the bundle uses something that this program can't run yet",
        _ => "a rule refuses it",
    }
}

// What a rule of domain code refuses.
fn code_sentence(rule: u8) -> &'static str {
    match rule {
        30 => "a register doesn't hold what the line asks for",
        31 => "an object that the domain owns would be lost",
        32 => "the head doesn't list what the registers hold there",
        33 => "the function has no such label",
        34 => "one object is moved twice, or moved and lent",
        35 => "a slot, an import or the words that the line uses are not declared",
        36 => "a method or a function is missing, or has another shape",
        _ => "control reaches the end of the function",
    }
}

// What a rule of the plan refuses.
fn plan_sentence(rule: u8) -> &'static str {
    match rule {
        40 => "an import of the domain is not bound",
        41 => "what is bound has another trait than the import",
        42 => "what is bound is not loaded before the load that it is bound to",
        43 => "the load has a native body, or a shadow already",
        44 => "a shadow may restart its load 16 times at most",
        45 => "there is a device already",
        _ => "the line goes over a limit",
    }
}
