//! The line that tells of a refusal, written and read.
ghost use Rattle.std.specs.Prelude.{◌≡◌, ◌≢◌, ℕ, ◌<◌, ◌^◌, IfOk, IfSome, IfNone};
ghost use Rattle.redleaf_app.specs.Outcomes.{refusal_text};

use crate::front::{after, number_at};
use crate::put::{put, put_number};
use rl_defs::Refusal;
use std::alloc::{AllocError, Global};

/// What is printed where a line is refused.
pub(crate) fn refusal_text(alloc: Global, at: Refusal) -> Result<Vec<u8>, AllocError>
    ensures { IfOk result (λ text. text.items ≡ refusal_text at.line at.rule) }
{
    let mut text = Vec::new(alloc);
    put(&mut text, b"refused line ")?;
    put_number(&mut text, u64::from(at.line))?;
    put(&mut text, b" rule ")?;
    put_number(&mut text, u64::from(at.rule))?;
    put(&mut text, b"\n")?;
    Ok(text)
}

// The line and the rule of a refusal.
fn numbers_in(text: &[u8]) -> Option<(u64, u64)>
    ensures found { IfSome result (λ at. (text.now ≡ refusal_text at.0 at.1) × (at.0 < 2 ^ 64) × (at.1 < 2 ^ 64)) }
    ensures none { IfNone result ((line rule : ℕ) → line < 2 ^ 64 → rule < 2 ^ 64 → text.now ≢ refusal_text line rule) }
{
    let rest = after(text, b"refused line ")?;
    let (line, rest) = number_at(rest)?;
    let rest = after(rest, b" rule ")?;
    let (rule, rest) = number_at(rest)?;
    if rest == b"\n".as_slice() {
        Some((line, rule))
    } else {
        None
    }
}

/// The line and the rule that a text tells of, where it is the line of a refusal and nothing else.
pub fn refusal_in(text: &[u8]) -> Option<Refusal>
    ensures found { IfSome result (λ at. text.now ≡ refusal_text at.line at.rule) }
    ensures none { IfNone result ((line rule : ℕ) → line < 2 ^ 32 → rule < 2 ^ 8 → text.now ≢ refusal_text line rule) }
{
    let (line, rule) = numbers_in(text)?;
    if line > u64::from(u32::MAX) {
        return None;
    }
    if rule > u64::from(u8::MAX) {
        return None;
    }
    Some(Refusal {
        line: line as u32,
        rule: rule as u8,
    })
}
