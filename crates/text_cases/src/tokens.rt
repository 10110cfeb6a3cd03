//! Lines, tokens and their canonical spelling.

use rl_defs::LoadFault;
use rl_defs::lexeme::{Key, Mark};
use rl_text::decimal::has_decimals;
use rl_text::line::{Line, lines};
use rl_text::render::Spelling;
use rl_text::token::tokens;
use std::alloc::Global;
use std::test::Fail;

// How many tokens a line has. None where it is refused.
fn token_count(alloc: Global, text: &[u8]) -> Result<Option<usize>, Fail> {
    let line = Line {
        number: 1,
        start: 0,
        end: text.len().min(4096) as u32,
    };
    match tokens(alloc, text, &line) {
        Ok(all) => Ok(Some(all.len())),
        Err(LoadFault::Refused(_)) => Ok(None),
        Err(LoadFault::Memory) => Err(Fail::from("memory")),
    }
}

#[test]
fn lines_and_tokens(rt: HostRuntime) -> Result<(), Fail> {
    let text = b"a 1\r\n\r\n  // b\nc";
    let all = lines(rt.alloc(), text)?;
    assert_eq!(rt; all.len(), 4);
    assert_eq!(rt;
        all[3],
        Line {
            number: 4,
            start: 14,
            end: 15
        }
    );
    assert_eq!(rt; token_count(rt.alloc(), b"a->0x1F \"x\" // y")?, Some(4));
    assert_eq!(rt; token_count(rt.alloc(), b"18446744073709551616")?, None);
    Ok(())
}

#[test]
fn decimal_numbers_are_told(rt: HostRuntime) -> Result<(), Fail> {
    let rows: [(&[u8], bool); 5] = [
        (b"hang r1, 0, r2", true),
        (b"hang r1, 0x0, r2", false),
        (b"trap // 0x0", true),
        (b"", true),
        (b"\"", false),
    ];
    for (text, decimal) in rows {
        let line = Line {
            number: 1,
            start: 0,
            end: text.len().min(4096) as u32,
        };
        assert_eq!(rt; has_decimals(text, &line), decimal);
    }
    Ok(())
}

#[test]
fn a_line_is_spelled(rt: HostRuntime) -> Result<(), Fail> {
    let mut line = Spelling::new(rt.alloc());
    line.key(Key::Const)?;
    line.mark(Mark::Ampersand)?;
    line.text(b"a b")?;
    line.number(17)?;
    line.mark(Mark::Comma)?;
    let mut bytes = Vec::new(rt.alloc());
    line.write_line(rt.alloc(), 1, &mut bytes)?;
    let wanted: &[u8] = b"    const &\"a b\" 17,\n";
    assert!(rt; bytes.as_slice() == wanted);
    Ok(())
}
