//! The tokens of a text, window by window: up to and with the next dot.
ghost use Rattle.std.specs.Prelude.{◌≡◌, List, drop, codes, true, Ok, Err, IfOk, IfErr};
ghost use Rattle.std.specs.Str.{chars, bytes_eq, IsCharBoundary};
ghost use Rattle.fx_tokens.specs.Answers.{UnlessMemory};
ghost use Rattle.fx_tokens.specs.Reads.{Reads, IsSlice};
ghost use Rattle.fx_tokens.specs.Scan.{Barren};
ghost use Rattle.fx_tokens.specs.declared.Token as read;
ghost use Rattle.fx_turtle.specs.Symbols as symbol;
ghost use Rattle.fx_turtle.specs.Windows.{Filled};

use crate::kinds::Kind;
use fx_tokens::{Token, TokenError, TokenKind, next_token};

/// Where reading has come to in a text, with what `next_token` is to be given there.
#[derive(Clone, Copy)]
pub struct Position {
    pub place: u64,
    pub barren: usize,
}

/// Fills the window with the tokens from a position on, up to and with the next dot, or to the end of the text. Gives the position
/// behind them.
pub fn fill(text: &str, from: Position, window: &mut Vec<Token>) -> Result<Position, TokenError>
    requires place { IsCharBoundary text.now from.place }
    requires barren { Barren from.barren (chars (drop from.place text.now)) }
    ensures filled { IfOk result (Filled text.now from.place window.new.items) }
    ensures refused { IfErr result (λ e. UnlessMemory e (Reads from.place (chars (drop from.place text.now)) (Err e))) }
{
    window.clear();
    let mut to = from;
    'each: while let Some(next) = next_token(text, to.place, to.barren)? {
        window.push(next.token)?;
        to = Position {
            place: next.token.end,
            barren: next.barren,
        };
        if is_dot(text, next.token) {
            return Ok(to);
        }
    }
    Ok(to)
}

// The token is a dot by itself.
fn is_dot(text: &str, token: Token) -> bool
    requires { IsSlice text.now token }
    ensures dot { result ≡ true → symbol.says text.now token ≡ symbol.plain Kind.Dot }
    ensures other { symbol.says text.now token ≡ symbol.plain Kind.Dot → result ≡ true }
{
    match token.kind {
        TokenKind::Mark => is_point(&text[token.start as usize..token.end as usize]),
        _ => false,
    }
}

fn is_point(text: &str) -> bool
    ensures { result ≡ bytes_eq text.now (codes ".") }
{
    text == "."
}

/// Looks through the tokens from a position on to the end of the text, and keeps none.
pub fn scan(text: &str, from: Position) -> Result<(), TokenError>
    requires place { IsCharBoundary text.now from.place }
    requires barren { Barren from.barren (chars (drop from.place text.now)) }
    ensures found { IfOk result (λ u. (more : List read.Token) × Reads from.place (chars (drop from.place text.now)) (Ok more)) }
    ensures refused { IfErr result (λ e. Reads from.place (chars (drop from.place text.now)) (Err e)) }
{
    let mut to = from;
    'each: while let Some(next) = next_token(text, to.place, to.barren)? {
        to = Position {
            place: next.token.end,
            barren: next.barren,
        };
    }
    Ok(())
}
