//! The tokens of a text, which are looked at by their places.
ghost use Rattle.std.specs.Prelude.{◌≡◌, ◌<◌, All, length};
ghost use Rattle.fx_tokens.specs.Reads.{IsSlice};
ghost use Rattle.fx_turtle.specs.Sources.{left, Stands};

use fx_tokens::{Token, TokenKind};
use std::marker::Model;

/// Tokens of a text, each a slice of it. Contracts see both.
#[derive(Drop)]
pub struct Source<'a> {
    text: &'a str,
    tokens: &'a [Token],
}

impl<'a> Model for Source<'a> {
    ghost use Rattle.std.specs.Prelude.{All, List, ℕ};
    ghost use Rattle.fx_tokens.specs.Reads.{IsSlice};
    ghost use Rattle.fx_tokens.specs.declared.Token as read;

    ghost Value = { List ℕ × List read.Token };

    ghost view = { λ s. (s.text.now, s.tokens.now) };

    ghost invariant = { λ s. All (IsSlice s.text.now) s.tokens.now };
}

impl<'a> Source<'a> {
    /// These tokens of this text.
    pub fn of(text: &'a str, tokens: &'a [Token]) -> Source<'a>
        requires { All (IsSlice text.now) tokens.now }
        ensures { result ≡ (text.now, tokens.now) }
    {
        Source { text, tokens }
    }

    /// The token at a place with its text, and the place behind it.
    pub fn token(&self, at: usize) -> Option<(TokenKind, &str, usize)>
        ensures { Stands self.now at result }
    {
        if at < self.tokens.len() {
            let token = self.tokens[at];
            let text = &self.text[token.start as usize..token.end as usize];
            Some((token.kind, text, at + 1))
        } else {
            None
        }
    }

    /// How many tokens there are from a place on.
    pub fn count(&self, at: usize) -> usize
        ensures { result ≡ length (left self.now at) }
    {
        self.tokens.len().saturating_sub(at)
    }
}
