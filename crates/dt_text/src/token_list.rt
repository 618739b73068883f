//! Tokens of a line, which contracts see as a list.

ghost use Rattle.std.specs.Prelude.{◌≡◌, []};

use std::alloc::Global;
use std::marker::Model;

/// The bytes `from..to` of a text.
#[derive(Clone, Copy, Debug, PartialEq, Eq)]
pub struct Token {
    pub from: u32,
    pub to: u32,
}

/// Tokens, in order.
#[derive(Debug, Drop)]
pub struct Tokens {
    pub items: Vec<Token>,
}

impl Model for Tokens {
    ghost use Rattle.std.specs.Prelude.{List};
    ghost use Rattle.dt_text.specs.declared.token_list.Token.{Token};

    ghost Value = { List Token };

    ghost view = { λ t. t.items.items };
}

impl Tokens {
    pub fn new(alloc: Global) -> Tokens
        ensures { result ≡ [] }
    {
        Tokens {
            items: Vec::new(alloc),
        }
    }

    pub fn from_vec(items: Vec<Token>) -> Tokens
        ensures { result ≡ items.items }
    {
        Tokens { items }
    }

    pub fn as_slice(&self) -> &[Token]
        ensures { result.now ≡ self.now }
    {
        self.items.as_slice()
    }
}
