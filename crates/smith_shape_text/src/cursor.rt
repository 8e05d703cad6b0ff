use crate::fault::{Fault, TextFault};
use crate::lexer::{Kind, Token};

/// The tokens of a text that are not read yet.
#[derive(Clone, Copy)]
pub(crate) struct Cursor<'a> {
    text: &'a [u8],
    tokens: &'a [Token],
}

impl<'a> Cursor<'a> {
    /// Begins with the first of `tokens`, the tokens of `text`.
    pub(crate) fn new(text: &'a [u8], tokens: &'a [Token]) -> Cursor<'a> {
        Cursor { text, tokens }
    }

    /// Returns the number of tokens that are not read yet.
    pub(crate) fn left(&self) -> usize {
        self.tokens.len()
    }

    /// Returns the place of the next token.
    pub(crate) fn offset(&self) -> usize {
        match self.tokens {
            [next, ..] => next.start,
            [] => self.text.len(),
        }
    }

    /// Returns the fault `reason` at the next token.
    pub(crate) fn fault(&self, reason: TextFault) -> Fault {
        Fault {
            reason,
            offset: self.offset(),
        }
    }

    /// Skips the next token.
    pub(crate) fn skip(&mut self) {
        if let [_, rest @ ..] = self.tokens {
            self.tokens = rest;
        }
    }

    // Returns the bytes of `token` in the text.
    fn bytes_of(&self, token: Token) -> &'a [u8] {
        self.text.get(token.start..token.end).unwrap_or(&[])
    }

    /// Returns the next token if it is a word, or no bytes.
    pub(crate) fn word(&self) -> &'a [u8] {
        match self.tokens {
            [next, ..] if next.kind == Kind::Word => self.bytes_of(*next),
            _ => &[],
        }
    }

    /// Returns the bytes of the next token with its quotation marks, if it is a string.
    pub(crate) fn string(&self) -> Option<&'a [u8]> {
        match self.tokens {
            [next, ..] if next.kind == Kind::Text => Some(self.bytes_of(*next)),
            _ => None,
        }
    }

    /// Returns the word after the opening parenthesis that is next, or no bytes.
    pub(crate) fn keyword(&self) -> &'a [u8] {
        match self.tokens {
            [open, word, ..] if open.kind == Kind::Open && word.kind == Kind::Word => {
                self.bytes_of(*word)
            }
            _ => &[],
        }
    }

    /// Skips the next token if it is the word `word`. Returns whether it is.
    pub(crate) fn take_word(&mut self, word: &[u8]) -> bool {
        let is_next = self.word() == word;
        if is_next {
            self.skip();
        }
        is_next
    }

    /// Skips an opening parenthesis and the word `keyword`, if they are next. Returns whether they
    /// are.
    pub(crate) fn try_open(&mut self, keyword: &[u8]) -> bool {
        let is_next = self.keyword() == keyword;
        if is_next {
            self.skip();
            self.skip();
        }
        is_next
    }

    /// Skips an opening parenthesis and the word `keyword`.
    pub(crate) fn open(&mut self, keyword: &[u8]) -> Result<(), Fault> {
        if self.try_open(keyword) {
            return Ok(());
        }
        Err(self.fault(TextFault::NoField))
    }

    /// Returns whether the next token is a closing parenthesis.
    pub(crate) fn is_closing(&self) -> bool {
        match self.tokens {
            [next, ..] => next.kind == Kind::Close,
            [] => false,
        }
    }

    /// Skips a closing parenthesis.
    pub(crate) fn close(&mut self) -> Result<(), Fault> {
        if self.is_closing() {
            self.skip();
            return Ok(());
        }
        Err(self.fault(TextFault::NoClose))
    }

    /// Skips the rest of the open parentheses, up to and with the closing one.
    pub(crate) fn close_after_all(&mut self) -> Result<(), Fault> {
        let tokens = self.tokens;
        let mut depth = 0usize;
        for (place, token) in tokens.iter().enumerate() {
            match token.kind {
                Kind::Open => depth = depth.saturating_add(1),
                Kind::Close if depth == 0 => {
                    self.tokens = tokens.get(place..).unwrap_or(&[]);
                    return self.close();
                }
                Kind::Close => depth = depth.saturating_sub(1),
                Kind::Word | Kind::Text => {}
            }
        }
        self.tokens = &[];
        self.close()
    }

    /// Skips the next token if it is an identifier (Identifiers), and returns it.
    pub(crate) fn identifier(&mut self) -> Option<&'a [u8]> {
        match self.word() {
            [b'$', _, ..] => {
                let word = self.word();
                self.skip();
                Some(word)
            }
            _ => None,
        }
    }
}
