use anyhow::{Context, ensure};
use std::str::{FromStr, SplitWhitespace};

// The words of a case that are still to be read.
#[derive(Drop)]
pub struct Words<'a> {
    rest: SplitWhitespace<'a>,
}

impl<'a> Words<'a> {
    pub(crate) fn new(text: &'a str) -> Words<'a> {
        Words {
            rest: text.split_whitespace(),
        }
    }

    pub(crate) fn word(&mut self) -> anyhow::Result<&'a str> {
        self.rest.next().context("the case ends early")
    }

    pub(crate) fn number<N: FromStr>(&mut self) -> anyhow::Result<N>
    where
        N::Err: Drop,
    {
        self.word()?
            .parse::<N>()
            .ok()
            .context("a word is not a number of its size")
    }

    // Goes past a word that has to stand here.
    pub(crate) fn pass(&mut self, word: &str) -> anyhow::Result<()> {
        ensure!(
            self.word()? == word,
            "a word of the case is not the one that belongs there"
        );
        Ok(())
    }
}
