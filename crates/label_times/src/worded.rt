use crate::words::Words;
use costs::{CostKind, Pair, Total, Worst, Zones};

// A kind of cost that a case can name: a tariff line is read from words.
pub trait Worded: CostKind {
    fn read(words: &mut Words<'_>) -> anyhow::Result<Self>;
}

impl Worded for Total {
    fn read(words: &mut Words<'_>) -> anyhow::Result<Total> {
        Ok(Total {
            value: words.number()?,
        })
    }
}

impl Worded for Worst {
    fn read(words: &mut Words<'_>) -> anyhow::Result<Worst> {
        Ok(Worst {
            value: words.number()?,
        })
    }
}

impl<A: Worded, B: Worded> Worded for Pair<A, B> {
    fn read(words: &mut Words<'_>) -> anyhow::Result<Pair<A, B>> {
        Ok(Pair {
            first: A::read(words)?,
            second: B::read(words)?,
        })
    }
}

impl Worded for Zones {
    fn read(words: &mut Words<'_>) -> anyhow::Result<Zones> {
        Ok(Zones {
            bits: words.number()?,
        })
    }
}
