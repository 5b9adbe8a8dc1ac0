ghost use Rattle.std.specs.Prelude.{ℕ, List};
ghost use Rattle.costs.specs.Texts.{Texts, Long, Wrote};

// What can be written as a text, so that the text, followed by a space, can be read off the front of any bytes.
pub trait Text: Sized {
    ghost text: { Self → List ℕ };

    // How long the text is, if no longer than `room`.
    fn text_len(&self, room: usize) -> Option<usize>
        ensures { Long (text self.now) room result };

    // Writes the text at the front of `out` and says how long it is; where it does not fit, writes nothing and says so.
    fn write_text(&self, out: &mut [u8]) -> Option<usize>
        ensures { Wrote (text self.now) out.old out.new result };

    ghost texts: { Texts text };
}
